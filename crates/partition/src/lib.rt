// One partition's cells, from where the partition starts: its short pairs, whether it is marked, and
// its state. Each pair is counted whole against the bound; nothing is summed over the partition. The
// definitions are in `specs/Partition`, the laws for callers in `proofs/Laws`, those of marked, and of
// the states by it, in `proofs/Marked`. It rests on `fuse` and `laws`. Every public function answers
// for any number of cells.
#![tactic(auto)]

ghost use Rattle.std.specs.Prelude.{◌≡◌, ◌+◌, ◌*◌, ◌<◌, ◌≤◌, length};
ghost use Rattle.partition.specs.Partition.{pair_at, short_at, short_pairs, lowest_pair, lowest_short, shorts_of, marked, tail, no_data, survey_of};
ghost use Rattle.partition.specs.Partition.{SomeBesides, torn_pair};

// How many pairs are short, and the lowest of them by its first cell, counted from the partition's start.
#[derive(Clone, Copy)]
pub struct Shorts {
    pub count: usize,
    pub lowest: Option<usize>,
}

// A short pair: its first cell, counted from the partition's start, and its ones.
#[derive(Clone, Copy)]
pub struct ShortPair {
    pub cell: usize,
    pub ones: u64,
}

// What a partition's fuses say.
#[derive(Clone, Copy)]
pub enum State {
    Erased,
    Torn,
    Blank,
    Programmed,
}

// A partition's state and its number of short pairs.
#[derive(Clone, Copy)]
pub struct Survey {
    pub state: State,
    pub short: usize,
}

// Pair `j`.
fn pair_at(part: &[u32], j: usize) -> u64
    requires { 2 * j + 1 < length part.now }
    ensures { result ≡ pair_at part.now j }
{
    fuse::pair(part[2 * j], part[2 * j + 1])
}

// Whether pair `j` is short.
fn short_at(part: &[u32], j: usize, bound: u64) -> bool
    requires { 2 * j + 1 < length part.now }
    ensures { result ≡ short_at bound part.now j }
{
    fuse::is_short(pair_at(part, j), bound)
}

// The number of short pairs.
// Kept as a loop: `filter` and `count` were tried, and their machine code jumps at each pair, which is slower.
fn short_pairs(part: &[u32], bound: u64) -> usize
    ensures { result ≡ short_pairs bound part.now }
{
    let mut short = 0;
    for j in 0..part.len() / 2 {
        if short_at(part, j, bound) {
            short += 1;
        }
    }
    short
}

// The number of the lowest short pair, that of all pairs where none is short.
// Kept as a number for none: of an Option `torn_pair` would take the pair by a test that can trap.
fn lowest_pair(part: &[u32], bound: u64) -> usize
    ensures { result ≡ lowest_pair bound part.now }
{
    let pairs = part.len() / 2;
    (0..pairs)
        .position(|j| short_at(part, j, bound))
        .unwrap_or(pairs)
}

// The first cell of the lowest short pair.
fn lowest_short(part: &[u32], bound: u64) -> Option<usize>
    ensures { result ≡ lowest_short bound part.now }
{
    let j = lowest_pair(part, bound);
    if j < part.len() / 2 {
        Some(2 * j)
    } else {
        None
    }
}

// How many pairs are short, and which is the lowest, which is looked for only where there is one.
pub fn shorts_of(part: &[u32], bound: u64) -> Shorts
    ensures { result ≡ shorts_of bound part.now }
{
    let count = short_pairs(part, bound);
    let lowest = if count == 0 {
        None
    } else {
        lowest_short(part, bound)
    };
    Shorts { count, lowest }
}

// The first short pair among those that a torn partition is judged by. The indicator, which is not one
// of them, comes last: so the first short pair of all is the first of these.
pub fn torn_pair(part: &[u32], bound: u64) -> ShortPair
    requires { SomeBesides bound part.now }
    ensures { result ≡ torn_pair bound part.now }
{
    let j = lowest_pair(part, bound);
    ShortPair {
        cell: 2 * j,
        ones: fuse::ones(pair_at(part, j)),
    }
}

// Whether a partition is marked: it is zeroizable and its indicator, the last pair, has a set fuse.
pub fn is_marked(part: &[u32], zeroizable: bool) -> bool
    ensures { result ≡ marked zeroizable part.now }
{
    let pairs = part.len() / 2;
    zeroizable && 1 <= pairs && pair_at(part, pairs - 1) != 0
}

// The cells from the digest on: digest and indicator of a zeroizable partition, the digest of any
// other.
pub fn tail_cells(zeroizable: bool) -> usize
    ensures { (result ≡ tail zeroizable) × (result ≤ 4) }
{
    if zeroizable { 4 } else { 2 }
}

// Whether every data cell is zero.
fn no_data(part: &[u32], zeroizable: bool) -> bool
    ensures { result ≡ no_data zeroizable part.now }
{
    let data = part.len().saturating_sub(tail_cells(zeroizable));
    part[..data].iter().all(|cell| *cell == 0)
}

// A partition's state, and its short pairs. All pairs are told; all but the indicator, the last, tell
// erased from torn.
pub fn survey_cells(part: &[u32], bound: u64, zeroizable: bool) -> Survey
    ensures { result ≡ survey_of zeroizable bound part.now }
{
    let short = short_pairs(part, bound);
    let state = if is_marked(part, zeroizable) {
        if (short == 0) | ((short == 1) & short_at(part, part.len() / 2 - 1, bound)) {
            State::Erased
        } else {
            State::Torn
        }
    } else if no_data(part, zeroizable) {
        State::Blank
    } else {
        State::Programmed
    };
    Survey { state, short }
}
