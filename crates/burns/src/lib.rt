// The run of burns that erases a partition, over the partition's cells from where it starts: indicator,
// data words ascending, digest, each burned by the one function that burns a word. A cut erasure is
// this run with a mask at the burn where the power fails and nothing after it; an erasure that is not
// cut is this run with a cut that no order reaches. The definitions are in `specs/Run`, the laws of the
// loop in `proofs/Turns`, what a run does to each cell in `proofs/Cells`, that it adds to the set fuses
// what it reports in `proofs/Charge`, when a run stops after its first burn and what that leaves in
// `proofs/Stops`, what any number of runs leaves in `proofs/Safe`, how a run ends and after how many
// burns in `proofs/Ends`. It rests on `fuse`, `partition` and `laws`.
#![tactic(auto)]

ghost use Rattle.std.specs.Prelude.{◌≡◌, ◌+◌, ◌-◌, ◌%◌, ◌<◌, ◌≤◌, min, length, get_or};
ghost use Rattle.fuse.specs.Fuse.{cells_in};
ghost use Rattle.burns.specs.Run.{pair_from, order, goes_on, place_of, value_of, end_of, ran_as, run};

// A word of a partition: its first cell, counted from where the partition starts, and whether it is a
// pair or one cell.
#[derive(Clone, Copy)]
pub struct Word {
    pub at: usize,
    pub wide: bool,
}

// How a run ended: its order was gone through, the indicator stopped it, or the power failed.
#[derive(Clone, Copy)]
pub enum End {
    Whole,
    Stopped,
    Cut,
}

// How a run ended, how many burns it carried out, and how many fuses they have newly set.
#[derive(Clone, Copy)]
pub struct Report {
    pub end: End,
    pub burns: usize,
    pub new: u32,
}

// `n`, `software`, `k` and `mask` stay parameters: no three functions take the same two of them.

// The first cell of what burn number `j` burns after the indicator: data words, and the digest behind
// them.
fn place_of(software: bool, j: usize) -> usize
    requires { (1 ≤ j) × (j ≤ 2048) }
    ensures { result ≡ place_of software j }
{
    if software { j - 1 } else { 2 * (j - 1) }
}

// The word that burn number `j` burns after the indicator. The digest stands where another data word
// would, so only its width needs a test.
fn word_at(n: usize, software: bool, j: usize) -> Word
    requires { (4 ≤ n) × (n % 2 ≡ 0) × (n ≤ 2048) × (1 ≤ j) × (j < length (order software n)) }
    ensures { (result ≡ get_or (order software n) j (pair_from 0)) × (result.at + cells_in result.wide ≤ n) }
{
    let at = place_of(software, j);
    Word {
        at,
        wide: !software | (at == n - 4),
    }
}

// Whether an erasure goes on, by what its first burn left: the partition is marked.
fn goes_on(cells: &[u32]) -> bool
    ensures { result ≡ goes_on cells.now }
{
    partition::is_marked(cells, true)
}

// The number of a run's last burn, where the indicator does not stop it: the one that is cut, or the
// digest's, which follows the data words.
fn last_burn(n: usize, software: bool, k: usize) -> usize
    requires { 4 ≤ n }
    ensures { result ≡ min k (length (order software n) - 1) }
{
    let data_words = if software { n - 4 } else { (n - 4) / 2 };
    k.min(data_words + 1)
}

// What burn number `j` burns: all ones, or the mask where it is the one that is cut.
fn value_of(j: usize, k: usize, mask: u64) -> u64
    ensures { result ≡ value_of j k mask }
{
    if j == k { mask } else { fuse::ALL_ONES }
}

// How a run ends whose last burn is number `j`.
fn end_of(j: usize, k: usize) -> End
    ensures { result ≡ end_of j k }
{
    if j == k { End::Cut } else { End::Whole }
}

// The run over a partition's cells and marks: all ones into each word, but the mask into the one that
// burn number `k` burns, and nothing after it. The loop burns words of one width, so that the compiler
// takes several at once: the indicator comes before it, and the last burn behind it.
pub fn run(cells: &mut [u32], marks: &[u32], software: bool, k: usize, mask: u64) -> Report
    requires { (4 ≤ length cells.old) × (length cells.old % 2 ≡ 0) × (length cells.old ≤ 2048) × (length marks.now ≡ length cells.old) }
    ensures { (ran_as result cells.new ≡ run marks.now software k mask cells.old) × (result.burns ≤ length cells.old) }
{
    let n = cells.len();
    let mut new = fuse::burn_word(cells, marks, n - 2, true, value_of(0, k, mask));
    if k == 0 {
        return Report {
            end: End::Cut,
            burns: 1,
            new,
        };
    }
    if !goes_on(cells) {
        return Report {
            end: End::Stopped,
            burns: 1,
            new,
        };
    }
    let last = last_burn(n, software, k);
    for j in 1..last {
        let at = place_of(software, j);
        new += fuse::burn_word(cells, marks, at, !software, fuse::ALL_ONES);
    }
    let word = word_at(n, software, last);
    new += fuse::burn_word(cells, marks, word.at, word.wide, value_of(last, k, mask));
    Report {
        end: end_of(last, k),
        burns: last + 1,
        new,
    }
}
