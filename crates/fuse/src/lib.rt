// Fuses: a cell of 32, a pair of 64, what a burn leaves in them, how many of a pair are set, and how
// many a burn newly sets. A burn never clears a fuse and never sets a stuck one. The definitions are in
// `specs/Fuse`, the laws of burning and counting in `proofs/Burn`, those of the fuses newly set in
// `proofs/Charge`. It rests on `laws` alone.
#![tactic(auto)]

ghost use Rattle.std.specs.Prelude.{◌≡◌, true, false, ◌+◌, ◌<◌, ◌≤◌, length};
ghost use Rattle.fuse.specs.Fuse.{pair_of, ones_of, short, cells_in, burn_cell, burn_word, new_fuses};

// What ZEROIZE and every whole burn of an erasure burn into a word.
pub const ALL_ONES: u64 = 0xFFFF_FFFF_FFFF_FFFF;

// The 64 fuses of a pair as one number, the low half first.
pub fn pair(low: u32, high: u32) -> u64
    ensures { result ≡ pair_of low high }
{
    ((high as u64) << 32) + (low as u64)
}

// How many fuses of a pair are set, as the language counts them.
pub fn ones(fuses: u64) -> u64
    ensures { result ≡ ones_of fuses }
{
    u64::count_ones(fuses) as u64
}

// Whether a pair is short: fewer of its fuses are set than the bound asks.
pub fn is_short(fuses: u64, bound: u64) -> bool
    ensures { result ≡ short bound fuses }
{
    ones(fuses) < bound
}

// Burns `value` into the cell at `at`, touches no other cell, and answers how many fuses it has newly
// set: the ones of what it has added to the cell.
fn burn_cell(cells: &mut [u32], marks: &[u32], at: usize, value: u32) -> u32
    requires { (at < length cells.old) × (at < length marks.now) }
    ensures { (cells.new ≡ burn_cell marks.now at value cells.old)
        × (result ≡ new_fuses marks.now at false value cells.old) }
{
    let before = cells[at];
    let after = before | (value & !marks[at]);
    cells[at] = after;
    u32::count_ones(after - before)
}

// Burns `value` into the pair that starts at `at`, low half first, and touches no other cell. It answers
// how many fuses it has newly set.
// Kept beside `burn_cell`: both cells are one number of 64 bits, whose ones are counted at once.
fn burn_pair(cells: &mut [u32], marks: &[u32], at: usize, value: u64) -> u32
    requires { (at + 2 ≤ length cells.old) × (at + 2 ≤ length marks.now) }
    ensures { (cells.new ≡ burn_word marks.now at true value cells.old)
        × (result ≡ new_fuses marks.now at true value cells.old) }
{
    let before = pair(cells[at], cells[at + 1]);
    let stuck = pair(marks[at], marks[at + 1]);
    let after = before | (value & !stuck);
    cells[at] = (after % 0x1_0000_0000) as u32;
    cells[at + 1] = (after / 0x1_0000_0000) as u32;
    u64::count_ones(after - before)
}

// Burns `value` into the word that starts at `at`, a pair or one cell, which takes the low 32 bits, and
// touches no other cell. It answers how many fuses it has newly set.
pub fn burn_word(cells: &mut [u32], marks: &[u32], at: usize, wide: bool, value: u64) -> u32
    requires { (at + cells_in wide ≤ length cells.old) × (at + cells_in wide ≤ length marks.now) }
    ensures { (cells.new ≡ burn_word marks.now at wide value cells.old)
        × (result ≡ new_fuses marks.now at wide value cells.old) }
{
    if wide {
        burn_pair(cells, marks, at, value)
    } else {
        burn_cell(cells, marks, at, (value % 0x1_0000_0000) as u32)
    }
}
