// The words of a map: which word starts at a cell of the whole array. Every public function answers
// for any bytes and any cell; in a good map each word lies in the one partition that the answer
// names. The definitions are in `specs/Word`, the laws for callers in `specs/Laws`. It rests on
// `map`, on `partition` for where data end, and below them on `fuse`, `endian` and `laws`.
#![tactic(auto)]

ghost use Rattle.std.specs.Prelude.{◌≡◌, ◌<◌};
ghost use Rattle.laws.specs.Below.{found};
ghost use Rattle.map.specs.Map.{header_of, end_of};
ghost use Rattle.word.specs.Word.{is_held_at, partition_of, word_in, word_at};

use map::Entry;

// What a word holds.
#[derive(Clone, Copy, PartialEq, Eq)]
pub enum Role {
    Data,
    Digest,
    Indicator,
}

// A word of a map: its partition, what it holds, and whether it is a pair (`wide`) or one cell.
#[derive(Clone, Copy)]
pub struct Word {
    pub partition: u32,
    pub role: Role,
    pub wide: bool,
}

// Whether partition `i` holds a cell.
fn is_held_at(image: &[u8], cell: u32, i: u32) -> bool
    ensures { result ≡ is_held_at image.now cell i }
{
    let x = map::read_entry(image, i);
    ((x.first as u32) <= cell) & ((cell as usize) < map::end_of(x))
}

// The partition that holds a cell.
fn partition_of(image: &[u8], cell: u32) -> Option<u32>
    ensures { result ≡ found (header_of image.now).partitions (partition_of image.now cell) }
{
    let partitions = map::read_header(image).partitions as u32;
    (0..partitions).find(|i| is_held_at(image, cell, *i))
}

// The word that starts at a cell of a partition.
fn word_in(x: Entry, partition: u32, cell: u32) -> Option<Word>
    requires { cell < end_of x }
    ensures { result ≡ word_in x partition cell }
{
    let left = map::end_of(x) - (cell as usize);
    let tail = partition::tail_cells(map::is_zeroizable(x));
    if tail < left {
        let wide = !map::is_software(x);
        if wide & (cell % 2 == 1) {
            return None;
        }
        return Some(Word {
            partition,
            role: Role::Data,
            wide,
        });
    }
    let role = if left == tail {
        Role::Digest
    } else if left == 2 {
        Role::Indicator
    } else {
        return None;
    };
    Some(Word {
        partition,
        role,
        wide: true,
    })
}

// The word that starts at a cell of the whole array.
pub fn word_at(image: &[u8], cell: u32) -> Option<Word>
    ensures { result ≡ word_at image.now cell }
{
    let i = partition_of(image, cell)?;
    word_in(map::read_entry(image, i), i, cell)
}
