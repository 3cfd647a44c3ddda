// A reason in words: the line that tells the desk why a drive offers no HEK (request P1), of a torn
// slot with its pair; and a refusal, which every program prints so. The words are in `specs/Wording`,
// the laws in `proofs/Laws`. It rests on `drive`, `reason`, `map` and `text`, and below them on
// `cache`, `context`, `endian`, `fuse`, `laws`, `partition` and `refusal`.
#![tactic(auto)]

ghost use Rattle.std.specs.Prelude.{◌++◌, ◌+◌, ◌≤◌, ◌<◌, length};
ghost use Rattle.laws.specs.Put.{Put};
ghost use Rattle.wording.specs.Wording.{slot_words, refused_words, reason_words, pair_words, reason_line, why_line, SmallReason};

use drive::Drive;
use reason::Reason;

// Writes what state the active slot, in this partition, is in.
fn put_slot(out: &mut [u8], partition: u32, state: &[u8]) -> usize
    requires { (46 + length state.now ≤ length out.old) × (partition < 10000) }
    ensures { Put 0 (slot_words partition ++ state.now) out.old out.new result × (result ≤ 46 + length state.now) }
{
    let at = text::put_numbered(
        out,
        0,
        b"hek none: the active slot, partition ",
        partition as usize,
    );
    let at = text::put(out, at, b", is ");
    text::put(out, at, state)
}

// Writes a refusal in words.
pub fn put_refused(out: &mut [u8], number: u32) -> usize
    requires { (12 ≤ length out.old) × (number < 10000) }
    ensures { Put 0 (refused_words number) out.old out.new result × (result ≤ 12) }
{
    text::put_numbered(out, 0, b"refused ", number as usize)
}

// Writes a reason in words.
fn put_words(out: &mut [u8], reason: Reason) -> usize
    requires { (72 ≤ length out.old) × SmallReason reason }
    ensures { Put 0 (reason_words reason) out.old out.new result × (result ≤ 72) }
{
    match reason {
        Reason::Available => text::put(out, 0, b"hek available"),
        Reason::NoSlot => text::put(out, 0, b"hek none: the map has no slot"),
        Reason::AllErased => text::put(out, 0, b"hek none: every slot is erased"),
        Reason::Blank { partition } => put_slot(out, partition, b"blank: it holds no seed"),
        Reason::Torn { partition, .. } => put_slot(out, partition, b"torn"),
    }
}

// Writes a torn slot's pair, and what it lacks.
fn put_pair(out: &mut [u8], at: usize, cell: u32, ones: u32, bound: u16) -> usize
    requires { (at + 74 ≤ length out.old) × (cell < 10000) × (ones < 10000) × (bound < 10000) }
    ensures { Put at (pair_words bound cell ones) out.old out.new result × (result ≤ at + 74) }
{
    let at = text::put_numbered(out, at, b": the pair at cell ", cell as usize);
    let at = text::put_numbered(out, at, b" has ", ones as usize);
    let at = text::put_numbered(out, at, b" of 64 fuses set, at least ", bound as usize);
    text::put(out, at, b" are needed")
}

// Writes the line of a reason: a torn slot with its pair, else another reason.
fn put_reason(out: &mut [u8], reason: Reason, bound: u16) -> usize
    requires { (147 ≤ length out.old) × SmallReason reason × (bound < 10000) }
    ensures { Put 0 (reason_line bound reason) out.old out.new result }
{
    let at = put_words(out, reason);
    let Reason::Torn { cell, ones, .. } = reason else {
        return text::put(out, at, b"\n");
    };
    let at = put_pair(out, at, cell, ones, bound);
    text::put(out, at, b"\n")
}

// Writes why a drive that was judged offers no HEK.
pub fn put_why(out: &mut [u8], drive: Drive) -> usize
    requires { 147 ≤ length out.old }
    ensures { Put 0 (why_line drive.entry.image.now drive.entry.cells.now) out.old out.new result }
{
    let header = map::read_header(drive.image);
    put_reason(out, reason::reason_in(drive), header.bound)
}
