// Why a drive offers no HEK (request P1): the map has no slot, all slots are erased, or the active slot
// is blank or torn, torn with its first short pair. The entry point is `find_reason`, which answers for
// any bytes and any lengths and is lent nothing to change; `reason_in` is for callers that have judged
// the drive. The definitions are in `specs/Reason`, the laws in `proofs/Laws`, and that each reason is
// given exactly when it holds in `specs/Exactly`, proved in `proofs/Exactly`. It rests on `drive`,
// `map`, `partition` and `refusal`, and below them on `cache`, `context`, `endian`, `fuse` and `laws`.
#![tactic(auto)]

ghost use Rattle.std.specs.Prelude.{◌≡◌, ◌<◌};
ghost use Rattle.map.specs.Map.{header_of};
ghost use Rattle.drive.specs.Active.{Active};
ghost use Rattle.partition.specs.declared.State.TheVariants.{Torn};
ghost use Rattle.reason.specs.Reason.{no_slot, torn_reason, reason_in, reason_of};

use drive::{ActiveSlot, Drive};
use refusal::Refusal;

// Why no HEK is offered, or that it is available. The cell is the first of
// the torn slot's first short pair, counted in the whole array; the ones are that pair's.
#[derive(Clone, Copy)]
pub enum Reason {
    Available,
    NoSlot,
    AllErased,
    Blank {
        partition: u32,
    },
    Torn {
        partition: u32,
        cell: u32,
        ones: u32,
    },
}

// Whether no partition of the map is a slot.
fn has_no_slot(image: &[u8]) -> bool
    ensures { result ≡ no_slot image.now }
{
    let partitions = map::read_header(image).partitions as u32;
    for i in 0..partitions {
        if map::is_slot(map::read_entry(image, i)) {
            return false;
        }
    }
    true
}

// The reason that a torn slot in partition `i` gives.
fn torn_reason(drive: Drive, i: u32) -> Reason
    requires { Active drive.image.now drive.cells.now i Torn }
    ensures { result ≡ torn_reason drive.entry.image.now drive.entry.cells.now i }
{
    let header = map::read_header(drive.image);
    let entry = map::read_entry(drive.image, i);
    let pair = partition::torn_pair(drive.part(i), header.bound as u64);
    Reason::Torn {
        partition: i,
        cell: entry.first as u32 + pair.cell as u32,
        ones: pair.ones as u32,
    }
}

// The reason of a drive that was judged.
pub fn reason_in(drive: Drive) -> Reason
    ensures { result ≡ reason_in drive.entry.image.now drive.entry.cells.now }
{
    match drive.active_slot() {
        ActiveSlot::Programmed(_) => Reason::Available,
        ActiveSlot::Blank(i) => Reason::Blank { partition: i },
        ActiveSlot::Torn(i) => torn_reason(drive, i),
        ActiveSlot::Absent => {
            if has_no_slot(drive.image) {
                Reason::NoSlot
            } else {
                Reason::AllErased
            }
        }
    }
}

// The reason of a drive: refusals 1 and 2 in this order.
pub fn find_reason(image: &[u8], cells: &[u32], marks: &[u32]) -> Result<Reason, Refusal>
    ensures { result ≡ reason_of image.now cells.now marks.now }
{
    drive::check_drive(image, cells, marks)?;
    Ok(reason_in(Drive { image, cells }))
}
