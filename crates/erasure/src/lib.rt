// The erasure of a partition of a drive, whole or cut by a power failure, and the restart. A call is
// judged, the lowest refusal first; then the one run of `burns` is made over the partition's part of
// the array, cut or not. `erase`, `erase_cut` and `restart` are the entry points: they answer for any
// bytes and any lengths. `erase_judged` serves FERS too. The definitions are in `specs/Erasure`, the
// laws in `proofs/Laws`, what a run leaves of the whole array in `proofs/Parts`, what holds of cuts in
// `proofs/Cuts`, what an answer says of the partition in `specs/Ends` and `proofs/Leaves`, and of the
// fuses newly set in `proofs/Charge`. It rests on `burns`, `drive`, `cache`, `context`, `refusal` and
// what lies below them.
#![tactic(auto)]

ghost use Rattle.std.specs.Prelude.{◌≡◌, ◌^◌, ◌<◌, ◌≤◌};
ghost use Rattle.refusal.specs.Refusals.{judged};
ghost use Rattle.map.specs.Map.{header_of};
ghost use Rattle.burns.specs.Run.{tally_of, ran_as};
ghost use Rattle.cache.specs.Cache.{emptied};
ghost use Rattle.context.specs.State.{state, outcome};
ghost use Rattle.erasure.specs.Erasure.{partition_tests, none_burned, Erasable, run_on, first_short, answer_by, ran_of, is_cut, uncut_of, erasure_of, cut_erasure_of};

use burns::{End, Report};
use context::Context;
use drive::Drive;
use refusal::Refusal;

// What an erasure answers that is not refused: that it ended, its short pairs, the first cell of the
// lowest one (0xFFFFFFFF if none), the burns carried out and the fuses that they have newly set; the
// partition is then erased exactly if no pair is short or the first short cell is the indicator's, else
// torn. Or that it was cut, the burns and the fuses newly set.
#[derive(Clone, Copy)]
pub enum Answer {
    Ended {
        short: u32,
        first: u32,
        burns: u32,
        new: u32,
    },
    Cut {
        burns: u32,
        new: u32,
    },
}

// Why an erasure is refused, and the burns carried out, none but the indicator's of refusal 15; no fuse
// was set.
#[derive(Clone, Copy)]
pub struct Refused {
    pub refusal: Refusal,
    pub burns: u32,
}

// A refusal before any burn.
impl From<Refusal> for Refused {
    ghost from_gives = { λ refusal refused. refused ≡ none_burned refusal };

    fn from(refusal: Refusal) -> Refused {
        Refused { refusal, burns: 0 }
    }
}

// The burn that an erasure which is not cut would be cut at: no order reaches it.
// Kept as a burn's number, not an Option: document 01 makes cut and uncut erasures one run (`erasure_of`).
const NEVER: u32 = 0xFFFF_FFFF;

// What is told of the first short cell where no pair is short.
// Kept as a number for none: document 01 tells it so, in FERS's response, and `LeftBy` reads it there.
const NO_CELL: u32 = 0xFFFF_FFFF;

// Whether a partition may be erased: the lowest of the refusals 7, 8 and 10 that applies.
pub fn check_partition(image: &[u8], i: u32, context: &Context) -> Result<(), Refusal>
    ensures { result ≡ judged (partition_tests image.now i context.now) }
{
    let header = map::read_header(image);
    if u32::from(header.partitions) <= i {
        return Err(Refusal::NotThere);
    }
    if !map::is_zeroizable(map::read_entry(image, i)) {
        return Err(Refusal::NotAllowed);
    }
    if drive::is_slot_in_use(image, i, context) {
        return Err(Refusal::SlotInUse);
    }
    Ok(())
}

// The run over partition `i`: over its part of the array, which starts where the partition starts.
fn run_on(image: &[u8], cells: &mut [u32], marks: &[u32], i: u32, k: u32, mask: u64) -> Report
    requires { Erasable image.now cells.old marks.now i }
    ensures { (ran_as result cells.new ≡ run_on image.now cells.old marks.now i k mask) × (result.burns ≤ 2048) }
{
    let x = map::read_entry(image, i);
    let first = x.first as usize;
    burns::run(
        &mut cells[first..first + (x.n as usize)],
        &marks[first..first + (x.n as usize)],
        map::is_software(x),
        k as usize,
        mask,
    )
}

// The cell that names a short pair in the whole array, of a partition that starts at `first`.
fn first_short(first: u16, lowest: Option<usize>) -> u32
    requires { first_short first lowest < 2 ^ 32 }
    ensures { result ≡ first_short first lowest }
{
    match lowest {
        Some(k) => (first as u32) + (k as u32),
        None => NO_CELL,
    }
}

// What is answered of a run that left these cells. Entry and part are read before the run's end is
// looked at: so the compiled code keeps less on the stack.
fn answer_of(drive: Drive, i: u32, report: Report) -> Result<Answer, Refused>
    requires { (i < (header_of drive.image.now).partitions) × (report.burns ≤ 2048) }
    ensures { result ≡ answer_by report.end drive.entry.image.now i (tally_of drive.entry.cells.now report.burns report.new) }
{
    let x = map::read_entry(drive.image, i);
    let part = drive.part(i);
    let burns = report.burns as u32;
    let new = report.new;
    let end = report.end;
    match end {
        End::Whole => {
            let header = map::read_header(drive.image);
            let shorts = partition::shorts_of(part, header.bound as u64);
            let lowest = shorts.lowest;
            Ok(Answer::Ended {
                short: shorts.count as u32,
                first: first_short(x.first, lowest),
                burns,
                new,
            })
        }
        End::Stopped => Err(Refused {
            refusal: Refusal::NotMarked,
            burns,
        }),
        End::Cut => Ok(Answer::Cut { burns, new }),
    }
}

// The erasure of partition `i` of a drive that was judged, cut at burn `k` if its order reaches it.
fn run_judged(
    image: &[u8],
    cells: &mut [u32],
    marks: &[u32],
    i: u32,
    k: u32,
    mask: u64,
) -> Result<Answer, Refused>
    requires { Erasable image.now cells.old marks.now i }
    ensures { outcome result cells.new ≡ ran_of image.now i (run_on image.now cells.old marks.now i k mask) }
{
    let report = run_on(image, cells, marks, i, k, mask);
    answer_of(Drive { image, cells }, i, report)
}

// The erasure of partition `i` of a drive that was judged, not cut.
pub fn erase_judged(
    image: &[u8],
    cells: &mut [u32],
    marks: &[u32],
    i: u32,
) -> Result<Answer, Refused>
    requires { Erasable image.now cells.old marks.now i }
    ensures { outcome result cells.new ≡ uncut_of image.now cells.old marks.now i }
{
    run_judged(image, cells, marks, i, NEVER, 0)
}

// The erasure of partition `i`. (It and the cut one each check the drive and the partition: a function that
// did so for both would be one more frame above the run.)
pub fn erase(
    image: &[u8],
    cells: &mut [u32],
    marks: &[u32],
    context: &mut Context,
    i: u32,
) -> Result<Answer, Refused>
    ensures { outcome result (state cells.new context.new)
        ≡ erasure_of image.now marks.now i (state cells.old context.old) }
{
    drive::check_drive(image, cells, marks)?;
    check_partition(image, i, context)?;
    erase_judged(image, cells, marks, i)
}

// Whether an erasure was cut.
fn is_cut(answer: Result<Answer, Refused>) -> bool
    ensures { result ≡ is_cut answer }
{
    matches!(answer, Ok(Answer::Cut { .. }))
}

// The erasure of partition `i`, cut by a power failure at burn `k`, of whose word the mask has burned.
// The power was off, so the cache is empty afterwards, if it was cut.
pub fn erase_cut(
    image: &[u8],
    cells: &mut [u32],
    marks: &[u32],
    context: &mut Context,
    i: u32,
    k: u32,
    mask: u64,
) -> Result<Answer, Refused>
    ensures { outcome result (state cells.new context.new)
        ≡ cut_erasure_of image.now marks.now i k mask (state cells.old context.old) }
{
    drive::check_drive(image, cells, marks)?;
    check_partition(image, i, context)?;
    let answer = run_judged(image, cells, marks, i, k, mask);
    if is_cut(answer) {
        cache::clear(context);
    }
    answer
}

// A restart: it empties the cache, and is lent nothing but the context.
pub fn restart(context: &mut Context)
    ensures { context.new ≡ emptied context.old }
{
    cache::clear(context);
}
