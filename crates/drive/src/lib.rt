// A whole drive: map image, fuse cells and stuck marks together. The refusals that every call
// shares, a partition's state, the active slot with its HEK, and whether a slot may not change, since
// a place of the cache is not empty. The entry point is `check_drive`, which answers for any bytes and
// any lengths; a `Drive` is made of what it, or a program's own reading, has accepted, and its methods
// ask for nothing more of the drive. The definitions are in `specs/Drive`, the laws for callers in
// `specs/Laws` and, of the active slot, in `specs/Active`. It rests on `map`, `partition`, `cache` and
// `refusal`, and below them on `context`, `endian` and `laws`.
#![tactic(auto)]

ghost use Rattle.std.specs.Prelude.{◌≡◌, ◌<◌};
ghost use Rattle.map.specs.Map.{header_of};
ghost use Rattle.drive.specs.Drive.{Whole, check_of, cells_of, terms_of, survey_at, marked_at, slot_at, present, slot_number, available, active_slot, slot_in_use};

use cache::Sought;
use context::Context;
use map::Header;
use partition::{State, Survey};
use refusal::Refusal;

// The active slot's partition by the slot's state, or that there is none. The HEK is available from
// a programmed slot alone.
// Kept with its own case for none: an Option of an enum of three is no plainer than four cases.
#[derive(Clone, Copy)]
pub enum ActiveSlot {
    Programmed(u32),
    Blank(u32),
    Torn(u32),
    Absent,
}

// The header of a good map whose arrays have its length: refusals 1 and 2 in this order.
// Cells and marks stay two arrays: C lends them so (include/sciambrunola.h).
pub fn check_drive(image: &[u8], cells: &[u32], marks: &[u32]) -> Result<Header, Refusal>
    ensures { result ≡ check_of image.now cells.now marks.now }
{
    if !map::is_good(image) {
        return Err(Refusal::BadMap);
    }
    let header = map::read_header(image);
    let c = header.cells as usize;
    if (cells.len() == c) & (marks.len() == c) {
        return Ok(header);
    }
    Err(Refusal::BadLent)
}

// A drive that was judged: a good map, and as many cells as it says. Who makes one proves it.
#[derive(Clone, Copy)]
pub struct Drive<'a> {
    pub image: &'a [u8],
    pub cells: &'a [u32],
    pub ghost whole: { Whole image.now cells.now },
}

// What the pairs of a partition are judged by.
#[derive(Clone, Copy)]
struct Terms {
    bound: u64,
    zeroizable: bool,
}

// The bound, and whether partition `i` can be zeroized.
fn terms_of(image: &[u8], i: u32) -> Terms
    ensures { result ≡ terms_of image.now i }
{
    let header = map::read_header(image);
    let zeroizable = map::is_zeroizable(map::read_entry(image, i));
    Terms {
        bound: header.bound as u64,
        zeroizable,
    }
}

// Whether there is an active slot.
fn is_present(slot: ActiveSlot) -> bool
    ensures { result ≡ present slot }
{
    !matches!(slot, ActiveSlot::Absent)
}

// The active slot's partition, 0xFFFFFFFF where there is none.
// Kept as a number for none: document 01 tells it so, in FSTA's response.
pub fn slot_number(slot: ActiveSlot) -> u32
    ensures { result ≡ slot_number slot }
{
    match slot {
        ActiveSlot::Programmed(i) | ActiveSlot::Blank(i) | ActiveSlot::Torn(i) => i,
        ActiveSlot::Absent => 0xFFFF_FFFF,
    }
}

// Whether the HEK is available.
pub fn is_available(slot: ActiveSlot) -> bool
    ensures { result ≡ available slot }
{
    matches!(slot, ActiveSlot::Programmed(_))
}

impl<'a> Drive<'a> {
    // The cells of partition `i`: the part of the array that starts where the partition starts.
    pub fn part(self, i: u32) -> &'a [u32]
        requires { i < (header_of self.image.now).partitions }
        ensures { result.now ≡ cells_of self.entry.image.now self.entry.cells.now i }
    {
        let x = map::read_entry(self.image, i);
        let first = x.first as usize;
        &self.cells[first..first + (x.n as usize)]
    }

    // The state and short pairs of partition `i`.
    pub fn survey(self, i: u32) -> Survey
        requires { i < (header_of self.image.now).partitions }
        ensures { result ≡ survey_at self.entry.image.now self.entry.cells.now i }
    {
        let terms = terms_of(self.image, i);
        partition::survey_cells(self.part(i), terms.bound, terms.zeroizable)
    }

    // Whether partition `i` is marked.
    pub fn is_marked(self, i: u32) -> bool
        requires { i < (header_of self.image.now).partitions }
        ensures { result ≡ marked_at self.entry.image.now self.entry.cells.now i }
    {
        let zeroizable = map::is_zeroizable(map::read_entry(self.image, i));
        partition::is_marked(self.part(i), zeroizable)
    }

    // Partition `i` as the active slot: absent where it is no slot or is erased. It surveys its part itself:
    // a call of `survey` would put one more frame below the mailbox.
    fn slot(self, i: u32) -> ActiveSlot
        requires { i < (header_of self.image.now).partitions }
        ensures { result ≡ slot_at self.entry.image.now self.entry.cells.now i }
    {
        if !map::is_slot(map::read_entry(self.image, i)) {
            return ActiveSlot::Absent;
        }
        let terms = terms_of(self.image, i);
        let survey = partition::survey_cells(self.part(i), terms.bound, terms.zeroizable);
        match survey.state {
            State::Erased => ActiveSlot::Absent,
            State::Torn => ActiveSlot::Torn(i),
            State::Blank => ActiveSlot::Blank(i),
            State::Programmed => ActiveSlot::Programmed(i),
        }
    }

    // The active slot.
    pub fn active_slot(self) -> ActiveSlot
        ensures { result ≡ active_slot self.entry.image.now self.entry.cells.now }
    {
        active_in(self.image, self.cells)
    }

    // Whether the HEK is available. (KLOD and FSTA each ask for the active slot in a function of their own,
    // so that the slices which they hand on have the same places in one frame.)
    pub fn is_hek_available(self) -> bool
        ensures { result ≡ available (active_slot self.entry.image.now self.entry.cells.now) }
    {
        is_available(self.active_slot())
    }
}

// The active slot of a drive that was judged: walks the partitions until the first slot that is not
// erased.
// Kept with two slices, and not inlined: a Drive goes to a call in memory, which `sci_why` pays with 32
// bytes of stack (docs/STACK.md).
#[inline(never)]
fn active_in(image: &[u8], cells: &[u32]) -> ActiveSlot
    requires { Whole image.now cells.now }
    ensures { result ≡ active_slot image.now cells.now }
{
    let drive = Drive { image, cells };
    let mut partitions = 0..map::read_header(image).partitions as u32;
    loop {
        let Some(i) = partitions.next() else {
            break ActiveSlot::Absent;
        };
        let slot = drive.slot(i);
        if is_present(slot) {
            break slot;
        }
    }
}

// Whether a partition is a slot while a place is not empty, refusal 10 of what would change it. The
// cache is looked at for a slot alone, so that nothing need be kept over that look to ask it after.
pub fn is_slot_in_use(image: &[u8], i: u32, context: &Context) -> bool
    ensures { result ≡ slot_in_use image.now i context.now }
{
    map::is_slot(map::read_entry(image, i)) && cache::has_place(context, Sought::Occupied)
}
