// The map of the fuses: an image of bytes, judged by every rule of the document and read. Each public
// function answers for any bytes of any length; only a good map's fields mean anything. The rules are
// in `specs/Map`, what a good map gives its callers in `proofs/Laws`, what maps that differ in flag 8
// alone have in common in `proofs/Guides`. It rests on `endian` and `laws`.
#![tactic(auto)]

ghost use Rattle.std.specs.Prelude.{◌≡◌, ◌+◌, ◌*◌, ◌/◌, ◌%◌, ◌^◌, ◌<◌, ◌≤◌, length, eqb};
ghost use Rattle.laws.specs.Below.{all_below};
ghost use Rattle.map.specs.Map.{header_of, entry_at, entry_of, end_of, software, zeroizable, secret, slot, older_guide};
ghost use Rattle.map.specs.Map.{header_good, filler_good, entry_good, place_good, map_good};

// The four numbers at the start of an image.
#[derive(Clone, Copy)]
pub struct Header {
    pub partitions: u16,
    pub cells: u16,
    pub bound: u16,
    pub offset: u16,
}

// One partition: its first cell, its number of cells, its kind and its flags.
#[derive(Clone, Copy)]
pub struct Entry {
    pub first: u16,
    pub n: u16,
    pub kind: u8,
    pub flags: u8,
}

// Kept as numbers: an image has any byte for a kind, and its fields are told even if the map is not good.
// The kind that a secret partition has.
const HARDWARE: u8 = 0;

const SOFTWARE: u8 = 1;

// The kind that is never zeroizable and that no WRITE changes.
pub const LIFE_CYCLE: u8 = 2;

// The flags of a partition, by their numbers.
const ZEROIZABLE: u8 = 1;

const SECRET: u8 = 2;

const SLOT: u8 = 4;

const OLDER_GUIDE: u8 = 8;

// The header of an image.
pub fn read_header(image: &[u8]) -> Header
    ensures { result ≡ header_of image.now }
{
    Header {
        partitions: endian::u16_at(image, 0),
        cells: endian::u16_at(image, 2),
        bound: endian::u16_at(image, 4),
        offset: endian::u16_at(image, 6),
    }
}

// Where entry `i` of an image starts.
fn entry_place(image: &[u8], i: u32) -> usize
    ensures { (result ≡ (header_of image.now).offset + 8 * i) × (result < 2 ^ 36) }
{
    let offset = endian::u16_at(image, 6);
    (offset as usize) + 8 * (i as usize)
}

// The entry that starts at byte `at` of an image.
fn entry_at(image: &[u8], at: usize) -> Entry
    requires { at < 2 ^ 36 }
    ensures { result ≡ entry_at image.now at }
{
    Entry {
        first: endian::u16_at(image, at),
        n: endian::u16_at(image, at + 2),
        kind: endian::byte_at(image, at + 4),
        flags: endian::byte_at(image, at + 5),
    }
}

// Entry `i` of an image.
pub fn read_entry(image: &[u8], i: u32) -> Entry
    ensures { result ≡ entry_of image.now i }
{
    entry_at(image, entry_place(image, i))
}

// The cell past a partition's last.
pub fn end_of(x: Entry) -> usize
    ensures { result ≡ end_of x }
{
    (x.first as usize) + (x.n as usize)
}

// Whether a partition is software's: its data words are single cells.
pub fn is_software(x: Entry) -> bool
    ensures { result ≡ software x }
{
    x.kind == SOFTWARE
}

// Whether a partition has the flag whose number is `flag`.
fn has_flag(x: Entry, flag: u8) -> bool
    requires { 0 < flag }
    ensures { result ≡ eqb (x.flags / flag % 2) 1 }
{
    x.flags / flag % 2 == 1
}

// Whether a partition can be zeroized.
pub fn is_zeroizable(x: Entry) -> bool
    ensures { result ≡ zeroizable x }
{
    has_flag(x, ZEROIZABLE)
}

// Whether a partition is secret.
pub fn is_secret(x: Entry) -> bool
    ensures { result ≡ secret x }
{
    has_flag(x, SECRET)
}

// Whether a partition is a HEK slot.
pub fn is_slot(x: Entry) -> bool
    ensures { result ≡ slot x }
{
    has_flag(x, SLOT)
}

// Whether a partition is on the older guide, by which ZEROIZE answers all ones.
pub fn is_on_older_guide(x: Entry) -> bool
    ensures { result ≡ older_guide x }
{
    has_flag(x, OLDER_GUIDE)
}

// Whether the header of an image of `len` bytes keeps its rules.
fn header_good(h: Header, len: usize) -> bool
    ensures { result ≡ header_good h len }
{
    (1 <= h.partitions)
        & (h.partitions <= 16)
        & (4 <= h.cells)
        & (h.cells <= 2048)
        & (33 <= h.bound)
        & (h.bound <= 64)
        & (8 <= h.offset)
        & (h.offset <= 128)
        & (len == (h.offset as usize) + 8 * (h.partitions as usize))
}

// Whether bytes 8 up to `offset` are zero. It looks at all of them: a loop that does not stop early is
// one that the compiler makes fast.
fn filler_good(image: &[u8], offset: usize) -> bool
    requires { (8 ≤ offset) × (offset ≤ length image.now) }
    ensures { result ≡ all_below (filler_good image.now) offset }
{
    let mut good = true;
    for k in 8..offset {
        good &= image[k] == 0;
    }
    good
}

// Whether an entry keeps its rules, where the one before it ends at `before`, the array has `cells`
// cells and the entry's last two bytes read `spare`.
fn entry_good(before: usize, cells: u16, x: Entry, spare: u16) -> bool
    ensures { result ≡ entry_good before cells x spare }
{
    let zeroizable = is_zeroizable(x);
    let secret = is_secret(x);
    let slot = is_slot(x);
    let older = is_on_older_guide(x);
    let end = end_of(x);
    (x.kind <= 2)
        & (x.flags <= 15)
        & (spare == 0)
        & (x.first % 2 == 0)
        & (x.n % 2 == 0)
        & (4 <= x.n)
        & (!zeroizable | (6 <= x.n))
        & (before <= (x.first as usize))
        & (end <= (cells as usize))
        & !((x.kind == LIFE_CYCLE) & zeroizable)
        & (!secret | (x.kind == HARDWARE))
        & (!slot | zeroizable & secret)
        & (!older | zeroizable)
}

// Whether the entries of an image with this header, as long as it says, keep their rules. Each is read
// from its own eight bytes, so that the compiler leaves out the tests for bytes past the image's end.
fn entries_good(image: &[u8], h: Header) -> bool
    requires { (h ≡ header_of image.now) × (length image.now ≡ h.offset + 8 * h.partitions) }
    ensures { result ≡ all_below (place_good image.now) h.partitions }
{
    let mut end: usize = 0;
    for i in 0..h.partitions as usize {
        let at = (h.offset as usize) + 8 * i;
        let entry = &image[at..at + 8];
        let x = entry_at(entry, 0);
        let spare = endian::u16_at(entry, 6);
        if !entry_good(end, h.cells, x, spare) {
            return false;
        }
        end = end_of(x);
    }
    true
}

// Whether an image is a map that breaks no rule.
pub fn is_good(image: &[u8]) -> bool
    ensures { result ≡ map_good image.now }
{
    let h = read_header(image);
    header_good(h, image.len()) && filler_good(image, h.offset as usize) && entries_good(image, h)
}
