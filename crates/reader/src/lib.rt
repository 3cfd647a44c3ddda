// The map reader: it borrows a map image and answers the image's fields in place, without copying
// it. Its methods take it apart and call the functions of `map`. `fields_of` has plain parameters, and
// `read_partition` is the entry point: it refuses a bad map and a partition that is not there. The
// definitions are in `specs/Reader`. It rests on `map` and `refusal`, and below them on `endian` and
// `laws`.
#![tactic(auto)]

ghost use Rattle.std.specs.Prelude.{◌≡◌};
ghost use Rattle.map.specs.Map.{header_of, entry_of};
ghost use Rattle.reader.specs.Reader.{both_of, fields_of, reading_of};

use map::{Entry, Header};
use refusal::Refusal;

// A borrowed map image.
#[derive(Clone, Copy)]
pub struct MapReader<'a> {
    pub image: &'a [u8],
}

// What a map says of one partition, with its header.
#[derive(Clone, Copy)]
pub struct Fields {
    pub header: Header,
    pub entry: Entry,
}

impl<'a> MapReader<'a> {
    // A reader of an image. The image is borrowed, not copied.
    pub fn new(image: &'a [u8]) -> MapReader<'a>
        ensures { result.image ≡ image.entry }
    {
        MapReader { image: image }
    }

    // The header of the image.
    pub fn header(self) -> Header
        ensures { result ≡ header_of self.entry.image.now }
    {
        map::read_header(self.image)
    }

    // Entry `i` of the image.
    pub fn entry(self, i: u32) -> Entry
        ensures { result ≡ entry_of self.entry.image.now i }
    {
        map::read_entry(self.image, i)
    }
}

// A header and an entry together.
fn both(header: Header, entry: Entry) -> Fields
    ensures { result ≡ both_of header entry }
{
    Fields {
        header: header,
        entry: entry,
    }
}

// Header and entry `i` of an image, by a reader of it.
pub fn fields_of(image: &[u8], i: u32) -> Fields
    ensures { result ≡ fields_of image.now i }
{
    let reader = MapReader::new(image);
    both(reader.header(), reader.entry(i))
}

// The fields of partition `i`: refusals 1 and 7.
pub fn read_partition(image: &[u8], i: u32) -> Result<Fields, Refusal>
    ensures { result ≡ reading_of image.now i }
{
    if !map::is_good(image) {
        return Err(Refusal::BadMap);
    }
    let fields = fields_of(image, i);
    if u32::from(fields.header.partitions) <= i {
        return Err(Refusal::NotThere);
    }
    Ok(fields)
}
