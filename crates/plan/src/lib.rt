// A map as its planner types it, a text, becomes an image with E = 8 in a lent buffer. The text is read
// once, byte after byte: its numbers are kept as far as a map can have them, and counted past that. The
// text's form is in `specs/Form`, the reading in `specs/Reading`, the image and the refusals in
// `specs/Writing`; that an image is written exactly when some good map has the text's fields is claimed
// in `specs/Exactly` and proved in `proofs/Exactly`. It rests on `map`, `endian` and `refusal`, below
// them on `laws`, and for its definitions on `text` and the outcome of `context`.
#![tactic(auto)]

ghost use Rattle.std.specs.Prelude.{◌+◌, ◌*◌, ◌/◌, ◌%◌, ◌≤◌, ◌≡◌, true, ◌++◌, length};
ghost use Rattle.laws.specs.Put.{Put};
ghost use Rattle.context.specs.State.{outcome};
ghost use Rattle.endian.specs.Endian.{bytes2};
ghost use Rattle.map.specs.Image.{entry};
ghost use Rattle.plan.specs.Reading.{is_digit, after, plan_by, read_of};
ghost use Rattle.plan.specs.Steps.{longer, Numbered, Keeps, reading_of};
ghost use Rattle.plan.specs.Images.{Imaged};
ghost use Rattle.plan.specs.Writing.{writing_of};

use refusal::Refusal;

// The numbers of a text with the most partitions that a map has.
const KEPT: usize = 66;

// The byte behind number `count` of a text, the first line's two numbers counted: a line feed behind
// the last of each line, else a space.
fn byte_after(count: usize) -> u8
    ensures { result ≡ after count }
{
    if count % 4 == 1 { b'\n' } else { b' ' }
}

// The value of a number with the digit `c` behind it. There is none behind a leading zero, nor past the
// largest number of a text.
fn longer_by(value: u16, c: u8) -> Option<u16>
    requires { is_digit c ≡ true }
    ensures { result ≡ longer value c }
{
    match value {
        0 => None,
        _ => u16::try_from(10 * u32::from(value) + u32::from(c - b'0')).ok(),
    }
}

// The number whose first digit is `first`, and the text behind it.
fn read_number(first: u8, text: &[u8]) -> Option<(u16, &[u8])>
    ensures { Numbered first text.now result }
{
    if !first.is_ascii_digit() {
        return None;
    }
    let mut value = u16::from(first - b'0');
    // Kept as a loop: each turn takes the first byte off, and no index walks the text. So does the next function's.
    let mut rest = text;
    while let Some((&c, behind)) = rest.split_first() {
        if !c.is_ascii_digit() {
            break;
        }
        value = longer_by(value, c)?;
        rest = behind;
    }
    Some((value, rest))
}

// Reads the numbers of a text and keeps those that a map can have. Answers how many they are, where the
// text has the form.
fn read_numbers(text: &[u8], numbers: &mut [u16; KEPT]) -> Option<usize>
    ensures { (result ≡ reading_of text.now) × Keeps (read_of text.now) numbers.new }
{
    let mut count = 0;
    let mut rest = text;
    while let Some((&first, more)) = rest.split_first() {
        let (number, behind) = read_number(first, more)?;
        let (&c, after) = behind.split_first()?;
        if c != byte_after(count) {
            return None;
        }
        // Kept as an index: after `get_mut` of a slice or an array a proof knows none of its elements.
        if count < KEPT {
            numbers[count] = number;
        }
        count += 1;
        rest = after;
    }
    (count % 4 == 2).then_some(count)
}

// Writes two u16, and answers the place past them.
// Kept as numbers: `to_le_bytes` is an array, and `write_map` has two arrays and no other.
fn put_two(image: &mut [u8], at: usize, low: u16, high: u16) -> usize
    requires { at + 4 ≤ length image.old }
    ensures { Put at (bytes2 low ++ bytes2 high) image.old image.new result }
{
    endian::put_u32(image, at, u32::from(low) + 65536 * u32::from(high))
}

// Writes the header of an image with so many partitions, with E = 8, and answers the place past it.
fn put_header(image: &mut [u8], partitions: u16, cells: u16, bound: u16) -> usize
    requires { 8 ≤ length image.old }
    ensures { Put 0 (bytes2 partitions ++ bytes2 cells ++ bytes2 bound ++ bytes2 8) image.old image.new result }
{
    let at = put_two(image, 0, partitions, cells);
    put_two(image, at, bound, 8)
}

// Writes an entry, and answers the place past it.
fn put_entry(image: &mut [u8], at: usize, first: u16, n: u16, kind: u8, flags: u8) -> usize
    requires { at + 8 ≤ length image.old }
    ensures { Put at (entry first n kind flags) image.old image.new result }
{
    let at = put_two(image, at, first, n);
    put_two(image, at, u16::from(kind) + 256 * u16::from(flags), 0)
}

// Writes the image of a plan, unless a kind or flags is more than its byte holds.
fn put_image(image: &mut [u8], numbers: &[u16]) -> Result<(), Refusal>
    requires { (8 + 8 * (length numbers.now / 4) ≤ length image.old) × (length numbers.now % 4 ≡ 2) × (length numbers.now ≤ 66) }
    ensures { Imaged (plan_by numbers.now) image.old image.new result }
{
    let lines = numbers.len() / 4;
    let mut at = put_header(image, lines as u16, numbers[0], numbers[1]);
    for line in numbers[2..].chunks_exact(4) {
        let kind = u8::try_from(line[2]).or(Err(Refusal::BadMap))?;
        let flags = u8::try_from(line[3]).or(Err(Refusal::BadMap))?;
        at = put_entry(image, at, line[0], line[1], kind, flags);
    }
    Ok(())
}

// Writes the image of a text into the front of the lent buffer. The rest of the buffer keeps its
// bytes, and so does all of it where the text is refused: the image is judged in an array of ours, and
// then written a second time, since of a copy whose length is not known before the call the compiler
// makes a call of C's `memcpy`.
pub fn write_map(text: &[u8], out: &mut [u8]) -> Result<u32, Refusal>
    ensures { outcome result out.new ≡ writing_of text.now out.old }
{
    let mut kept = [0; KEPT];
    let count = read_numbers(text, &mut kept).ok_or(Refusal::BadText)?;
    let lines = count / 4;
    if out.len() / 8 <= lines {
        return Err(Refusal::BadText);
    }
    let numbers = kept.get(..count).ok_or(Refusal::BadMap)?;
    let mut image = [0; 136];
    put_image(&mut image, numbers)?;
    let size = 8 + 8 * lines;
    if !map::is_good(&image[..size]) {
        return Err(Refusal::BadMap);
    }
    put_image(out, numbers)?;
    Ok(size as u32)
}
