// What the desk's programs answer: the bytes that they read go in, the bytes that they print come out
// in a lent buffer, and so do the lines that they say on standard error. Reading, judging and every
// printed byte are decided here; the programs only move bytes. The definitions are in `specs/Status`,
// of all programs together in `specs/Report`; the laws in `proofs/Laws`, `proofs/Maps` and
// `proofs/Longer`. It rests on `drive`, `endian`, `reader`, `map`, `plan`, `partition`, `refusal`,
// `text` and `wording`, and below them on `cache`, `context`, `fuse`, `laws` and `reason`.
#![tactic(auto)]

ghost use Rattle.std.specs.Prelude.{◌≡◌, ◌+◌, ◌*◌, ◌≤◌, true, length};
ghost use Rattle.std.specs.Result.{result_map_both};
ghost use Rattle.laws.specs.Below.{join_below};
ghost use Rattle.refusal.specs.Numbers.{number};
ghost use Rattle.map.specs.Map.{header_of, map_good};
ghost use Rattle.report.specs.Status.{number_at, reading_of, state_name, line_of, hek_line, table_of, refused_line, SmallLine, SmallSlot};
ghost use Rattle.report.specs.Report.{program_name, output_of, drive_report, map_report, report_of, failure_line, Printed, Told};
ghost use Rattle.laws.specs.Put.{Put};

use drive::{ActiveSlot, Drive};
use partition::{State, Survey};
use refusal::Refusal;

// The programs: the state of each partition of a drive, why it offers no HEK, and a map from its text.
#[derive(Clone, Copy)]
pub enum Program {
    Status,
    Why,
    MakeMap,
}

// What is printed of a drive: the table of its partitions, or the line that says why.
// Kept as an enum, not a closure: `output_of` and the contracts name which of the two it is.
#[derive(Clone, Copy)]
pub enum View {
    Table,
    Line,
}

// Where a program prints: on standard output, or on standard error.
#[derive(Clone, Copy, PartialEq, Eq)]
pub enum Stream {
    Output,
    Errors,
}

// How many bytes a program prints, and where.
#[derive(Clone, Copy)]
pub struct Report {
    pub stream: Stream,
    pub count: usize,
}

// What a program could not do: read its input, or write its output.
#[derive(Clone, Copy)]
pub enum Failure {
    Input,
    Output,
}

// A state's name.
fn state_name(state: State) -> &'static [u8]
    ensures { (result.now ≡ state_name state) × (length result.now ≤ 10) }
{
    match state {
        State::Erased => b"erased",
        State::Torn => b"torn",
        State::Blank => b"blank",
        State::Programmed => b"programmed",
    }
}

// Writes a partition's line: number, cells, state, short pairs.
fn put_line(out: &mut [u8], at: usize, i: u32, n: u16, survey: Survey) -> usize
    requires { (at + 26 ≤ length out.old) × SmallLine i n survey }
    ensures { Put at (line_of i n survey) out.old out.new result × (result ≤ at + 26) }
{
    let at = text::put_decimal(out, at, i as usize);
    let at = text::put(out, at, b" ");
    let at = text::put_decimal(out, at, n as usize);
    let at = text::put(out, at, b" ");
    let at = text::put(out, at, state_name(survey.state));
    let at = text::put(out, at, b" ");
    let at = text::put_decimal(out, at, survey.short);
    text::put(out, at, b"\n")
}

// Writes the last line: the active slot's partition if the HEK is available, else `none`.
fn put_hek(out: &mut [u8], at: usize, slot: ActiveSlot) -> usize
    requires { (at + 9 ≤ length out.old) × SmallSlot slot }
    ensures { Put at (hek_line slot) out.old out.new result × (result ≤ at + 9) }
{
    let ActiveSlot::Programmed(partition) = slot else {
        return text::put(out, at, b"hek none\n");
    };
    let at = text::put_numbered(out, at, b"hek ", partition as usize);
    text::put(out, at, b"\n")
}

// Writes the line of a refusal.
fn put_refused(out: &mut [u8], refusal: Refusal) -> usize
    requires { 13 ≤ length out.old }
    ensures { Put 0 (refused_line (number refusal)) out.old out.new result }
{
    let at = wording::put_refused(out, u32::from(refusal));
    text::put(out, at, b"\n")
}

// Judges the input: the refusals in the document's order, or a whole drive: its map, and the bytes of
// its cells and marks.
fn read_input(input: &[u8]) -> Result<(&[u8], &[u8]), Refusal>
    ensures { result_map_both (λ parts. (parts.0.now, parts.1.now)) (λ refusal. refusal) result
        ≡ reading_of input.now }
{
    if input.len() < 2 {
        return Err(Refusal::BadLent);
    }
    let len = endian::u16_at(input, 0) as usize;
    if 256 < len {
        return Err(Refusal::BadMap);
    }
    let (image, arrays) = input[2..].split_at_checked(len).ok_or(Refusal::BadLent)?;
    if !map::is_good(image) {
        return Err(Refusal::BadMap);
    }
    if arrays.len() == 8 * (map::read_header(image).cells as usize) {
        return Ok((image, arrays));
    }
    Err(Refusal::BadLent)
}

// Reads the numbers in the front of the bytes, as many as there is room for.
fn read_cells(arrays: &[u8], cells: &mut [u32])
    requires { length cells.old ≤ 2048 }
    ensures { cells.new ≡ join_below (number_at arrays.now 0) (length cells.new) }
{
    for (k, cell) in cells.iter_mut().enumerate() {
        *cell = endian::u32_at(arrays, 4 * k);
    }
}

// Writes the table of a drive: a header, a line for each partition, and the HEK.
fn put_table(out: &mut [u8], drive: Drive) -> usize
    requires { 448 ≤ length out.old }
    ensures { Put 0 (table_of drive.entry.image.now drive.entry.cells.now) out.old out.new result }
{
    let header = map::read_header(drive.image);
    let mut at = text::put(out, 0, b"part cells state short\n");
    for i in 0..u32::from(header.partitions) {
        let fields = reader::fields_of(drive.image, i);
        let survey = drive.survey(i);
        at = put_line(out, at, i, fields.entry.n, survey);
    }
    put_hek(out, at, drive.active_slot())
}

// Writes what is printed of a drive.
fn put_output(out: &mut [u8], view: View, drive: Drive) -> usize
    requires { 448 ≤ length out.old }
    ensures { Put 0 (output_of view drive.entry.image.now drive.entry.cells.now) out.old out.new result }
{
    match view {
        View::Table => put_table(out, drive),
        View::Line => wording::put_why(out, drive),
    }
}

// Writes what is printed of the drive that has this map, and these bytes for its cells and marks.
fn put_drive(out: &mut [u8], view: View, image: &[u8], arrays: &[u8]) -> usize
    requires { (map_good image.now ≡ true) × (448 ≤ length out.old) }
    ensures { Put 0 (output_of view image.now (join_below (number_at arrays.now 0) (header_of image.now).cells))
        out.old out.new result }
{
    let count = map::read_header(image).cells as usize;
    let mut numbers = [0u32; 2048];
    let cells = &mut numbers[..count];
    read_cells(arrays, cells);
    put_output(out, view, Drive { image, cells })
}

// What is printed for the bytes of a drive, in the front of the lent buffer.
fn report_drive(view: View, input: &[u8], out: &mut [u8]) -> usize
    requires { 448 ≤ length out.old }
    ensures { Put 0 (drive_report view input.now) out.old out.new result }
{
    match read_input(input) {
        Ok((image, arrays)) => put_drive(out, view, image, arrays),
        Err(refusal) => put_refused(out, refusal),
    }
}

// What is printed for a map's text, in the front of the lent buffer: its image, or the refusal.
fn report_map(input: &[u8], out: &mut [u8]) -> Report
    requires { 448 ≤ length out.old }
    ensures { Told (map_report input.now) out.old out.new result }
{
    match plan::write_map(input, &mut out[..136]) {
        Ok(size) => Report {
            stream: Stream::Output,
            count: size as usize,
        },
        Err(refusal) => Report {
            stream: Stream::Errors,
            count: put_refused(out, refusal),
        },
    }
}

// Everything that a program prints for its input, in the front of the lent buffer, how many bytes that
// is, and where they go. The rest of the buffer keeps its bytes.
pub fn report_on(program: Program, input: &[u8], out: &mut [u8; 512]) -> Report
    ensures { Told (report_of program input.now) out.old out.new result }
{
    let view = match program {
        Program::Status => View::Table,
        Program::Why => View::Line,
        Program::MakeMap => return report_map(input, out),
    };
    Report {
        stream: Stream::Output,
        count: report_drive(view, input, out),
    }
}

// A program's name.
fn program_name(program: Program) -> &'static [u8]
    ensures { (result.now ≡ program_name program) × (length result.now ≤ 8) }
{
    match program {
        Program::Status => b"status",
        Program::Why => b"why",
        Program::MakeMap => b"make_map",
    }
}

// What a program says on standard error where it fails, and how many bytes that is. The rest of the
// buffer keeps its bytes.
pub fn report_failure(program: Program, failure: Failure, out: &mut [u8; 64]) -> usize
    ensures { Printed (failure_line program failure) out.old out.new result }
{
    let at = text::put(out, 0, program_name(program));
    match failure {
        Failure::Input => text::put(out, at, b": standard input cannot be read\n"),
        Failure::Output => text::put(out, at, b": standard output cannot be written\n"),
    }
}
