// What the desk's programs do, each by its name: standard input is read, and what `report` makes of it
// goes to the stream that `report` says. Bytes are only moved here, and `report` decides every one of
// them. What is not read of a longer input changes nothing: by then the input is longer than any drive
// and any map's text (`report`'s law `past_any_input`). Input that cannot be read and output that
// cannot be written are told on standard error, since a program gives no exit status: without
// that line they would pass for an empty input and for a silent success. It rests on `report`, and on
// the library's standard streams.
#![tactic(auto)]

ghost use Rattle.std.specs.Prelude.{◌≡◌, IfSome, OnOk};
ghost use Rattle.std.specs.Io.KnownBytes.{Appends};
ghost use Rattle.report.specs.declared.Stream.TheVariants.{Output, Errors};
ghost use Rattle.desk.specs.Intake.{intake_of, Taken};

use report::{Failure, Program, Stream};
use std::io;
use std::io::{Read, Write};

// Reads into the front of the buffer until the input ends or the buffer is full. A read that brings
// less than was asked for is gone on with. One that fails is told, whatever came before it, since
// that is no whole input. (The library's `read_exact` fails at an input that ends before, and its
// `read_to_end` wants a heap.)
#[tactic(auto, using(crate::proofs::Laws::read_on))]
fn take_in<R: Read>(from: &mut R, buf: &mut [u8]) -> io::Result<usize>
    ensures { IfSome (intake_of result) (λ count. Taken (R.remaining from.old) (R.remaining from.new) buf.new count) }
{
    let mut done = 0;
    while done < buf.len() {
        let more = from.read(&mut buf[done..])?;
        if more == 0 {
            break;
        }
        done += more;
    }
    Ok(done)
}

// Writes all of the bytes to the stream that is meant of the two, and leaves the other as it is. What
// writes is a parameter, so that the promise can say which of them has the bytes.
fn write_to<O: Write, E: Write>(
    stream: Stream,
    output: &mut O,
    errors: &mut E,
    bytes: &[u8],
) -> io::Result<()>
    ensures output { stream ≡ Output → (errors.new ≡ errors.old)
        × OnOk result (Appends (O.contents output.old) (O.contents output.new) bytes.now) }
    ensures errors { stream ≡ Errors → (output.new ≡ output.old)
        × OnOk result (Appends (E.contents errors.old) (E.contents errors.new) bytes.now) }
{
    match stream {
        Stream::Output => output.write_all(bytes),
        Stream::Errors => errors.write_all(bytes),
    }
}

// Says on standard error what failed. Where that cannot be written either, nothing is left to say it.
fn tell(rt: &HostRuntime, program: Program, failure: Failure) {
    let mut line = [0u8; 64];
    let count = report::report_failure(program, failure, &mut line);
    let _ = rt.stderr().write_all(&line[..count]);
}

// Prints what `report` makes of the input. Output that cannot be written is told; for a refusal that
// standard error does not take there is no other place to say so.
fn print_report(rt: &HostRuntime, program: Program, input: &[u8]) {
    let mut out = [0u8; 512];
    let report = report::report_on(program, input, &mut out);
    let written = write_to(
        report.stream,
        &mut rt.stdout(),
        &mut rt.stderr(),
        &out[..report.count],
    );
    if written.is_err() && report.stream == Stream::Output {
        tell(rt, program, Failure::Output);
    }
}

// Runs a program: reads all its input, then prints. It is lent the streams alone and answers nothing, so
// there is nothing to promise.
pub fn run(rt: &HostRuntime, program: Program) {
    let mut input = [0u8; 65536];
    match take_in(&mut rt.stdin(), &mut input) {
        Ok(count) => print_report(rt, program, &input[..count]),
        Err(_) => tell(rt, program, Failure::Input),
    }
}
