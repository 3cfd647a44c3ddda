// The refusals of a mailbox command by itself, on a drive and with a request that were judged: 7 to 14 by
// the command, then 17 and 18 by the engine's reply that is awaited and by the places, then 20 and 21 by
// the table. 15 is no test: FERS's erasure gives it. It rests on `drive`, `cache`, `handles`, `codec`,
// `erasure` and `refusal`, and on the array of `context`.
ghost use Rattle.std.specs.Prelude.{◌≡◌};
ghost use Rattle.refusal.specs.Refusals.{judged};
ghost use Rattle.context.specs.State.{state};
ghost use Rattle.handles.specs.Handles.{table_of};
ghost use Rattle.mailbox.specs.Mailbox.{load_tests, unload_tests, rotation_tests};
ghost use Rattle.mailbox.specs.Mailbox.{command_tests, engine_tests, handle_tests, own_tests};

use cache::Sought;
use codec::Command;
use context::Context;
use drive::Drive;
use refusal::Refusal;

// Refusals 11, 12 and 13, of KLOD.
fn check_load(drive: Drive, context: &Context, request: &[u8]) -> Result<(), Refusal>
    ensures { result ≡ judged (load_tests drive.entry.image.now request.now (state drive.entry.cells.now context.now)) }
{
    if !drive.is_hek_available() {
        return Err(Refusal::HekNotAvailable);
    }
    if cache::has_place(context, Sought::Tag(codec::tag_of(request))) {
        return Err(Refusal::TagHeld);
    }
    if !cache::has_place(context, Sought::Empty) {
        return Err(Refusal::NoEmptyPlace);
    }
    Ok(())
}

// Refusal 14, of KUNL.
fn check_unload(context: &Context, request: &[u8]) -> Result<(), Refusal>
    ensures { result ≡ judged (unload_tests context.now request.now) }
{
    if !cache::has_place(context, Sought::Tag(codec::tag_of(request))) {
        return Err(Refusal::TagNotHeld);
    }
    Ok(())
}

// Refusals 7 to 14, by the command.
fn check_command(
    command: Command,
    drive: Drive,
    context: &Context,
    request: &[u8],
) -> Result<(), Refusal>
    ensures { result ≡ judged (command_tests command drive.entry.image.now request.now (state drive.entry.cells.now context.now)) }
{
    match command {
        Command::Klod => check_load(drive, context, request),
        Command::Kunl => check_unload(context, request),
        Command::Fers => {
            erasure::check_partition(drive.image, codec::partition_of(request), context)
        }
        _ => Ok(()),
    }
}

// Refusals 17 and 18.
// Not inlined: in the one frame of the mailbox its words would lie under every command (docs/STACK.md).
#[inline(never)]
fn check_engine(command: Command, context: &Context) -> Result<(), Refusal>
    ensures { result ≡ judged (engine_tests command context.now) }
{
    if !matches!(command, Command::Fsta | Command::Unknown) && cache::is_busy(context) {
        return Err(Refusal::EngineBusy);
    }
    if matches!(command, Command::Klod | Command::Kunl)
        && cache::has_place(context, Sought::Unsure)
    {
        return Err(Refusal::PlaceUnsure);
    }
    Ok(())
}

// Refusals 20 and 21, of RHPK.
// Not inlined, as `check_engine`.
#[inline(never)]
fn check_rotation(context: &Context, request: &[u8]) -> Result<(), Refusal>
    ensures { result ≡ judged (rotation_tests (table_of context.now) request.now) }
{
    if !handles::has_handle(context, codec::handle_of(request)) {
        return Err(Refusal::NoSuchHandle);
    }
    if handles::is_used_up(context) {
        return Err(Refusal::NumbersUsedUp);
    }
    Ok(())
}

// The same, by the command.
fn check_table(command: Command, context: &Context, request: &[u8]) -> Result<(), Refusal>
    ensures { result ≡ judged (handle_tests command context.now request.now) }
{
    match command {
        Command::Rhpk => check_rotation(context, request),
        _ => Ok(()),
    }
}

// All of a command's own refusals, the first that applies.
pub fn check_own(
    command: Command,
    drive: Drive,
    context: &Context,
    request: &[u8],
) -> Result<(), Refusal>
    ensures { result ≡ judged (own_tests command drive.entry.image.now request.now (state drive.entry.cells.now context.now)) }
{
    check_command(command, drive, context, request)?;
    check_engine(command, context)?;
    check_table(command, context, request)
}
