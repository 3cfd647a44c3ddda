// What a command of the mailbox does, found where nothing refuses it but 15: what is ordered, what
// is rotated and the numbers of the response. FERS alone changes something here, the fuses. The
// definitions are in `specs/Mailbox`. It rests on `codec`, `engine`, `cache`, `handles`, `drive`,
// `erasure` and `refusal`, and on the array of `context`.
ghost use Rattle.std.specs.Prelude.{◌≡◌, true, false};
ghost use Rattle.context.specs.State.{state, outcome};
ghost use Rattle.handles.specs.Handles.{table_of, has_table, used_up};
ghost use Rattle.drive.specs.Drive.{active_slot};
ghost use Rattle.mailbox.specs.Mailbox.{effect, clear_of, load_of, unload_of, fers_of, status_of, hek_number, list_of, rotation_of};
ghost use Rattle.mailbox.specs.Mailbox.{accepted, Allowed};

use cache::Sought;
use codec::{Command, Numbers};
use context::Context;
use drive::{ActiveSlot, Drive};
use engine::Order;
use erasure::{Answer, Refused};
use refusal::Refusal;

// What a command does that is not refused: what the engine is ordered, with the tag, the place of the
// table whose handle is replaced by the first number (3: none), and the numbers of the response after
// reserved.
// The tag is kept beside the order and not in it: the order goes to C with the reply, and has no tag there.
#[derive(Clone, Copy)]
pub struct Effect {
    pub command: Command,
    pub order: Order,
    pub tag: u64,
    // Kept as a number: an Option takes 16 bytes more of the stack of every command (docs/STACK.md).
    pub rotates: u32,
    pub numbers: Numbers,
}

// The effect of a command.
fn effect_with(command: Command, order: Order, tag: u64, numbers: Numbers) -> Effect
    ensures { result ≡ effect command order tag numbers }
{
    Effect {
        command,
        order,
        tag,
        rotates: handles::MOST,
        numbers,
    }
}

// What KLOD does: its key goes to the lowest empty place. Where there is none, 13 has refused it.
fn load_effect(context: &Context, request: &[u8]) -> Effect
    ensures { result ≡ load_of context.now request.now }
{
    let place = cache::lowest_place(context, Sought::Empty).unwrap_or(cache::PLACES);
    let order = Order::Load {
        place,
        timeout: codec::timeout_of(request),
    };
    effect_with(
        Command::Klod,
        order,
        codec::tag_of(request),
        codec::one_number(place),
    )
}

// What KUNL does: the lowest place that has its tag is to be freed. Where none has it, 14 has refused it.
fn unload_effect(context: &Context, request: &[u8]) -> Effect
    ensures { result ≡ unload_of context.now request.now }
{
    let tag = codec::tag_of(request);
    let place = cache::lowest_place(context, Sought::Tag(tag)).unwrap_or(cache::PLACES);
    let order = Order::Unload {
        place: place,
        timeout: codec::timeout_of(request),
    };
    effect_with(Command::Kunl, order, tag, codec::no_numbers())
}

// What FERS does, by what its erasure answered. No order reaches its cut: the last case does not happen.
fn fers_effect(answer: Result<Answer, Refused>) -> Result<Effect, Refusal>
    ensures { result ≡ fers_of answer }
{
    match answer {
        Ok(
            Answer::Ended {
                short,
                first,
                new,
                ..
            },
        ) => Ok(effect_with(
            Command::Fers,
            Order::Nothing,
            0,
            codec::three_numbers(short, first, new),
        )),
        Err(refused) => Err(refused.refusal),
        Ok(Answer::Cut { .. }) => Err(Refusal::NotMarked),
    }
}

// 1 where the HEK is available, else 0.
fn hek_number(slot: ActiveSlot) -> u32
    ensures { result ≡ hek_number slot }
{
    u32::from(drive::is_available(slot))
}

// What FSTA tells of the active slot.
fn status_effect(drive: Drive) -> Effect
    ensures { result ≡ status_of (active_slot drive.entry.image.now drive.entry.cells.now) }
{
    let slot = drive.active_slot();
    effect_with(
        Command::Fsta,
        Order::Nothing,
        0,
        codec::two_numbers(drive::slot_number(slot), hek_number(slot)),
    )
}

// What CLKC does.
fn clear_effect(request: &[u8]) -> Effect
    ensures { result ≡ clear_of request.now }
{
    let order = Order::Clear {
        timeout: codec::timeout_of(request),
    };
    effect_with(Command::Clkc, order, 0, codec::no_numbers())
}

// What EHDL tells of the table.
fn list_effect(context: &Context) -> Effect
    requires { has_table (table_of context.now) ≡ true }
    ensures { result ≡ list_of (table_of context.now) }
{
    let numbers = [
        handles::count_of(context),
        handles::entry_at(context, 0).handle,
        handles::entry_at(context, 0).algorithm,
        handles::entry_at(context, 1).handle,
        handles::entry_at(context, 1).algorithm,
        handles::entry_at(context, 2).handle,
        handles::entry_at(context, 2).algorithm,
    ];
    effect_with(Command::Ehdl, Order::Nothing, 0, numbers)
}

// What RHPK does: the handle at the lowest place that has it gets the next number.
fn rotate_effect(context: &Context, request: &[u8]) -> Effect
    requires { used_up (table_of context.now) ≡ false }
    ensures { result ≡ rotation_of (table_of context.now) request.now }
{
    Effect {
        command: Command::Rhpk,
        order: Order::Nothing,
        tag: 0,
        rotates: handles::lowest_with(context, codec::handle_of(request)).unwrap_or(handles::MOST),
        numbers: codec::one_number(handles::next_number(context)),
    }
}

// What a command does that nothing refuses but 15. FERS alone burns, here: 15 shows only after one.
pub fn carry_out(
    command: Command,
    image: &[u8],
    cells: &mut [u32],
    marks: &[u32],
    context: &Context,
    request: &[u8],
) -> Result<Effect, Refusal>
    requires { Allowed command image.now marks.now request.now (state cells.old context.now) }
    ensures { outcome result cells.new
        ≡ accepted command image.now marks.now request.now (state cells.old context.now) }
{
    match command {
        Command::Clkc => Ok(clear_effect(request)),
        Command::Klod => Ok(load_effect(context, request)),
        Command::Kunl => Ok(unload_effect(context, request)),
        Command::Fers => {
            let partition = codec::partition_of(request);
            fers_effect(erasure::erase_judged(image, cells, marks, partition))
        }
        Command::Fsta => Ok(status_effect(Drive { image, cells })),
        Command::Ehdl => Ok(list_effect(context)),
        Command::Rhpk => Ok(rotate_effect(context, request)),
        Command::Unknown => Err(Refusal::UnknownCode),
    }
}
