// The mailbox: a code and a request go in; out come a reply with the engine's order, the engine block,
// a response that is written straight into the lent buffer, and the fuses and the context as the
// command leaves them. A call is judged (a command's own refusals in `judge`) and its effect found (in
// `effects`; FERS burns there); then it is written out unless it is refused: a refusal changes nothing,
// 15 of FERS too, whose burn has set no fuse. `call` answers for any bytes and any lengths. The
// definitions are in `specs/Mailbox`, the laws in `proofs/Judging`, `Laws`, `Told` and `Handles`. It
// rests on `codec`, `engine`, `erasure`, `handles`, `refusal` and what lies below them.
#![tactic(auto)]

mod effects;
mod judge;

ghost use Rattle.std.specs.Prelude.{◌≡◌, length};
ghost use Rattle.context.specs.State.{state, outcome};
ghost use Rattle.mailbox.specs.Mailbox.{lent_bad, done_of, context_by, context_after, block_after, lent, mailbox_of, Fits};

use codec::Command;
use context::Context;
use drive::Drive;
use effects::Effect;
use engine::Order;
use refusal::Refusal;

// What a call that is not refused tells: the response's bytes and the engine's order.
#[derive(Clone, Copy)]
pub struct Reply {
    pub length: u32,
    pub order: Order,
}

// The bytes of the engine block.
const BLOCK_BYTES: usize = 128;

// Whether the response buffer is too short, the block not as long as it must be, or no table there.
fn is_lent_bad(room: usize, block: usize, context: &Context) -> bool
    ensures { result ≡ lent_bad room block context.now }
{
    block != BLOCK_BYTES || room < codec::LEAST_ROOM || !handles::has_table(context)
}

// What a call does: every refusal, in their order, 17, 18, 20 and 21 before 15; and the burns of FERS. `room` and
// `block` are the lengths of the response buffer and of the engine block.
fn effect_of(
    image: &[u8],
    cells: &mut [u32],
    marks: &[u32],
    context: &Context,
    code: u32,
    request: &[u8],
    room: usize,
    block: usize,
) -> Result<Effect, Refusal>
    ensures { outcome result cells.new
        ≡ done_of image.now marks.now code request.now room block (state cells.old context.now) }
{
    drive::check_drive(image, cells, marks)?;
    if is_lent_bad(room, block, context) {
        return Err(Refusal::BadLent);
    }
    let command = Command::from(code);
    codec::check_request(command, code, request)?;
    judge::check_own(command, Drive { image, cells }, context, request)?;
    effects::carry_out(command, image, cells, marks, context, request)
}

// The places that an order names wait for its reply.
fn await_reply(context: &mut Context, order: Order, tag: u64)
    ensures { context.new ≡ context_by order tag context.old }
{
    match order {
        Order::Nothing => (),
        Order::Clear { .. } => cache::wait_for_clear(context),
        Order::Load { place, .. } => cache::wait_at(context, place, tag, cache::LOAD_REPLY),
        Order::Unload { place, .. } => cache::wait_at(context, place, tag, cache::UNLOAD_REPLY),
    }
}

// Changes the context as an effect does.
fn update_context(context: &mut Context, effect: Effect)
    ensures { context.new ≡ context_after (Ok effect) context.old }
{
    await_reply(context, effect.order, effect.tag);
    handles::rotate(context, effect.rotates, effect.numbers[0]);
}

// Writes the engine block of an order. With no key its MEK is all zero.
fn update_block(block: &mut [u8], request: &[u8], order: Order, tag: u64)
    requires { Fits order request.now block.old }
    ensures { block.new ≡ block_after order tag request.now block.old }
{
    match order {
        Order::Nothing => (),
        Order::Clear { .. } => engine::write_block(block, &[], 0),
        Order::Load { .. } => engine::write_block(block, codec::mek_of(request), tag),
        Order::Unload { .. } => engine::write_block(block, &[], tag),
    }
}

// A call of the mailbox: judged, with the burns of FERS; then written out unless it is refused.
pub fn call(
    image: &[u8],
    cells: &mut [u32],
    marks: &[u32],
    context: &mut Context,
    code: u32,
    request: &[u8],
    response: &mut [u8],
    block: &mut [u8],
) -> Result<Reply, Refusal>
    ensures { outcome result (lent (state cells.new context.new) response.new block.new)
        ≡ mailbox_of image.now marks.now code request.now
        (lent (state cells.old context.old) response.old block.old) }
{
    let effect = effect_of(
        image,
        cells,
        marks,
        context,
        code,
        request,
        response.len(),
        block.len(),
    )?;
    update_context(context, effect);
    let order = effect.order;
    update_block(block, request, order, effect.tag);
    let length = codec::write_response(response, effect.command, effect.numbers);
    Ok(Reply { length, order })
}
