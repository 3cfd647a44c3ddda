// The engine's reply to an order, which the drive hands back: it settles the places that wait for it, and
// is refused where none is awaited. `take_reply` answers for any words of the context, which is all that
// it is lent. The definitions are in `specs/Reply`, the laws in `specs/Laws`. It rests on `cache`,
// `engine` and `refusal`, and on what lies below them.
#![tactic(auto)]

ghost use Rattle.std.specs.Prelude.{◌≡◌};
ghost use Rattle.context.specs.State.{outcome};
ghost use Rattle.reply.specs.Reply.{kind_done, kind_after, taking_of};

use context::Context;
use engine::EngineReply;
use refusal::Refusal;

// What a waiting place becomes when its order is done: held by a load, empty by an unload or a clear.
// A number that is never written tells nothing of the order, and the place is unsure.
fn kind_done(awaited: u64) -> u64
    ensures { result ≡ kind_done awaited }
{
    if awaited == cache::LOAD_REPLY {
        return cache::HELD;
    }
    if awaited == cache::UNLOAD_REPLY {
        return cache::EMPTY;
    }
    if awaited == cache::CLEAR_REPLY {
        return cache::EMPTY;
    }
    cache::UNSURE
}

// What a waiting place becomes by a reply: unsure by any but done.
fn kind_after(reply: EngineReply, awaited: u64) -> u64
    ensures { result ≡ kind_after reply awaited }
{
    match reply {
        EngineReply::Done => kind_done(awaited),
        EngineReply::TimedOut => cache::UNSURE,
        EngineReply::Failed(_) => cache::UNSURE,
    }
}

// Takes the engine's reply to the order that awaits one: refusal 19 where none does.
pub fn take_reply(context: &mut Context, reply: EngineReply) -> Result<(), Refusal>
    ensures { outcome result context.new ≡ taking_of reply context.old }
{
    let awaited = cache::awaited(context);
    if awaited == cache::NO_REPLY {
        return Err(Refusal::NoReplyAwaited);
    }
    cache::settle(context, kind_after(reply, awaited));
    Ok(())
}
