// The engine's reply, for C: the reply that a number means, and what came of it as a number, or of a table
// that is made. The numbers are in `specs/Numbers`. It rests on the types of `engine` and `refusal`.
ghost use Rattle.std.specs.Prelude.{◌≡◌};
ghost use Rattle.sciambrunola.specs.Numbers.{engine_reply, done_number};

use engine::EngineReply;
use refusal::Refusal;

// The numbers of done and timed out. Any other counts as failed, 3 as C calls it and 0 too: zeroed memory
// is not done.
const DONE: u32 = 1;

const TIMED_OUT: u32 = 2;

// The reply that a number means, with the vendor's number.
// Kept as a function, not `From`: it is of two numbers, and the second counts for a failure alone.
pub fn reply_of(number: u32, vendor: u32) -> EngineReply
    ensures { result ≡ engine_reply number vendor }
{
    match number {
        DONE => EngineReply::Done,
        TIMED_OUT => EngineReply::TimedOut,
        _ => EngineReply::Failed(vendor),
    }
}

// What came of a reply, or of a table: 0 where it was taken or made, else the refusal's number.
pub fn done_number(done: Result<(), Refusal>) -> u32
    ensures { result ≡ done_number done }
{
    done.err().map_or(0, u32::from)
}
