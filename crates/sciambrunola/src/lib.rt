// What C and Rust call, in a static archive: a map's fields, a map from its text, the states, the
// reason why no HEK is offered, a place of the key cache, the direct commands, the erasures, the restart,
// the table of handles, the mailbox and the engine's reply, their answers as the numbers of `numbers`,
// `reasons` and `replies`. Each function does what the entry point below it does, for any bytes and any
// lengths, and asks nothing of its caller but what include/sciambrunola.h says of pointers. It rests on
// `reader`, `plan`, `states`, `reason`, `cache`, `handles`, `direct`, `erasure`, `mailbox` and `reply`, on
// the types of `refusal` and `engine`, and on the array of `context`.
#![tactic(auto)]

mod numbers;
mod reasons;
mod replies;

ghost use Rattle.std.specs.Prelude.{◌≡◌};
ghost use Rattle.context.specs.State.{state, outcome, telling};
ghost use Rattle.cache.specs.Cache.{cache_of, place_at, emptied};
ghost use Rattle.handles.specs.Making.{making_of};
ghost use Rattle.reader.specs.Reader.{reading_of};
ghost use Rattle.plan.specs.Writing.{writing_of};
ghost use Rattle.states.specs.States.{lists, listing_of};
ghost use Rattle.reason.specs.Reason.{reason_of};
ghost use Rattle.erasure.specs.Erasure.{erasure_of, cut_erasure_of};
ghost use Rattle.direct.specs.Direct.{direct_of};
ghost use Rattle.mailbox.specs.Mailbox.{lent, mailbox_of};
ghost use Rattle.reply.specs.Reply.{taking_of};
ghost use Rattle.sciambrunola.specs.Numbers.{fields_numbers, written_numbers, listing_numbers, reason_numbers};
ghost use Rattle.sciambrunola.specs.Numbers.{place_numbers, done_number, answer_numbers, erasure_numbers, reply_numbers, engine_reply};

use context::Context;
use direct::Command;
use numbers::{SciAnswer, SciErasure, SciFields, SciListing, SciPlace, SciReply, SciWritten};
use reasons::SciReason;

// The fields of a partition.
#[unsafe(no_mangle)]
pub extern "C" fn sci_partition(image: &[u8], partition: u32) -> SciFields
    ensures { result ≡ fields_numbers (reading_of image.now partition) }
{
    reader::read_partition(image, partition).into()
}

// The image of a map, from its text.
#[unsafe(no_mangle)]
pub extern "C" fn sci_write_map(text: &[u8], image: &mut [u8]) -> SciWritten
    ensures { outcome result image.new ≡ telling written_numbers (writing_of text.now image.old) }
{
    plan::write_map(text, image).into()
}

// The state and the short pairs of each partition.
#[unsafe(no_mangle)]
pub extern "C" fn sci_states(
    image: &[u8],
    cells: &[u32],
    marks: &[u32],
    states: &mut [u32; 16],
    shorts: &mut [u32; 16],
) -> SciListing
    ensures { outcome result (lists states.new shorts.new)
        ≡ telling listing_numbers (listing_of image.now cells.now marks.now (lists states.old shorts.old)) }
{
    states::list_states(image, cells, marks, states, shorts).into()
}

// Why the drive offers no HEK.
#[unsafe(no_mangle)]
pub extern "C" fn sci_why(image: &[u8], cells: &[u32], marks: &[u32]) -> SciReason
    ensures { result ≡ reason_numbers (reason_of image.now cells.now marks.now) }
{
    reason::find_reason(image, cells, marks).into()
}

// What is in a place of the key cache.
#[unsafe(no_mangle)]
pub extern "C" fn sci_cache_place(context: &Context, place: u32) -> SciPlace
    ensures { result ≡ place_numbers (place_at (cache_of context.now) place) }
{
    cache::read_place(context, place).into()
}

// READ of the word that starts at `cell`.
#[unsafe(no_mangle)]
pub extern "C" fn sci_read(
    image: &[u8],
    cells: &mut [u32],
    marks: &[u32],
    context: &mut Context,
    cell: u32,
) -> SciAnswer
    ensures { outcome result (state cells.new context.new)
        ≡ telling answer_numbers (direct_of image.now marks.now (Command.Read cell) (state cells.old context.old)) }
{
    direct::read(image, cells, marks, cell).into()
}

// WRITE of a value into the word that starts at `cell`.
#[unsafe(no_mangle)]
pub extern "C" fn sci_write(
    image: &[u8],
    cells: &mut [u32],
    marks: &[u32],
    context: &mut Context,
    cell: u32,
    value: u64,
) -> SciAnswer
    ensures { outcome result (state cells.new context.new)
        ≡ telling answer_numbers (direct_of image.now marks.now (Command.Write cell value) (state cells.old context.old)) }
{
    direct::write(image, cells, marks, context, cell, value).into()
}

// ZEROIZE of the word that starts at `cell`.
#[unsafe(no_mangle)]
pub extern "C" fn sci_zeroize(
    image: &[u8],
    cells: &mut [u32],
    marks: &[u32],
    context: &mut Context,
    cell: u32,
) -> SciAnswer
    ensures { outcome result (state cells.new context.new)
        ≡ telling answer_numbers (direct_of image.now marks.now (Command.Zeroize cell) (state cells.old context.old)) }
{
    direct::zeroize(image, cells, marks, context, cell).into()
}

// The erasure of a partition.
#[unsafe(no_mangle)]
pub extern "C" fn sci_erase(
    image: &[u8],
    cells: &mut [u32],
    marks: &[u32],
    context: &mut Context,
    partition: u32,
) -> SciErasure
    ensures { outcome result (state cells.new context.new)
        ≡ telling erasure_numbers (erasure_of image.now marks.now partition (state cells.old context.old)) }
{
    erasure::erase(image, cells, marks, context, partition).into()
}

// The erasure of a partition, cut by a power failure at burn `k`, of whose word the mask has burned.
#[unsafe(no_mangle)]
pub extern "C" fn sci_erase_cut(
    image: &[u8],
    cells: &mut [u32],
    marks: &[u32],
    context: &mut Context,
    partition: u32,
    k: u32,
    mask: u64,
) -> SciErasure
    ensures { outcome result (state cells.new context.new)
        ≡ telling erasure_numbers (cut_erasure_of image.now marks.now partition k mask (state cells.old context.old)) }
{
    erasure::erase_cut(image, cells, marks, context, partition, k, mask).into()
}

// A restart.
#[unsafe(no_mangle)]
pub extern "C" fn sci_restart(context: &mut Context)
    ensures { context.new ≡ emptied context.old }
{
    erasure::restart(context);
}

// A fresh table of handles, in a context that has none. Answers 0 where it was made, else the refusal's
// number.
#[unsafe(no_mangle)]
pub extern "C" fn sci_make_table(context: &mut Context, handles: &[u32], algorithms: &[u32]) -> u32
    ensures { outcome result context.new
        ≡ telling done_number (making_of handles.now algorithms.now context.old) }
{
    replies::done_number(handles::make_table(context, handles, algorithms))
}

// A call of the mailbox.
#[unsafe(no_mangle)]
pub extern "C" fn sci_mailbox(
    image: &[u8],
    cells: &mut [u32],
    marks: &[u32],
    context: &mut Context,
    code: u32,
    request: &[u8],
    response: &mut [u8],
    block: &mut [u8],
) -> SciReply
    ensures { outcome result (lent (state cells.new context.new) response.new block.new)
        ≡ telling reply_numbers (mailbox_of image.now marks.now code request.now
        (lent (state cells.old context.old) response.old block.old)) }
{
    mailbox::call(image, cells, marks, context, code, request, response, block).into()
}

// The engine's reply to the order that awaits one, by its number, with the vendor's number. Answers 0 where
// it was taken, else the refusal's number.
#[unsafe(no_mangle)]
pub extern "C" fn sci_engine_reply(context: &mut Context, reply: u32, vendor: u32) -> u32
    ensures { outcome result context.new ≡ telling done_number (taking_of (engine_reply reply vendor) context.old) }
{
    replies::done_number(reply::take_reply(context, replies::reply_of(reply, vendor)))
}
