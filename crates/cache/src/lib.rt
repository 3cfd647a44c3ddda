// The key cache: 16 places, each empty, waiting, held or unsure, all but an empty one with a 64-bit
// tag; and the reply that is awaited of the engine. Both lie in their part of the context, and no
// function here changes another part of it. An emptied place keeps no tag. Every public function
// answers for any words: a kind that is never written counts as unsure, and such an awaited number as
// an awaited reply. The definitions are in `specs/Cache`, the laws for callers in `proofs/Laws`. It
// rests on `context` and `laws`.
#![tactic(auto)]

ghost use Rattle.std.specs.Prelude.{◌≡◌, ◌++◌, ◌<◌, ◌≤◌, length, drop, replicate};
ghost use Rattle.laws.specs.Below.{found};
ghost use Rattle.cache.specs.Cache.{cache_of, is_at, kind_is, lowest_place, has_place, busy, place_by, place_at, placed, kept_tag, turned_at, turned_below, waiting_at, clearing, settled, emptied};

use context::Context;

// How many places there are.
pub const PLACES: u32 = 16;

// What a place is. Any other number counts as unsure.
// Kept as numbers: they are words of the lent context, and `settle` and `wait_at` answer for every number.
pub const EMPTY: u64 = 0;

pub const HELD: u64 = 1;

const WAITING: u64 = 2;

pub const UNSURE: u64 = 3;

// Whose reply is awaited. Any other number counts as an awaited reply.
pub const NO_REPLY: u64 = 0;

pub const CLEAR_REPLY: u64 = 1;

pub const LOAD_REPLY: u64 = 2;

pub const UNLOAD_REPLY: u64 = 3;

// The words of the places, kinds and tags: the awaited reply is behind them.
const PLACES_WORDS: usize = context::AWAITED;

// The places that a search is after: the empty ones, those that are not, those that wait, those that
// are unsure, those that are not empty and have a tag.
// Kept as an enum, not a closure: the definitions and the contracts (`lowest_place`, `kind_is`) name it.
#[derive(Clone, Copy)]
pub enum Sought {
    Empty,
    Occupied,
    Waiting,
    Unsure,
    Tag(u64),
}

// A place as its reader sees it, with its tag.
#[derive(Clone, Copy)]
pub enum Place {
    Empty,
    Waiting(u64),
    Held(u64),
    Unsure(u64),
}

// Whether a place of this kind and tag is one of those sought.
fn kind_is(sought: Sought, kind: u64, tag: u64) -> bool
    ensures { result ≡ kind_is sought kind tag }
{
    match sought {
        Sought::Empty => kind == EMPTY,
        Sought::Occupied => kind != EMPTY,
        Sought::Waiting => kind == WAITING,
        Sought::Unsure => WAITING < kind,
        Sought::Tag(wanted) => (kind != EMPTY) & (tag == wanted),
    }
}

// Whether place `k` is one of those sought.
fn is_at(context: &Context, sought: Sought, k: u32) -> bool
    requires { k < 16 }
    ensures { result ≡ is_at (cache_of context.now) sought k }
{
    let at = k as usize;
    kind_is(
        sought,
        context[context::KINDS + at],
        context[context::TAGS + at],
    )
}

// The lowest place of those sought.
pub fn lowest_place(context: &Context, sought: Sought) -> Option<u32>
    ensures { result ≡ found 16 (lowest_place (cache_of context.now) sought) }
{
    (0..PLACES).find(|k| is_at(context, sought, *k))
}

// Whether there is a place of those sought.
pub fn has_place(context: &Context, sought: Sought) -> bool
    ensures { result ≡ has_place (cache_of context.now) sought }
{
    lowest_place(context, sought).is_some()
}

// The number of the awaited reply, `NO_REPLY` where none is.
pub fn awaited(context: &Context) -> u64
    ensures { result ≡ (cache_of context.now).awaited }
{
    context[context::AWAITED]
}

// Whether a reply is awaited or a place waits.
pub fn is_busy(context: &Context) -> bool
    ensures { result ≡ busy (cache_of context.now) }
{
    awaited(context) != NO_REPLY || has_place(context, Sought::Waiting)
}

// A place by its kind, with its tag.
fn place_by(kind: u64, tag: u64) -> Place
    ensures { result ≡ place_by kind tag }
{
    match kind {
        EMPTY => Place::Empty,
        HELD => Place::Held(tag),
        WAITING => Place::Waiting(tag),
        _ => Place::Unsure(tag),
    }
}

// What place `k` is, with its tag. There is no place past 15, and it is told as an empty one.
pub fn read_place(context: &Context, k: u32) -> Place
    ensures { result ≡ place_at (cache_of context.now) k }
{
    if PLACES <= k {
        return Place::Empty;
    }
    let at = k as usize;
    place_by(context[context::KINDS + at], context[context::TAGS + at])
}

// Makes place `k` what `kind` says, with a tag. There is no place past 15, and then nothing changes.
fn put_place(context: &mut Context, k: u32, kind: u64, tag: u64)
    ensures { context.new ≡ placed k kind tag context.old }
{
    if k < PLACES {
        let at = k as usize;
        context[context::KINDS + at] = kind;
        context[context::TAGS + at] = tag;
    }
}

// The tag that a place keeps when its kind becomes `kind`: its own, but none where it is emptied.
fn kept_tag(kind: u64, tag: u64) -> u64
    ensures { result ≡ kept_tag kind tag }
{
    if kind == EMPTY { 0 } else { tag }
}

// Makes place `k` what `kind` says if it is one of those sought.
fn turn_place(context: &mut Context, sought: Sought, kind: u64, k: u32)
    requires { k < 16 }
    ensures { context.new ≡ turned_at sought kind k context.old }
{
    if is_at(context, sought, k) {
        let tag = kept_tag(kind, context[context::TAGS + (k as usize)]);
        put_place(context, k, kind, tag);
    }
}

// Makes every place of those sought what `kind` says.
fn turn_places(context: &mut Context, sought: Sought, kind: u64)
    ensures { context.new ≡ turned_below sought kind 16 context.old }
{
    for k in 0..PLACES {
        turn_place(context, sought, kind, k);
    }
}

// Place `k` waits with a tag for this reply, which is awaited: to its load or its unload.
pub fn wait_at(context: &mut Context, k: u32, tag: u64, reply: u64)
    ensures { context.new ≡ waiting_at k tag reply context.old }
{
    put_place(context, k, WAITING, tag);
    context[context::AWAITED] = reply;
}

// Every place that is not empty waits for the reply to a clear.
pub fn wait_for_clear(context: &mut Context)
    ensures { context.new ≡ clearing context.old }
{
    turn_places(context, Sought::Occupied, WAITING);
    context[context::AWAITED] = CLEAR_REPLY;
}

// Makes every waiting place what `kind` says: its reply has come, and none is awaited.
pub fn settle(context: &mut Context, kind: u64)
    ensures { context.new ≡ settled kind context.old }
{
    turn_places(context, Sought::Waiting, kind);
    context[context::AWAITED] = NO_REPLY;
}

// Empties every place and drops an awaited reply. (The one word more is stored under a test of its own:
// without it all are compiled to a call of `memset`, and the archive needs no symbol of others.)
pub fn clear(context: &mut Context)
    ensures { context.new ≡ emptied context.old }
{
    for word in &mut context[..PLACES_WORDS] {
        *word = EMPTY;
    }
    if awaited(context) != NO_REPLY {
        context[context::AWAITED] = NO_REPLY;
    }
}
