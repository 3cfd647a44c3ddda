// The context: all that the key block keeps between calls, in one lent array of words. All zeros are
// the context of a drive before its first call; `handles` makes its table. Here is where each part lies; a
// part's own crate reads and writes it (`cache`: the places and the awaited reply; `handles`: the table).
// The definitions are in `specs/Context`, the one law of stores in `specs/Laws`; `specs/State` has what
// calls change and what a call answers and leaves. It rests on nothing.
#![tactic(auto)]

// The words of the context, and where each part begins. A new part goes behind the last, and the
// length of the whole grows by its own.
pub const WORDS: usize = 38;

// What each place of the key cache is: 16 words.
pub const KINDS: usize = 0;

// The tag of each place: 16 words.
pub const TAGS: usize = 16;

// Whose reply is awaited of the engine: one word.
pub const AWAITED: usize = 32;

// How many handles the table has: one word.
pub const COUNT: usize = 33;

// The table's handles, each with its algorithm: three words.
pub const ENTRIES: usize = 34;

// The greatest number ever given to a handle: one word.
pub const GREATEST: usize = 37;

// What a caller lends to every call that needs it.
pub type Context = [u64; WORDS];
