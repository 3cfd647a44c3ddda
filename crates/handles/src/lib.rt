// The table of transport handles: one to three, each a number of 32 bits with its algorithm, and the
// greatest number ever given. It lies in its part of the context, and no function here changes another
// part of it. A fresh table is made once, in a context that has none; a rotation gives a handle the
// number above the greatest, so that no number is given twice (`history` `Handles`). The functions answer
// for any words, but `count_of` asks for a table and `next_number` for a number that is left. The
// definitions are in `specs/Handles` and `specs/Making`, the laws for callers in `specs/Laws`, `After` and
// `Fresh`. It rests on `context` and `refusal`, and below them on `laws`.
#![tactic(auto)]

ghost use Rattle.std.specs.Prelude.{◌≡◌, true, false, ◌<◌, ◌≤◌, length, get_or};
ghost use Rattle.laws.specs.Below.{found};
ghost use Rattle.refusal.specs.Refusals.{judged};
ghost use Rattle.context.specs.State.{outcome};
ghost use Rattle.handles.specs.Handles.{count_good, entry_of, handle_of, algorithm_of, table_of, has_table};
ghost use Rattle.handles.specs.Handles.{handle_at, algorithm_at, is_held_at, lowest_with, has_handle, used_up, next_number, rotated_at};
ghost use Rattle.handles.specs.Making.{distinct, largest, entry_from, making_tests, making_of};

use context::Context;
use refusal::Refusal;

// The most handles that a table has.
pub const MOST: u32 = 3;

// The last number of 32 bits: after it none is left.
const LAST_NUMBER: u64 = u32::MAX as u64;

// The word of an entry has its handle below, its algorithm above 32 bits.
const ALGORITHM: u64 = 1 << 32;

// What stands at a place of the table: a handle with its algorithm.
#[derive(Clone, Copy)]
pub struct Entry {
    pub handle: u32,
    pub algorithm: u32,
}

// The entry of a word.
impl From<u64> for Entry {
    ghost from_gives = { λ word entry. (entry.handle ≡ handle_of word) × (entry.algorithm ≡ algorithm_of word) };

    fn from(word: u64) -> Entry {
        Entry {
            handle: (word % ALGORITHM) as u32,
            algorithm: (word / ALGORITHM) as u32,
        }
    }
}

// The word of an entry.
impl From<Entry> for u64 {
    ghost from_gives = { λ entry word. word ≡ entry_of entry.handle entry.algorithm };

    fn from(entry: Entry) -> u64 {
        (entry.handle as u64) + ALGORITHM * (entry.algorithm as u64)
    }
}

// Whether a table may have so many handles.
fn is_count(count: u64) -> bool
    ensures { result ≡ count_good count }
{
    (1..=MOST as u64).contains(&count)
}

// Whether there is a table.
pub fn has_table(context: &Context) -> bool
    ensures { result ≡ has_table (table_of context.now) }
{
    is_count(context[context::COUNT])
}

// How many handles there are.
pub fn count_of(context: &Context) -> u32
    requires { has_table (table_of context.now) ≡ true }
    ensures { result ≡ (table_of context.now).count }
{
    context[context::COUNT] as u32
}

// The entry of place `k`.
pub fn entry_at(context: &Context, k: usize) -> Entry
    requires { k < 3 }
    ensures handle { result.handle ≡ handle_at (table_of context.now) k }
    ensures algorithm { result.algorithm ≡ algorithm_at (table_of context.now) k }
{
    Entry::from(context[context::ENTRIES + k])
}

// Whether place `k` is one of the table's and has a handle.
fn holds_at(context: &Context, handle: u32, k: u32) -> bool
    requires { k < 3 }
    ensures { result ≡ is_held_at (table_of context.now) handle k }
{
    ((k as u64) < context[context::COUNT]) & (entry_at(context, k as usize).handle == handle)
}

// The lowest place with a handle.
pub fn lowest_with(context: &Context, handle: u32) -> Option<u32>
    ensures { result ≡ found 3 (lowest_with (table_of context.now) handle) }
{
    (0..MOST).find(|k| holds_at(context, handle, *k))
}

// Whether the table has a handle.
pub fn has_handle(context: &Context, handle: u32) -> bool
    ensures { result ≡ has_handle (table_of context.now) handle }
{
    lowest_with(context, handle).is_some()
}

// Whether no number is left to give.
pub fn is_used_up(context: &Context) -> bool
    ensures { result ≡ used_up (table_of context.now) }
{
    LAST_NUMBER <= context[context::GREATEST]
}

// The number that a rotation gives: one above the greatest.
pub fn next_number(context: &Context) -> u32
    requires { used_up (table_of context.now) ≡ false }
    ensures { result ≡ next_number (table_of context.now) }
{
    (context[context::GREATEST] + 1) as u32
}

// Gives the handle of place `k` a number, which is then the greatest; its algorithm stays. There is no
// place past the last, and then nothing changes.
pub fn rotate(context: &mut Context, k: u32, number: u32)
    ensures { context.new ≡ rotated_at k number context.old }
{
    if k < MOST {
        let algorithm = entry_at(context, k as usize).algorithm;
        let entry = Entry {
            handle: number,
            algorithm,
        };
        context[context::ENTRIES + (k as usize)] = u64::from(entry);
        context[context::GREATEST] = number as u64;
    }
}

// Number `k`, 0 where there is none.
fn number_at(numbers: &[u32], k: usize) -> u32
    ensures { result ≡ get_or numbers.now k 0 }
{
    numbers.get(k).copied().unwrap_or(0)
}

// Whether no handle stands twice.
fn are_distinct(handles: &[u32]) -> bool
    requires { length handles.now ≤ 3 }
    ensures { result ≡ distinct handles.now }
{
    match handles {
        [first, second] => first != second,
        [first, second, third] => first != second && first != third && second != third,
        _ => true,
    }
}

// The largest of the handles, 0 where there is none.
fn largest_of(handles: &[u32]) -> u32
    ensures { result ≡ largest handles.now }
{
    handles.iter().copied().max().unwrap_or(0)
}

// The word of the entry of place `k`, of zeros where there is none.
fn entry_from(handles: &[u32], algorithms: &[u32], k: usize) -> u64
    ensures { result ≡ entry_from handles.now algorithms.now k }
{
    u64::from(Entry {
        handle: number_at(handles, k),
        algorithm: number_at(algorithms, k),
    })
}

// Whether a table may be made: refusal 2 where it may not.
fn check_making(context: &Context, handles: &[u32], algorithms: &[u32]) -> Result<(), Refusal>
    ensures { result ≡ judged (making_tests handles.now algorithms.now context.now) }
{
    if context[context::COUNT] != 0 {
        return Err(Refusal::BadLent);
    }
    if !is_count(handles.len() as u64) {
        return Err(Refusal::BadLent);
    }
    if algorithms.len() != handles.len() {
        return Err(Refusal::BadLent);
    }
    if !are_distinct(handles) {
        return Err(Refusal::BadLent);
    }
    Ok(())
}

// Makes a fresh table of one to three distinct handles with their algorithms, in a context that has
// none: refusal 2 for anything else. Handles and algorithms stay two arrays: C lends them so.
pub fn make_table(context: &mut Context, handles: &[u32], algorithms: &[u32]) -> Result<(), Refusal>
    ensures { outcome result context.new ≡ making_of handles.now algorithms.now context.old }
{
    check_making(context, handles, algorithms)?;
    context[context::COUNT] = handles.len() as u64;
    context[context::ENTRIES] = entry_from(handles, algorithms, 0);
    context[context::ENTRIES + 1] = entry_from(handles, algorithms, 1);
    context[context::ENTRIES + 2] = entry_from(handles, algorithms, 2);
    context[context::GREATEST] = largest_of(handles) as u64;
    Ok(())
}
