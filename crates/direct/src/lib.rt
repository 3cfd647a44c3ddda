// Direct commands: READ, WRITE and ZEROIZE of one word. A command is judged, the lowest refusal first,
// and then burns at most its word, by the burn that every other burn of the key block uses. `read`,
// `write` and `zeroize` carry out one each; `run` takes any, as document 01's enum, and no crate here
// calls it. All four are entry points: they answer for any bytes and any lengths. So that no secret
// word and no value that becomes one is left in a dead frame (the test `residue`), `write` looks at
// both only after the last call that is not inlined, and on the way from C no value lies in a command.
// The definitions are in `specs/Direct`, the laws in `proofs/Laws`. It rests on `drive`, `word`,
// `context`, `fuse`, `refusal` and what lies below them.
#![tactic(auto)]

ghost use Rattle.std.specs.Prelude.{◌≡◌, ℕ, ◌+◌, ◌≤◌, List, length};
ghost use Rattle.fuse.specs.Fuse.{cells_in};
ghost use Rattle.context.specs.State.{state, outcome};
ghost use Rattle.direct.specs.Direct.{word_of, ones_at, told_word, answer_of, direct_of};

use context::Context;
use drive::Drive;
use map::Entry;
use refusal::Refusal;
use word::{Role, Word};

// A command and the word that it names, by its first cell in the whole array.
#[derive(Clone, Copy)]
pub enum Command {
    Read { cell: u32 },
    Write { cell: u32, value: u64 },
    Zeroize { cell: u32 },
}

// What a command answers that is not refused. A word that was burned comes with the number of fuses newly set, but for a
// secret partition.
#[derive(Clone, Copy)]
pub enum Answer {
    Word(u64),
    Burned { word: u64, new: u32 },
    Done,
    Withheld,
}

// The word that starts at a cell, as a number.
fn word_of(cells: &[u32], at: usize, wide: bool) -> u64
    requires { at + cells_in wide ≤ length cells.now }
    ensures { result ≡ word_of wide at cells.now }
{
    if wide {
        return fuse::pair(cells[at], cells[at + 1]);
    }
    fuse::pair(cells[at], 0)
}

// What WRITE answers of its word as it now stands, and of the fuses that it newly set; neither is looked
// at in a secret partition. It does not depend on the command's cell, its value and the bound.
fn written(cells: &[u32], at: usize, wide: bool, x: Entry, new: u32) -> Answer
    requires { at + cells_in wide ≤ length cells.now }
    ensures { result ≡ answer_of (Command.Write 0 0) x wide 0 (word_of wide at cells.now) new }
{
    if map::is_secret(x) {
        return Answer::Done;
    }
    Answer::Burned {
        word: word_of(cells, at, wide),
        new,
    }
}

// All ones at a word's width.
fn ones_at(wide: bool) -> u64
    ensures { result ≡ ones_at wide }
{
    if wide {
        return fuse::ALL_ONES;
    }
    0xFFFF_FFFF
}

// The word that ZEROIZE tells: on the older guide all ones, whatever word stands there.
fn told_word(word: u64, wide: bool, x: Entry) -> u64
    ensures { result ≡ told_word x wide word }
{
    if map::is_on_older_guide(x) {
        return ones_at(wide);
    }
    word
}

// What ZEROIZE answers of its word as it now stands, and of the fuses that it newly set, whatever the
// command's cell. It is withheld by the word's own ones, also on the older guide.
fn zeroized(word: u64, wide: bool, x: Entry, bound: u64, new: u32) -> Answer
    ensures { result ≡ answer_of (Command.Zeroize 0) x wide bound word new }
{
    let told = told_word(word, wide, x);
    if !map::is_secret(x) {
        return Answer::Burned { word: told, new };
    }
    if fuse::is_short(word, bound) {
        return Answer::Withheld;
    }
    Answer::Word(told)
}

// READ of the word that starts at `cell`, which it answers. It is lent no context: whatever one there
// is stays as it is.
pub fn read(image: &[u8], cells: &[u32], marks: &[u32], cell: u32) -> Result<Answer, Refusal>
    ensures { (context : List ℕ) → outcome result (state cells.now context)
        ≡ direct_of image.now marks.now (Command.Read cell) (state cells.now context) }
{
    drive::check_drive(image, cells, marks)?;
    let Some(word) = word::word_at(image, cell) else {
        return Err(Refusal::NotThere);
    };
    if map::is_secret(map::read_entry(image, word.partition)) {
        return Err(Refusal::NotAllowed);
    }
    Ok(Answer::Word(word_of(cells, cell as usize, word.wide)))
}

// WRITE of a value into the data word that starts at `cell`. Whether 10 applies is asked before 8 and
// 9 are, since it takes a call, over which the word and the value would be kept on the stack.
pub fn write(
    image: &[u8],
    cells: &mut [u32],
    marks: &[u32],
    context: &Context,
    cell: u32,
    value: u64,
) -> Result<Answer, Refusal>
    ensures { outcome result (state cells.new context.now)
        ≡ direct_of image.now marks.now (Command.Write cell value) (state cells.old context.now) }
{
    drive::check_drive(image, cells, marks)?;
    let Some(word) = word::word_at(image, cell) else {
        return Err(Refusal::NotThere);
    };
    let in_use = drive::is_slot_in_use(image, word.partition, context);
    let is_marked = Drive { image, cells }.is_marked(word.partition);
    let x = map::read_entry(image, word.partition);
    if (word.role != Role::Data)
        | (x.kind == map::LIFE_CYCLE)
        | is_marked
        | (!word.wide & (0x1_0000_0000 <= value))
    {
        return Err(Refusal::NotAllowed);
    }
    if (word_of(cells, cell as usize, word.wide) | value) != value {
        return Err(Refusal::ClearsFuse);
    }
    if in_use {
        return Err(Refusal::SlotInUse);
    }
    let new = fuse::burn_word(cells, marks, cell as usize, word.wide, value);
    Ok(written(cells, cell as usize, word.wide, x, new))
}

// ZEROIZE of the word that starts at `cell`: all ones are burned into it.
pub fn zeroize(
    image: &[u8],
    cells: &mut [u32],
    marks: &[u32],
    context: &Context,
    cell: u32,
) -> Result<Answer, Refusal>
    ensures { outcome result (state cells.new context.now)
        ≡ direct_of image.now marks.now (Command.Zeroize cell) (state cells.old context.now) }
{
    let header = drive::check_drive(image, cells, marks)?;
    let Some(word) = word::word_at(image, cell) else {
        return Err(Refusal::NotThere);
    };
    let x = map::read_entry(image, word.partition);
    let at = cell as usize;
    if !map::is_zeroizable(x) {
        return Err(Refusal::NotAllowed);
    }
    if drive::is_slot_in_use(image, word.partition, context) {
        return Err(Refusal::SlotInUse);
    }
    let new = fuse::burn_word(cells, marks, at, word.wide, fuse::ALL_ONES);
    let stands = word_of(cells, at, word.wide);
    Ok(zeroized(stands, word.wide, x, header.bound as u64, new))
}

// A direct command: judged, then carried out unless it is refused.
pub fn run(
    image: &[u8],
    cells: &mut [u32],
    marks: &[u32],
    context: &mut Context,
    command: Command,
) -> Result<Answer, Refusal>
    ensures { outcome result (state cells.new context.new)
        ≡ direct_of image.now marks.now command (state cells.old context.old) }
{
    match command {
        Command::Read { cell } => read(image, cells, marks, cell),
        Command::Write { cell, value } => write(image, cells, marks, context, cell, value),
        Command::Zeroize { cell } => zeroize(image, cells, marks, context, cell),
    }
}
