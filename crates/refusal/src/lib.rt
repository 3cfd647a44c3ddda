// The refusals, numbered as the documents number them. A function that refuses answers `Err` with one of
// these, and C is told its number. `specs/Numbers` has the number of each, `specs/Refusals` which of a
// call's refusals is given. It rests on `laws` alone.
#![tactic(auto)]

ghost use Rattle.std.specs.Prelude.{◌≡◌};
ghost use Rattle.refusal.specs.Numbers.{number};

// Why a call is refused. A number that stands for more than one reason has a name for all of them.
#[derive(Clone, Copy, PartialEq, Eq)]
pub enum Refusal {
    // A map breaks a rule.
    BadMap = 1,
    // Cells or marks are not as long as the map says, a lent buffer has not its length, or the table of
    // handles is not there or not to be made.
    BadLent = 2,
    UnknownCode = 3,
    WrongLength = 4,
    WrongChksum = 5,
    ReservedNotZero = 6,
    // There is no such partition, or the cell starts no word.
    NotThere = 7,
    // The command may not touch it.
    NotAllowed = 8,
    ClearsFuse = 9,
    SlotInUse = 10,
    HekNotAvailable = 11,
    TagHeld = 12,
    NoEmptyPlace = 13,
    TagNotHeld = 14,
    // The indicator has no set fuse after its burn.
    NotMarked = 15,
    // A text is no plan, or the buffer is too short for its image.
    BadText = 16,
    EngineBusy = 17,
    PlaceUnsure = 18,
    NoReplyAwaited = 19,
    NoSuchHandle = 20,
    NumbersUsedUp = 21,
}

// The number in the documents.
impl From<Refusal> for u32 {
    ghost from_gives = { λ refusal n. n ≡ number refusal };

    fn from(refusal: Refusal) -> u32 {
        refusal as u32
    }
}
