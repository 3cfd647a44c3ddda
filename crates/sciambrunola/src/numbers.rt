// The answers as numbers, for C, since an enum does not cross: a struct for each kind of answer, and
// how it is made. The numbers of each case are in `specs/Numbers`, but for those of the states, which
// `states` writes into the lent arrays (`state_number`). It rests on the types of `refusal`, `reader`,
// `cache`, `direct`, `erasure`, `mailbox` and `engine`.
ghost use Rattle.std.specs.Prelude.{◌≡◌};
ghost use Rattle.sciambrunola.specs.Numbers.{fields_numbers, written_numbers, listing_numbers, place_numbers};
ghost use Rattle.sciambrunola.specs.Numbers.{answer_numbers, erasure_numbers, reply_numbers};

use cache::Place;
use direct::Answer;
use engine::Order;
use erasure::{Answer as Erasure, Refused};
use mailbox::Reply;
use reader::Fields;
use refusal::Refusal;

// What a map says of a partition, with its header. refusal: 0 where it is told.
#[repr(C)]
#[derive(Clone, Copy, Default)]
pub struct SciFields {
    pub refusal: u32,
    pub partitions: u32,
    pub cells: u32,
    pub bound: u32,
    pub first: u32,
    pub length: u32,
    pub kind: u32,
    pub flags: u32,
}

// How long an image was written. refusal: 0 where one was.
#[repr(C)]
#[derive(Clone, Copy)]
pub struct SciWritten {
    pub refusal: u32,
    pub bytes: u32,
}

// How many partitions were listed. refusal: 0 where they were.
#[repr(C)]
#[derive(Clone, Copy)]
pub struct SciListing {
    pub refusal: u32,
    pub partitions: u32,
}

// What is in a place of the key cache. kind: 0 empty, 1 held, 2 waiting, 3 unsure; tag: 0 where it is
// empty.
#[repr(C)]
#[derive(Clone, Copy)]
pub struct SciPlace {
    pub kind: u32,
    pub tag: u64,
}

// A direct command's answer. kind: 0 a word, 1 done, 2 withheld, 3 refused. new: the fuses newly set, 0
// where the answer has no such number.
#[repr(C)]
#[derive(Clone, Copy, Default)]
pub struct SciAnswer {
    pub kind: u32,
    pub refusal: u32,
    pub word: u64,
    pub new: u32,
}

// An erasure's answer. kind: 0 ended (the partition is erased exactly if `short` is 0 or `first` is its
// indicator's first cell, else torn), 1 cut, 2 refused. new: the fuses newly set, 0 where refused.
#[repr(C)]
#[derive(Clone, Copy, Default)]
pub struct SciErasure {
    pub kind: u32,
    pub refusal: u32,
    pub short: u32,
    pub first: u32,
    pub burns: u32,
    pub new: u32,
}

// The mailbox's answer. order: 0 none, 1 clear, 2 load, 3 unload.
#[repr(C)]
#[derive(Clone, Copy, Default)]
pub struct SciReply {
    pub refusal: u32,
    pub length: u32,
    pub order: u32,
    pub place: u32,
    pub timeout: u32,
}

// A partition's fields as numbers.
impl From<Result<Fields, Refusal>> for SciFields {
    ghost from_gives = { λ reading fields. fields ≡ fields_numbers reading };

    fn from(reading: Result<Fields, Refusal>) -> SciFields {
        match reading {
            Ok(Fields { header, entry }) => SciFields {
                refusal: 0,
                partitions: header.partitions.into(),
                cells: header.cells.into(),
                bound: header.bound.into(),
                first: entry.first.into(),
                length: entry.n.into(),
                kind: entry.kind.into(),
                flags: entry.flags.into(),
            },
            Err(refusal) => SciFields {
                refusal: refusal.into(),
                ..SciFields::default()
            },
        }
    }
}

// What came of a map's text as numbers.
// Kept as two, this and the next: include/sciambrunola.h has a struct for each.
impl From<Result<u32, Refusal>> for SciWritten {
    ghost from_gives = { λ writing written. written ≡ written_numbers writing };

    fn from(writing: Result<u32, Refusal>) -> SciWritten {
        match writing {
            Ok(bytes) => SciWritten { refusal: 0, bytes },
            Err(refusal) => SciWritten {
                refusal: refusal.into(),
                bytes: 0,
            },
        }
    }
}

// A listing's answer as numbers.
impl From<Result<u32, Refusal>> for SciListing {
    ghost from_gives = { λ listing listed. listed ≡ listing_numbers listing };

    fn from(listing: Result<u32, Refusal>) -> SciListing {
        match listing {
            Ok(partitions) => SciListing {
                refusal: 0,
                partitions,
            },
            Err(refusal) => SciListing {
                refusal: refusal.into(),
                partitions: 0,
            },
        }
    }
}

// A place as numbers.
impl From<Place> for SciPlace {
    ghost from_gives = { λ place numbers. numbers ≡ place_numbers place };

    fn from(place: Place) -> SciPlace {
        match place {
            Place::Empty => SciPlace { kind: 0, tag: 0 },
            Place::Held(tag) => SciPlace { kind: 1, tag },
            Place::Waiting(tag) => SciPlace { kind: 2, tag },
            Place::Unsure(tag) => SciPlace { kind: 3, tag },
        }
    }
}

// An answer as numbers.
impl From<Result<Answer, Refusal>> for SciAnswer {
    ghost from_gives = { λ answer numbers. numbers ≡ answer_numbers answer };

    fn from(answer: Result<Answer, Refusal>) -> SciAnswer {
        let zeros = SciAnswer::default();
        match answer {
            Ok(Answer::Word(word)) => SciAnswer { word, ..zeros },
            Ok(Answer::Burned { word, new }) => SciAnswer { word, new, ..zeros },
            Ok(Answer::Done) => SciAnswer { kind: 1, ..zeros },
            Ok(Answer::Withheld) => SciAnswer { kind: 2, ..zeros },
            Err(refusal) => SciAnswer {
                kind: 3,
                refusal: refusal.into(),
                ..zeros
            },
        }
    }
}

// An erasure's answer as numbers.
impl From<Result<Erasure, Refused>> for SciErasure {
    ghost from_gives = { λ answer numbers. numbers ≡ erasure_numbers answer };

    fn from(answer: Result<Erasure, Refused>) -> SciErasure {
        let zeros = SciErasure::default();
        match answer {
            Ok(
                Erasure::Ended {
                    short,
                    first,
                    burns,
                    new,
                },
            ) => SciErasure {
                short,
                first,
                burns,
                new,
                ..zeros
            },
            Ok(Erasure::Cut { burns, new }) => SciErasure {
                kind: 1,
                burns,
                new,
                ..zeros
            },
            Err(Refused { refusal, burns }) => SciErasure {
                kind: 2,
                refusal: refusal.into(),
                burns,
                ..zeros
            },
        }
    }
}

// A reply as numbers.
impl From<Result<Reply, Refusal>> for SciReply {
    ghost from_gives = { λ reply numbers. numbers ≡ reply_numbers reply };

    fn from(reply: Result<Reply, Refusal>) -> SciReply {
        let zeros = SciReply::default();
        match reply {
            Ok(Reply { length, order }) => match order {
                Order::Nothing => SciReply { length, ..zeros },
                Order::Clear { timeout } => SciReply {
                    length,
                    order: 1,
                    timeout,
                    ..zeros
                },
                Order::Load { place, timeout } => SciReply {
                    length,
                    order: 2,
                    place,
                    timeout,
                    ..zeros
                },
                Order::Unload { place, timeout } => SciReply {
                    length,
                    order: 3,
                    place,
                    timeout,
                    ..zeros
                },
            },
            Err(refusal) => SciReply {
                refusal: refusal.into(),
                ..zeros
            },
        }
    }
}
