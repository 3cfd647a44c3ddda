// A reason as numbers, for C, as `numbers` has the other answers: the struct, and how it is made.
// The numbers of each case are in `specs/Numbers`. It rests on the types of `reason` and `refusal`.
ghost use Rattle.std.specs.Prelude.{◌≡◌};
ghost use Rattle.sciambrunola.specs.Numbers.{reason_numbers};

use reason::Reason;
use refusal::Refusal;

// Why no HEK is offered. kind: 0 it is available, 1 no slot, 2 all slots erased, 3 the active slot is
// blank, 4 it is torn, 5 refused.
#[repr(C)]
#[derive(Clone, Copy, Default)]
pub struct SciReason {
    pub kind: u32,
    pub refusal: u32,
    pub partition: u32,
    pub cell: u32,
    pub ones: u32,
}

// A reason as numbers.
impl From<Result<Reason, Refusal>> for SciReason {
    ghost from_gives = { λ reason numbers. numbers ≡ reason_numbers reason };

    fn from(reason: Result<Reason, Refusal>) -> SciReason {
        let zeros = SciReason::default();
        match reason {
            Ok(Reason::Available) => zeros,
            Ok(Reason::NoSlot) => SciReason { kind: 1, ..zeros },
            Ok(Reason::AllErased) => SciReason { kind: 2, ..zeros },
            Ok(Reason::Blank { partition }) => SciReason {
                kind: 3,
                partition,
                ..zeros
            },
            Ok(
                Reason::Torn {
                    partition,
                    cell,
                    ones,
                },
            ) => SciReason {
                kind: 4,
                partition,
                cell,
                ones,
                ..zeros
            },
            Err(refusal) => SciReason {
                kind: 5,
                refusal: refusal.into(),
                ..zeros
            },
        }
    }
}
