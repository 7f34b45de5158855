// Why a call on two accepted tables is refused, and the number that says so.
ghost use Rattle.std.specs.Prelude.{◌≡◌};
ghost use Rattle.answer.specs.Refused.{refused};

use crate::Answer;

// What is short comes with the length that it must have.
#[derive(Clone, Copy)]
pub enum Refusal {
    // the chosen pair is none of the tables' states
    OutsidePair,
    ShortRanks(u32),
    ShortFlow(u32),
    ShortTree(u32),
    // the tree has more bytes than a tree may have
    LongTree,
}

impl From<Refusal> for Answer {
    ghost from_gives = { λ r a. a ≡ refused r };

    fn from(r: Refusal) -> Answer {
        match r {
            Refusal::OutsidePair => Answer::refused(11, 0, 0),
            Refusal::ShortRanks(needed) => Answer::refused(20, 0, needed),
            Refusal::ShortFlow(needed) => Answer::refused(21, 0, needed),
            Refusal::ShortTree(needed) => Answer::refused(22, 0, needed),
            Refusal::LongTree => Answer::refused(23, 0, 0),
        }
    }
}
