// What refuses the bytes of a table (01, "A table in bytes").
ghost use Rattle.std.specs.Prelude.{◌≡◌};
ghost use Rattle.layout.specs.Bytes.{refuse◌unless◌};
ghost use Rattle.layout.specs.Refusals.{number_of, PassesUnless};

// The first fault of the bytes, each with its number in 01.
#[derive(Clone, Copy, PartialEq, Eq)]
pub enum Refusal {
    // The bytes end within a section.
    Cut = 1,
    // Bytes follow the last section.
    Trailing = 2,
    // More codes than are allowed, or codes that do not ascend.
    Codes = 3,
    // No states, or more than are allowed.
    States = 4,
    // More transitions than are allowed, or not as many as the states have.
    Transitions = 5,
    // A transition whose code is not listed.
    Unlisted = 6,
    // More entries than are allowed, or not as many as the transitions have.
    Entries = 7,
    // A transition without entries.
    Empty = 8,
    // A target that is no state, or not above the one before it.
    Target = 9,
    // Weights of a transition whose total is 0 or above the limit.
    Weight = 10,
}

impl Refusal {
    // Its number in 01.
    pub fn number(self) -> u32
        ensures { result ≡ number_of self }
    {
        self as u32
    }

    // This refusal, unless the test holds.
    pub fn unless(self, test: bool) -> Result<(), Refusal>
        ensures { PassesUnless (refuse number_of self unless test) result }
    {
        if test { Ok(()) } else { Err(self) }
    }
}
