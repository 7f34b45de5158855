// Relations between the states of two tables, a set of states to a row. Whether a pair is related is a number,
// 1 or 0, so that no caller has to branch on it.
#![tactic(auto)]

pub mod ranks;
pub mod rows;

ghost use Rattle.std.specs.Prelude.{◌≡◌};
ghost use Rattle.simulation.specs.Limits.{most_states};
ghost use Rattle.relation.specs.Related.{related, none, «all_below»};

use set::Set;
use simulation::Table;
use word::Word;

#[derive(Drop)]
pub struct Relation {
    pub rows: [Word; Relation::WORDS],
}

impl Relation {
    // The words of all rows: a row for each state of a table.
    pub const WORDS: usize = Table::STATES * Set::WORDS;

    // A word that has all its bits.
    pub const ALL: Word = 0xffff_ffff_ffff_ffff;

    // No pair.
    pub fn empty() -> Self
        ensures { related result ≡ none }
    {
        Self {
            rows: [0; Self::WORDS],
        }
    }

    // Every pair of states.
    pub fn full() -> Self
        ensures { related result ≡ all_below most_states most_states }
    {
        Self {
            rows: [Self::ALL; Self::WORDS],
        }
    }
}
