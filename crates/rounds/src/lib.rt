// The rounds: pairs that fall get their rank and raise doubts, until none falls.
#![tactic(auto)]

ghost use Rattle.std.specs.Prelude.{◌≡◌, true, ◌≢◌, ℕ, ◌+◌, ◌*◌, ◌<◌, ◌≤◌, length, get_or};
ghost use Rattle.simulation.specs.Limits.{most_states};
ghost use Rattle.word.specs.Mask.{member};
ghost use Rattle.set.specs.Words.{mask};
ghost use Rattle.relation.specs.Rows.{height};
ghost use Rattle.relation.specs.Related.{holds};
ghost use Rattle.form.specs.Tables.{first_table, contract_table};
ghost use Rattle.links.specs.Links.{Covered};
ghost use Rattle.rounds.specs.Rounds.{marked, Settled, Placed};
ghost use Rattle.rounds.specs.Turns.{Turning, Turned, Starting, Refined, Kept};

use form::Tables;
use links::{Marks, Sets};
use relation::rows;
use set::Set;
use word::Word;

// The rank k for the pairs of one row, whose ranks start at base.
fn mark_row(ranks: &mut [u16], set: Set, base: usize, k: u16)
    requires { (t : ℕ) → member (mask set) t ≡ true → base + t < length ranks.old }
    ensures { (i : ℕ) → get_or ranks.new i 0 ≡ marked (member (mask set)) base k ranks.old i }
{
    for t in set {
        ranks[base + t] = k;
    }
}

// The lost pairs, in the rows of a set, leave the rows, and k is their rank, with q ranks to a row.
fn settle(ranks: &mut [u16], rows: &mut [Word], marks: &Marks, fell: Set, q: usize, k: u16)
    requires { (most_states ≤ height rows.old) × (q ≤ most_states) × Covered (mask fell) marks.now.lost.now
        × Placed q (length ranks.old) marks.now.lost.now }
    ensures { Settled q k (holds marks.now.lost.now) rows.old rows.new ranks.old ranks.new }
{
    for s in fell {
        let row = rows::get(marks.lost, s);
        mark_row(ranks, row, s * q, k);
        rows::put(rows, s, rows::get(rows, s).difference(row));
    }
}

// How many rounds are done, and the rows that lose a pair in the next.
#[derive(Clone, Copy)]
pub struct Round {
    count: u16,
    fell: Set,
}

// What the rounds work with: two tables, a rank for each pair, the sets that are known, the pairs that are left, those in doubt and lost,
// what was tried, and room for a flow.
#[derive(Drop)]
pub struct Work<'a, 'b> {
    pub tables: &'a Tables<'a>,
    pub ranks: &'a mut [u16],
    pub sets: &'a Sets<'a>,
    pub rows: &'a mut [Word],
    pub marks: &'a mut Marks<'b>,
    pub tried: &'a mut [u8],
    pub amounts: &'a mut [u32],
}

impl Work<'_, '_> {
    // One round: the lost pairs get its number as their rank, and the next are found.
    fn turn(&mut self, last: Round) -> Round
        requires { Turning self.old last.count (mask last.fell) × (mask last.fell ≢ 0) }
        ensures { (result.count ≡ last.count + 1) × Turned self.old self.new result.count (mask result.fell) }
    {
        let count = last.count + 1;
        let fell = last.fell;
        let rows = &mut *self.rows;
        let sets = self.sets;
        let q = self.tables.width();
        settle(self.ranks, rows, self.marks, fell, q, count);
        let doubtful = links::doubts(self.marks, fell, sets);
        let next = dropping::drop_rows(
            self.tables,
            sets.targets,
            rows,
            self.marks,
            doubtful,
            self.tried,
            self.amounts,
        );
        Round { count, fell: next }
    }

    // Round after round, until no pair falls. Returns the count of rounds.
    pub fn refine(&mut self) -> u16
        requires { Starting self.old }
        ensures { Refined (first_table self.old.tables.now) (contract_table self.old.tables.now)
            self.old.ranks.now self.new.ranks.now self.new.rows.now result × Kept self.old self.new }
    {
        let fell = dropping::first_round(self.tables, self.marks);
        let mut last = Round { count: 0, fell };
        while !last.fell.is_empty() {
            last = self.turn(last);
        }
        last.count
    }
}
