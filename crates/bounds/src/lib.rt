// What the related states tell of a fit by sets alone, before any weight is looked at.
#![tactic(auto)]

ghost use Rattle.std.specs.Prelude.{false, ◌≡◌, ℕ, ◌<◌, length};
ghost use Rattle.simulation.specs.Sum.{all_of};
ghost use Rattle.simulation.specs.Limits.{most_states};
ghost use Rattle.word.specs.Mask.{member};
ghost use Rattle.set.specs.Words.{mask};
ghost use Rattle.relation.specs.Rows.{height};
ghost use Rattle.relation.specs.Related.{holds};
ghost use Rattle.gather.specs.Places.{Places};
ghost use Rattle.bounds.specs.Quick.{SetOf, Unrelated, RowMissing, Bounding, Settles};

use relation::rows;
use set::Set;
use simulation::Table;
use word::Word;

// The set of the targets.
pub fn set_of(to: &[u16]) -> Set
    requires { Places most_states to.now }
    ensures { SetOf to.now (length to.now) (mask result) }
{
    let mut set = Set::empty();
    for t in to {
        set = set.insert(*t as usize);
    }
    set
}

// A transition with more targets than this is compared by the corner rule first: sets of targets take a step for each target as well, and
// settle less.
pub const MANY: usize = 16;

// The state s is related to one of a set.
fn reaches(rows: &[Word], s: usize, to: Set) -> bool
    requires { s < height rows.now }
    ensures { result ≡ false → Unrelated rows.now s (mask to) }
{
    !rows::get(rows, s).intersection(to).is_empty()
}

// Each target of m is related to one of n, whose targets are `to`.
pub fn meets(from: &[u16], rows: &[Word], to: Set) -> bool
    requires { Places (height rows.now) from.now }
    ensures { result ≡ false → RowMissing rows.now from.now (mask to) }
{
    from.iter().all(|s| reaches(rows, *s as usize, to))
}

// What every, and what some of the targets of a transition are related to, so far as it is known: each is related to all of `every`, and
// to none outside `some`.
#[derive(Clone, Copy)]
pub struct Bounds {
    pub some: Set,
    pub every: Set,
}

impl Bounds {
    // Whether m fits n, whose targets are `to`, as far as the bounds tell.
    pub fn settle(self, to: Set) -> Option<bool>
        ensures { Settles (mask self.some) (mask self.every) (mask to) result }
    {
        if to.difference(self.every).is_empty() {
            return Some(true);
        }
        if !to.difference(self.some).is_empty() {
            return Some(false);
        }
        None
    }
}

// The bounds by all rows of the targets.
fn row_bounds(from: &[u16], rows: &[Word]) -> Bounds
    requires { Places (height rows.now) from.now }
    ensures { Bounding rows.now from.now (mask result.some) (mask result.every) }
{
    let mut some = Set::empty();
    let mut every = Set::below(Table::STATES);
    for s in from {
        let near = rows::get(rows, *s as usize);
        some = some.union(near);
        every = every.intersection(near);
    }
    Bounds { some, every }
}

// The states that every target is related to.
pub fn common(from: &[u16], rows: &[Word]) -> Set
    requires { Places (height rows.now) from.now }
    ensures { (u : ℕ) → u < most_states → member (mask result) u ≡ all_of (λ s. holds rows.now s u) from.now }
{
    let mut every = Set::below(Table::STATES);
    for s in from {
        every = every.intersection(rows::get(rows, *s as usize));
    }
    every
}

// The bounds for targets that are not many. Those of many would cost more than they settle.
pub fn bounds_of(from: &[u16], rows: &[Word]) -> Bounds
    requires { Places (height rows.now) from.now }
    ensures { Bounding rows.now from.now (mask result.some) (mask result.every) }
{
    if MANY < from.len() {
        return Bounds {
            some: Set::below(Table::STATES),
            every: Set::empty(),
        };
    }
    row_bounds(from, rows)
}
