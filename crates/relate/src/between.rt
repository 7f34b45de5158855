// The relation of a round between the targets of two transitions, a set to a target, out of the ranks of all pairs.
ghost use Rattle.std.specs.Prelude.{◌≡◌, ℕ, ◌<◌, ◌≤◌, length, get_or};
ghost use Rattle.simulation.specs.Limits.{most_states};
ghost use Rattle.word.specs.Mask.{member, part};
ghost use Rattle.set.specs.Words.{mask};
ghost use Rattle.relation.specs.Rows.{height};
ghost use Rattle.relate.specs.Rows.{ranked_row, Indexed, Rows};

use relation::ranks::lasts;
use relation::rows;
use set::Set;
use word::Word;

// The targets of nt that the state s is related to, by position.
pub fn row(ranks: &[u16], width: usize, r: u16, s: usize, nt: &[u16]) -> Set
    requires { (length nt.now ≤ most_states) × Indexed ranks.now width s nt.now }
    ensures { member (mask result) ≡ part (length nt.now) (ranked_row ranks.now width r s nt.now) }
{
    Set::from_fn(nt.len(), |j| {
        lasts(ranks[s * width + nt[j] as usize], r) == 1
    })
}

// Row i of rel becomes the row of the target at position i of mt.
pub fn rows(ranks: &[u16], width: usize, r: u16, mt: &[u16], nt: &[u16], rel: &mut [Word])
    requires { (length nt.now ≤ most_states) × (length mt.now ≤ height rel.old)
        × ((i : ℕ) → i < length mt.now → Indexed ranks.now width (get_or mt.now i 0) nt.now) }
    ensures { Rows ranks.now width r mt.now nt.now rel.old rel.new }
{
    for (i, s) in mt.iter().enumerate() {
        rows::put(rel, i, row(ranks, width, r, *s as usize, nt));
    }
}
