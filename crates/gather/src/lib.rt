// Rows of a relation by the positions of targets: what a flow between two transitions works on.
#![tactic(auto)]

ghost use Rattle.std.specs.Prelude.{◌≡◌, ◌<◌, ◌≤◌, ◌+◌, ◌*◌, length};
ghost use Rattle.simulation.specs.Limits.{most_states};
ghost use Rattle.word.specs.Mask.{member, part, word_bits};
ghost use Rattle.set.specs.Words.{mask};
ghost use Rattle.relation.specs.Rows.{row_of, height};
ghost use Rattle.gather.specs.Places.{Places, Ascending, row_at, Gathered};

use relation::rows;
use set::Set;
use word::Word;

// Whether the state at place j is one of row s.
fn is_related(rows: &[Word], s: usize, to: &[u16], j: usize) -> bool
    requires { (s < height rows.now) × Places most_states to.now × (j < length to.now) }
    ensures { result ≡ row_at (row_of rows.now s) to.now j }
{
    rows::bit(rows, s, to[j] as usize) == 1
}

// Row s by positions, at most as many as a word has bits: bit j is that of the state at place j.
pub fn row_word(rows: &[Word], s: usize, to: &[u16]) -> Word
    requires { (s < height rows.now) × Places most_states to.now × (length to.now ≤ word_bits) }
    ensures { member result ≡ part (length to.now) (row_at (row_of rows.now s) to.now) }
{
    word::from_fn(to.len(), |j| is_related(rows, s, to, j))
}

// Row s by positions, place by place: place j is a member if the state there is one of the row.
fn sparse_row(rows: &[Word], s: usize, to: &[u16]) -> Set
    requires { (s < height rows.now) × Places most_states to.now }
    ensures { member (mask result) ≡ part (length to.now) (row_at (row_of rows.now s) to.now) }
{
    Set::from_fn(to.len(), |j| is_related(rows, s, to, j))
}

// Row s by positions. Targets that ascend to their number less one are all states in order, and positions are then states.
fn gather_row(rows: &[Word], s: usize, to: &[u16]) -> Set
    requires { (s < height rows.now) × Places most_states to.now × Ascending to.now }
    ensures { member (mask result) ≡ part (length to.now) (row_at (row_of rows.now s) to.now) }
{
    let n = to.len();
    if n == 0 {
        return Set::empty();
    }
    if to[n - 1] as usize + 1 == n {
        return rows::get(rows, s).intersection(Set::below(n));
    }
    sparse_row(rows, s, to)
}

// The rows between the targets of two transitions, by positions.
pub fn gather_rows(from: &[u16], to: &[u16], rows: &[Word], rel: &mut [Word])
    requires { Places (height rows.now) from.now × Places most_states to.now × Ascending to.now × (length from.now ≤ height rel.old) }
    ensures { Gathered rows.now from.now to.now (length from.now) rel.new }
{
    for i in 0..from.len() {
        rows::put(rel, i, gather_row(rows, from[i] as usize, to));
    }
}
