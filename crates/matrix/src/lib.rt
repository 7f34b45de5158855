// A flow under construction, and the sets of the places where its numbers aren't 0.
#![tactic(auto)]

mod flow;

ghost use Rattle.std.specs.Prelude.{◌≡◌, ◌≤◌, ◌<◌, length, get_or};
ghost use Rattle.simulation.specs.Limits.{most_states};
ghost use Rattle.word.specs.Mask.{member};
ghost use Rattle.set.specs.Words.{mask};
ghost use Rattle.matrix.specs.Masks.{with_nonzero, MaskOf};

pub use flow::Flow;
use set::Set;

// The set with k if v isn't 0, and else without.
pub fn marked(set: Set, k: usize, v: u32) -> Set
    requires { k < most_states }
    ensures { member (mask result) ≡ with_nonzero k v (member (mask set)) }
{
    if v == 0 {
        return set.remove(k);
    }
    set.insert(k)
}

// The places where the number isn't 0.
pub fn positive(numbers: &[u32]) -> Set
    requires { length numbers.now ≤ most_states }
    ensures { MaskOf (length numbers.now) (λ i. get_or numbers.now i 0) (mask result) }
{
    Set::from_fn(numbers.len(), |i| numbers[i] != 0)
}
