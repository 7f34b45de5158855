// The north-west corner rule: the first target of one side sends to the first of the other until one of the two is done, and so on.
// It takes no memory and at most one step for each target. It shares two distributions out if it meets related pairs alone; near copies
// mostly pass.
#![tactic(auto)]

ghost use Rattle.std.specs.Prelude.{◌≡◌, true};
ghost use Rattle.simulation.specs.Fit.{fits?};
ghost use Rattle.relation.specs.Rows.{HasRows};
ghost use Rattle.matrix.specs.Problem.{joins};
ghost use Rattle.form.specs.Valid.{AreStates};

use form::Distribution;
use greedy::total_weight;
use relation::rows;
use word::Word;

// Whether the rule meets related pairs alone: then m fits n. The shares of the first i targets of m end at a, of the first j of n at b.
// Pairs that aren't related are no reason to stop: nothing branches on whether a pair is related.
pub fn corner(m: Distribution, n: Distribution, rows: &[Word]) -> bool
    requires { HasRows rows.now m.targets.now × AreStates n.targets.now }
    ensures { result ≡ true → fits? (joins rows.now m.entry.targets.now n.entry.targets.now) m.entry.weights.now n.entry.weights.now ≡ true }
{
    let t = total_weight(m.weights);
    let u = total_weight(n.weights);
    let mut i = 0;
    let mut j = 0;
    let mut a = 0u32;
    let mut b = 0u32;
    let mut related: Word = 1;
    while i < m.weights.len() {
        related &= rows::bit(rows, m.targets[i] as usize, n.targets[j] as usize);
        let x = a + m.weights[i] as u32 * u;
        let y = b + n.weights[j] as u32 * t;
        if x == y {
            i += 1;
            j += 1;
            a = x;
            b = y;
        } else if x < y {
            i += 1;
            a = x;
        } else {
            j += 1;
            b = y;
        }
    }
    related == 1
}
