// A pair of states by its number: s times the states of the second table, and t.
ghost use Rattle.std.specs.Prelude.{◌≡◌, ◌+◌, ◌<◌};
ghost use Rattle.simulation.specs.Limits.{most_states, most_pairs};
ghost use Rattle.form.specs.Tables.{BothLoaded};
ghost use Rattle.counting.specs.Pair.{number};

use form::Tables;

// The number of the pair (s, t).
pub fn number(tables: &Tables, s: usize, t: usize) -> usize
    requires { BothLoaded tables.now × (s < most_states) × (t < most_states) }
    ensures { (result ≡ number tables.now s t) × (result < most_pairs + most_states) }
{
    s * tables.width() + t
}
