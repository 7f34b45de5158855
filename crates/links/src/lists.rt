// Lists of sets, a row to a state or a transition. Each is lent by the caller, and may be longer than its rows.
ghost use Rattle.std.specs.Prelude.{◌≡◌, ◌≤◌};
ghost use Rattle.simulation.specs.Limits.{most_states, most_transitions};
ghost use Rattle.relation.specs.Rows.{height};

use set::Set;
use simulation::Table;
use word::Word;

// Sets that are known before the rounds: the states that lead to each state of the first table, and of the contract, and the targets of
// each transition of the second.
#[derive(Clone, Copy)]
pub struct Sets<'a> {
    pub before: &'a [Word],
    pub behind: &'a [Word],
    pub targets: &'a [Word],
    pub ghost before_rows: { most_states ≤ height before.now },
    pub ghost behind_rows: { most_states ≤ height behind.now },
    pub ghost target_rows: { most_transitions ≤ height targets.now },
}

impl<'a> Sets<'a> {
    pub const TARGETS: usize = Table::TRANSITIONS * Set::WORDS;

    // The sets that these lists hold.
    pub fn new(before: &'a [Word], behind: &'a [Word], targets: &'a [Word]) -> Self
        requires { (most_states ≤ height before.now) × (most_states ≤ height behind.now)
            × (most_transitions ≤ height targets.now) }
        ensures before { result.before.now ≡ before.now }
        ensures behind { result.behind.now ≡ behind.now }
        ensures targets { result.targets.now ≡ targets.now }
    {
        Sets {
            before,
            behind,
            targets,
        }
    }
}

// Sets that a round changes beside the pairs that are left, a row to a state of the first table: the pairs in doubt, and those lost.
#[derive(Drop)]
pub struct Marks<'a> {
    pub doubt: &'a mut [Word],
    pub lost: &'a mut [Word],
    pub ghost doubt_rows: { most_states ≤ height doubt.now },
    pub ghost lost_rows: { most_states ≤ height lost.now },
}
