// Which states lead to which, and the doubts that lost pairs raise.
#![tactic(auto)]

mod lists;

ghost use Rattle.std.specs.Prelude.{◌≡◌, true, false, ℕ, ◌<◌, ◌≤◌, T, length, get_or};
ghost use Rattle.simulation.specs.Limits.{most_states, most_transitions};
ghost use Rattle.simulation.specs.Table.{states_of};
ghost use Rattle.simulation.specs.Complete.{lists};
ghost use Rattle.word.specs.Mask.{member};
ghost use Rattle.set.specs.Words.{mask};
ghost use Rattle.relation.specs.Rows.{height};
ghost use Rattle.relation.specs.Related.{holds};
ghost use Rattle.form.specs.Form.{transitions_of, table_of};
ghost use Rattle.form.specs.Tables.{first_form, second_table, first_step, BothLoaded};
ghost use Rattle.gather.specs.Places.{Places};
ghost use Rattle.links.specs.Links.{Empty, Linked, ListedBefore, Looped, ContractLinked, SetsKnown, Covered, StateLinks, Joins, DoubtsAdded, Doubted};
ghost use Rattle.links.specs.Links.{SameMarks};

use form::{Form, Tables};
pub use lists::{Marks, Sets};
use relation::rows;
use set::Set;
use word::Word;

// The state s comes before t.
fn join(before: &mut [Word], t: usize, s: usize)
    requires { (t < height before.old) × (s < most_states) }
    ensures { Joins s before.old before.new × (holds before.new t s ≡ true) }
{
    rows::put(before, t, rows::get(before, t).insert(s));
}

// The state s comes before each of its targets.
fn link_targets(to: &[u16], s: usize, before: &mut [Word])
    requires { Places (height before.old) to.now × (s < most_states) }
    ensures { Joins s before.old before.new
        × ((i : ℕ) → i < length to.now → holds before.new (get_or to.now i 0) s ≡ true) }
{
    for &target in to {
        join(before, target as usize, s);
    }
}

// The state s comes before each target of its transitions.
fn link_state(form: &Form, s: usize, before: &mut [Word])
    requires { (s < states_of (table_of form.now.numbers.now)) × (most_states ≤ height before.old) }
    ensures { Joins s before.old before.new × StateLinks form.now.numbers.now s before.new }
{
    let start = form.start_of(s);
    let end = form.start_of(s + 1);
    for j in start..end {
        link_targets(form.targets(j), s, before);
    }
}

// For each state of a table, those that have a transition to it. `before` is empty at first.
fn link(form: &Form, before: &mut [Word])
    requires { (most_states ≤ height before.old) × Empty before.old }
    ensures { Linked form.now.numbers.now before.new }
{
    let n = form.states();
    for s in 0..n {
        link_state(form, s, before);
    }
}

// Whether the second table lists the code of the transition j, where it does so for all transitions before it.
fn also_listed(tables: &Tables, j: usize) -> bool
    requires { BothLoaded tables.now × (j < transitions_of (first_form tables.now)) × ListedBefore tables.now j }
    ensures { result ≡ true → T (lists (second_table tables.now).codes (first_step tables.now j).code) }
{
    if tables.first.repeats(0, j) {
        return true;
    }
    let code = tables.first.code(j);
    tables.second.lists(code)
}

// Whether some transition of the first table has a code that the second does not list.
fn has_added(tables: &Tables) -> bool
    requires { BothLoaded tables.now }
    ensures { result ≡ false → ListedBefore tables.now (transitions_of (first_form tables.now)) }
{
    let n = tables.first.start_of(tables.first.states());
    for j in 0..n {
        if !also_listed(tables, j) {
            return true;
        }
    }
    false
}

// Each of the first n states comes before itself.
fn link_loops(n: usize, before: &mut [Word])
    requires { (n ≤ most_states) × (most_states ≤ height before.old) }
    ensures { Looped n before.old before.new }
{
    for s in 0..n {
        join(before, s, s);
    }
}

// For each state of the contract, those that have a transition to it. `behind` is empty at first.
fn link_contract(tables: &Tables, behind: &mut [Word])
    requires { BothLoaded tables.now × (most_states ≤ height behind.old) × Empty behind.old }
    ensures { ContractLinked tables.now behind.new }
{
    link(&tables.second, behind);
    if has_added(tables) {
        link_loops(tables.second.states(), behind);
    }
}

// All sets that are known before the rounds. Those of states are empty at first.
pub fn fill_sets(tables: &Tables, before: &mut [Word], behind: &mut [Word], targets: &mut [Word])
    requires { BothLoaded tables.now × (most_states ≤ height before.old) × (most_states ≤ height behind.old)
        × (most_transitions ≤ height targets.old) × Empty before.old × Empty behind.old }
    ensures { SetsKnown tables.now before.new behind.new targets.new }
{
    link(&tables.first, before);
    link_contract(tables, behind);
    fit::target_sets(tables, targets);
}

// The states behind a member of the set, in the contract.
fn behind_all(set: Set, sets: &Sets) -> Set
    ensures { (u t : ℕ) → member (mask set) u ≡ true → holds sets.now.behind.now u t ≡ true → member (mask result) t ≡ true }
{
    let mut r = Set::empty();
    for u in set {
        r = r.union(rows::get(sets.behind, u));
    }
    r
}

// More doubts in each row of the set.
fn add_doubts(set: Set, more: Set, doubt: &mut [Word])
    requires { most_states ≤ height doubt.old }
    ensures { DoubtsAdded (mask set) (mask more) doubt.old doubt.new }
{
    for s in set {
        rows::put(doubt, s, rows::get(doubt, s).union(more));
    }
}

// The pairs that may fall next: those with a lost pair one transition behind them. The lost pairs are forgotten.
// Returns the rows that have such a pair.
pub fn doubts(marks: &mut Marks, fell: Set, sets: &Sets) -> Set
    requires { Covered (mask fell) marks.old.lost.now }
    ensures { Doubted sets.now (mask result) marks.old marks.new × SameMarks marks.old marks.new }
{
    let mut doubtful = Set::empty();
    for u in fell {
        let sources = rows::get(sets.before, u);
        let lost = &mut *marks.lost;
        let pairs = rows::get(lost, u);
        add_doubts(sources, behind_all(pairs, sets), marks.doubt);
        rows::put(lost, u, Set::empty());
        doubtful = doubtful.union(sources);
    }
    doubtful
}
