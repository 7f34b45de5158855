// The states of the contract that lack a code.
#![tactic(auto)]

ghost use Rattle.std.specs.Prelude.{◌≡◌, ◌<◌, T};
ghost use Rattle.simulation.specs.Table.{states_of};
ghost use Rattle.simulation.specs.Complete.{lists};
ghost use Rattle.word.specs.Mask.{member};
ghost use Rattle.set.specs.Words.{mask};
ghost use Rattle.form.specs.Tables.{first_table, second_table, contract_table, BothLoaded};
ghost use Rattle.lacking.specs.Lacking.{lacks, lacks_one};

use form::Tables;
use set::Set;

// The states of the second table that lack the code.
fn lacking(tables: &Tables, code: u16) -> Set
    requires { BothLoaded tables.now }
    ensures { member (mask result) ≡ lacks (second_table tables.now) code }
{
    let states = tables.second.states();
    Set::from_fn(states, |t| !fit::has_code(tables, t, code))
}

// The states of the contract that lack a code of the first table: none, if the second table does not list it.
fn unanswered(tables: &Tables, code: u16) -> Set
    requires { BothLoaded tables.now × T (lists (first_table tables.now).codes code) }
    ensures { member (mask result) ≡ lacks (contract_table tables.now) code }
{
    if tables.second.lists(code) {
        return lacking(tables, code);
    }
    Set::empty()
}

// The states of the contract that lack a code of the state s.
pub fn lacking_one(tables: &Tables, s: usize) -> Set
    requires { BothLoaded tables.now × (s < states_of (first_table tables.now)) }
    ensures { member (mask result) ≡ lacks_one (first_table tables.now) (contract_table tables.now) s }
{
    let start = tables.first.start_of(s);
    let end = tables.first.start_of(s + 1);
    let mut without = Set::empty();
    for j in start..end {
        if !tables.first.repeats(start, j) {
            let code = tables.first.code(j);
            without = without.union(unanswered(tables, code));
        }
    }
    without
}
