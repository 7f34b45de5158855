// The relation of a round between the targets of a transition of each table.
ghost use Rattle.std.specs.Prelude.{◌≤◌, ◌<◌, length};
ghost use Rattle.relation.specs.Rows.{height};
ghost use Rattle.simulation.specs.Table.{targets, states_of};
ghost use Rattle.form.specs.Form.{transitions_of};
ghost use Rattle.form.specs.Tables.{first_form, second_form, contract_table, first_step, second_step};
ghost use Rattle.relate.specs.Rows.{Rows};
ghost use Rattle.relate.specs.Ranked.{RanksRight};

use crate::between;
use form::Tables;
use word::Word;

// Row i of rel becomes that of the target at position i of the transition j, over the targets of the transition k, in the round before round r.
pub fn rows(tables: &Tables, ranks: &[u16], r: u16, j: usize, k: usize, rel: &mut [Word])
    requires { RanksRight tables.now ranks.now × (j < transitions_of (first_form tables.now)) × (k < transitions_of (second_form tables.now))
        × (length (targets (first_step tables.now j)) ≤ height rel.old) }
    ensures { Rows ranks.now (states_of (contract_table tables.now)) r
        (targets (first_step tables.now j)) (targets (second_step tables.now k)) rel.old rel.new }
{
    let width = tables.width();
    let from = tables.first.targets(j);
    let to = tables.second.targets(k);
    between::rows(ranks, width, r, from, to, rel);
}
