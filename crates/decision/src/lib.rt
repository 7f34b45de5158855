// Whether a transition of one table fits a transition of the other in a relation held as rows, whatever their codes.
#![tactic(auto)]

ghost use Rattle.std.specs.Prelude.{◌≡◌, ◌≤◌, ◌*◌, ◌/◌, length};
ghost use Rattle.simulation.specs.Limits.{most_states};
ghost use Rattle.simulation.specs.Table.{targets};
ghost use Rattle.set.specs.Words.{words, mask};
ghost use Rattle.relation.specs.Rows.{height};
ghost use Rattle.form.specs.Tables.{first_step, second_step};
ghost use Rattle.bounds.specs.Quick.{SetOf};
ghost use Rattle.decision.specs.Fitting.{fitting, Asked, SharedOut};

use bounds::MANY;
use excess::FEW;
use form::Tables;
use relation::Relation;
use set::Set;
use word::Word;

// Most transitions have no more targets than this: then few rows need to be made.
const FEW_ROWS: usize = 8;

const FEW_WORDS: usize = FEW_ROWS * Set::WORDS;

// Transition j of the first table fits transition l of the second, whatever their codes, by a flow in room for the rows between their targets.
// If it fits, the amounts share it out.
fn flow_over(
    tables: &Tables,
    j: usize,
    l: usize,
    rows: &[Word],
    rel: &mut [Word],
    amounts: &mut [u32],
) -> bool
    requires { Asked tables.now rows.now amounts.old j l × (length (targets (first_step tables.now j)) ≤ height rel.old) }
    ensures { SharedOut tables.now rows.now j l result amounts.new }
{
    let m = tables.first.distribution(j);
    let n = tables.second.distribution(l);
    gather::gather_rows(m.targets, n.targets, rows, rel);
    let flow = transport::maximum_flow(m.weights, n.weights, rel, amounts);
    flow.cut.is_empty()
}

// The same, with so many words for the rows made here.
fn flow_within<const WORDS: usize>(
    tables: &Tables,
    j: usize,
    l: usize,
    rows: &[Word],
    amounts: &mut [u32],
) -> bool
    requires { Asked tables.now rows.now amounts.old j l × (WORDS ≤ most_states * words)
        × (length (targets (first_step tables.now j)) ≤ WORDS / words) }
    ensures { SharedOut tables.now rows.now j l result amounts.new }
{
    let mut rel = [0; WORDS];
    flow_over(tables, j, l, rows, &mut rel, amounts)
}

// The same for any targets: it takes no more room than they need, as far as that is known.
pub fn by_flow(tables: &Tables, j: usize, l: usize, rows: &[Word], amounts: &mut [u32]) -> bool
    requires { Asked tables.now rows.now amounts.old j l }
    ensures { SharedOut tables.now rows.now j l result amounts.new }
{
    if tables.first.targets(j).len() <= FEW_ROWS {
        return flow_within::<FEW_WORDS>(tables, j, l, rows, amounts);
    }
    flow_within::<{ Relation::WORDS }>(tables, j, l, rows, amounts)
}

// Whether it fits: the corner rule shows most fits, and a flow decides the others.
fn corner_or_flow(tables: &Tables, j: usize, l: usize, rows: &[Word], amounts: &mut [u32]) -> bool
    requires { Asked tables.now rows.now amounts.old j l }
    ensures { result ≡ fitting tables.now rows.now j l }
{
    let m = tables.first.distribution(j);
    let n = tables.second.distribution(l);
    corner::corner(m, n, rows) || by_flow(tables, j, l, rows, amounts)
}

// Whether it fits, where there are few targets on a side: all sets of them decide.
fn by_excess(tables: &Tables, j: usize, l: usize, rows: &[Word], amounts: &mut [u32]) -> bool
    requires { Asked tables.now rows.now amounts.old j l }
    ensures { result ≡ fitting tables.now rows.now j l }
{
    let m = tables.first.distribution(j);
    let n = tables.second.distribution(l);
    if m.targets.len() <= FEW {
        return excess::by_rows(m, n, rows);
    }
    if n.targets.len() <= FEW {
        return excess::by_columns(m, n, rows);
    }
    corner_or_flow(tables, j, l, rows, amounts)
}

// Whether it fits, where `to` has the targets of the transition l.
pub fn decide(
    tables: &Tables,
    j: usize,
    l: usize,
    to: Set,
    rows: &[Word],
    amounts: &mut [u32],
) -> bool
    requires { Asked tables.now rows.now amounts.old j l
        × SetOf (targets (second_step tables.now l)) (length (targets (second_step tables.now l))) (mask to) }
    ensures { result ≡ fitting tables.now rows.now j l }
{
    let from = tables.first.targets(j);
    if MANY < from.len() {
        return corner_or_flow(tables, j, l, rows, amounts);
    }
    let met = bounds::meets(from, rows, to);
    met && by_excess(tables, j, l, rows, amounts)
}
