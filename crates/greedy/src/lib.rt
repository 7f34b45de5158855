// What the flow starts from: what there is to send and to take, zeros, and the greedy flow over them.
#![tactic(auto)]

ghost use Rattle.std.specs.Prelude.{◌≡◌, ℕ, ◌+◌, ◌^◌, ◌≤◌, ◌<◌, length, get_or};
ghost use Rattle.simulation.specs.Limits.{most_pairs, most_states, most_total};
ghost use Rattle.simulation.specs.Fit.{total};
ghost use Rattle.set.specs.Words.{mask};
ghost use Rattle.matrix.specs.Matrix.{cell};
ghost use Rattle.matrix.specs.Masks.{MaskOf};
ghost use Rattle.matrix.specs.Flow.{FlowIn, ImprovedIn};
ghost use Rattle.matrix.specs.Held.{held, SameLists};
ghost use Rattle.greedy.specs.Greedy.{CellFilled, RowFilled, Greedy};
ghost use Rattle.greedy.specs.Start.{Supplies, Cleared, Begun};

use matrix::{Flow, marked};
use relation::rows;
use set::Set;
use simulation::Table;
use word::Word;

// The total of a distribution's weights.
pub fn total_weight(weights: &[u16]) -> u32
    requires { length weights.now ≤ most_states }
    ensures { result ≡ total weights.now }
{
    weights.iter().map(|&w| u32::from(w)).sum()
}

// What each target has to send: its weight by the other side's total.
fn supplies(weights: &[u16], other: u32, supply: &mut [u32])
    requires { (length weights.now ≤ length supply.old) × (other ≤ most_total) × (total weights.now ≤ most_total) }
    ensures { Supplies weights.now other (length weights.now) supply.new }
{
    for (i, &w) in weights.iter().enumerate() {
        supply[i] = u32::from(w) * other;
    }
}

// Zeros in the first q cells of the first p rows.
fn clear(amounts: &mut [u32], p: usize, q: usize)
    requires { (p ≤ most_states) × (q ≤ most_states) × (most_pairs ≤ length amounts.old) }
    ensures { Cleared p q amounts.old amounts.new }
{
    for i in 0..p {
        let at = i * Table::STATES;
        amounts[at..at + q].fill(0);
    }
}

// What there is to send and to take, and nothing sent.
pub fn begin(flow: &mut Flow, m: &[u16], n: &[u16])
    requires { (length m.now ≤ most_states) × (length n.now ≤ most_states) × (length m.now ≤ length flow.old.supply.now)
        × (length n.now ≤ length flow.old.demand.now) × (total m.now ≤ most_total) × (total n.now ≤ most_total) }
    ensures begun { Begun m.now n.now flow.old.amounts.now flow.new.amounts.now flow.new.supply.now flow.new.demand.now }
    ensures same_lists { SameLists flow.old flow.new }
    ensures same_senders { flow.new.senders ≡ flow.old.senders }
{
    supplies(m, total_weight(n), flow.supply);
    supplies(n, total_weight(m), flow.demand);
    clear(flow.amounts, m.len(), n.len());
}

// As much as row i has left and column j can take.
fn fill_cell(flow: &mut Flow, i: usize, j: usize)
    requires { (i < most_states) × (j < most_states) × (i < length flow.old.supply.now) × (j < length flow.old.demand.now)
        × (cell flow.old.amounts.now i j + get_or flow.old.supply.now i 0 < 2 ^ 32) }
    ensures filled { CellFilled i j (held flow.old) (held flow.new) }
    ensures same_lists { SameLists flow.old flow.new }
{
    let d = flow.supply[i].min(flow.demand[j]);
    flow.add(i, j, d);
    flow.deduct(i, j, d);
}

// Row i sends to its free columns in turn. Returns the columns that are still free.
fn fill_row(flow: &mut Flow, rel: &[Word], i: usize, free: Set) -> Set
    requires { FlowIn rel.now (held flow.old) × (i < length flow.old.supply.now)
        × MaskOf (length flow.old.demand.now) (λ j. get_or flow.old.demand.now j 0) (mask free)
        × ((j : ℕ) → j < length flow.old.demand.now → cell flow.old.amounts.now i j ≡ 0) }
    ensures filled { ImprovedIn rel.now (held flow.old) (held flow.new)
        × MaskOf (length flow.old.demand.now) (λ j. get_or flow.new.demand.now j 0) (mask result)
        × RowFilled (length flow.old.demand.now) i rel.now flow.old.supply.now flow.old.demand.now
        flow.old.amounts.now flow.new.amounts.now }
    ensures same_lists { SameLists flow.old flow.new }
{
    let mut still = free;
    let near = rows::get(rel, i).intersection(free);
    for j in near {
        fill_cell(flow, i, j);
        still = marked(still, j, flow.demand[j]);
        if flow.supply[i] == 0 {
            return still;
        }
    }
    still
}

// The greedy start, for as many rows and columns as there are supplies and demands. Returns the columns that are still free.
pub fn fill(flow: &mut Flow, rel: &[Word]) -> Set
    requires { FlowIn rel.now (held flow.old)
        × ((i j : ℕ) → i < length flow.old.supply.now → j < length flow.old.demand.now → cell flow.old.amounts.now i j ≡ 0) }
    ensures filled { ImprovedIn rel.now (held flow.old) (held flow.new)
        × MaskOf (length flow.old.demand.now) (λ j. get_or flow.new.demand.now j 0) (mask result)
        × Greedy (length flow.old.supply.now) (length flow.old.demand.now) rel.now
        (λ i. get_or flow.old.supply.now i 0) (λ j. get_or flow.old.demand.now j 0) flow.new.amounts.now }
    ensures same_lists { SameLists flow.old flow.new }
{
    let mut free = flow.free();
    for i in 0..flow.supply.len() {
        free = fill_row(flow, rel, i, free);
    }
    free
}
