// The check of two loaded tables: ranks for all pairs, then a flow or a tree for the chosen one.
// What the array lent as room holds is free. It is made of ones, which the compiler writes in words, where zeros become a call of memset.
#![tactic(auto)]

ghost use Rattle.std.specs.Prelude.{◌≡◌, ◌≤◌, ◌<◌, length};
ghost use Rattle.simulation.specs.Limits.{most_pairs};
ghost use Rattle.form.specs.Tables.{first_table, contract_table, listed_steps, BothLoaded};
ghost use Rattle.answer.specs.Refused.{answer_of};
ghost use Rattle.witness.specs.Shown.{room_asked};
ghost use Rattle.compare.specs.Outcome.{lent, left};
ghost use Rattle.compare.specs.Steps.{Chosen, PairRanked, found_answer, Compared};

use answer::{Answer, Refusal};
use form::Tables;
use ranking;
use relation::{Relation, ranks};
use simulation::Table;

// The answer of an accepted call, but for what is written.
fn found(ranks: &[u16], place: usize, rounds: u16, kept: u16) -> Answer
    requires { (place < length ranks.now) × (0 < length ranks.now) }
    ensures { result ≡ found_answer ranks.now place rounds kept }
{
    let start = ranks[0];
    let chosen = ranks[place];
    Answer {
        number: 0,
        table: 0,
        needed: 0,
        rounds: rounds as u32,
        kept: kept as u32,
        verdict: ranks::kept(start),
        rank: chosen as u32,
        written: 0,
    }
}

// Ranks for all pairs, and the flow of (s, t) if it is kept. If it is not, the answer says all but what will be written. Its rank tells
// which: a kept pair has 0.
// This is apart from `show` so that the rows are gone before a tree is written: its arrays then lie in their place on the stack.
fn rank_pairs(
    tables: &Tables,
    s: usize,
    t: usize,
    ranks: &mut [u16],
    amounts: &mut [u32],
    flow: &mut [u8],
) -> Result<Answer, Refusal>
    requires { Chosen tables.now ranks.old s t × (most_pairs ≤ length amounts.old) }
    ensures { PairRanked (first_table tables.now) (contract_table tables.now) (room_asked tables.now s)
        (listed_steps tables.now t) s t result
        ranks.old ranks.new flow.old flow.new }
{
    let all = Relation::full();
    let mut rows = all.rows;
    let r = ranking::rank(tables, ranks, &mut rows, amounts);
    let place = s * tables.width() + t;
    let a = found(ranks, place, r.rounds, r.kept);
    if ranks[place] == 0 {
        return witness::show_flow(tables, &rows, s, t, a, amounts, flow);
    }
    Ok(a)
}

// Ranks for all pairs, then what there is to show of (s, t).
fn show(
    tables: &Tables,
    s: usize,
    t: usize,
    ranks: &mut [u16],
    flow: &mut [u8],
    tree: &mut [u8],
) -> Result<Answer, Refusal>
    requires { Chosen tables.now ranks.old s t }
    ensures { Compared (first_table tables.now) (contract_table tables.now) (room_asked tables.now s)
        (listed_steps tables.now t) s t
        (lent ranks.old flow.old tree.old) (left (answer_of result) (lent ranks.new flow.new tree.new)) }
{
    let mut amounts = [1u32; Table::PAIRS];
    let a = rank_pairs(tables, s, t, ranks, &mut amounts, flow)?;
    if a.rank == 0 {
        return Ok(a);
    }
    witness::show_tree(tables, ranks, s, t, a, &mut amounts, tree)
}

// The same for any (s, t) and any room for ranks. A pair outside is refused before short ranks.
fn show_any(
    tables: &Tables,
    s: usize,
    t: usize,
    ranks: &mut [u16],
    flow: &mut [u8],
    tree: &mut [u8],
) -> Result<Answer, Refusal>
    requires { BothLoaded tables.now }
    ensures { Compared (first_table tables.now) (contract_table tables.now) (room_asked tables.now s)
        (listed_steps tables.now t) s t
        (lent ranks.old flow.old tree.old) (left (answer_of result) (lent ranks.new flow.new tree.new)) }
{
    let p = tables.first.states();
    let q = tables.width();
    let pairs = p * q;
    if p <= s || q <= t {
        return Err(Refusal::OutsidePair);
    }
    if ranks.len() < pairs {
        return Err(Refusal::ShortRanks(pairs as u32));
    }
    show(tables, s, t, ranks, flow, tree)
}

// The check of two loaded tables.
pub fn compare_tables(
    tables: &Tables,
    s: usize,
    t: usize,
    ranks: &mut [u16],
    flow: &mut [u8],
    tree: &mut [u8],
) -> Answer
    requires { BothLoaded tables.now }
    ensures { Compared (first_table tables.now) (contract_table tables.now) (room_asked tables.now s)
        (listed_steps tables.now t) s t
        (lent ranks.old flow.old tree.old) (left result (lent ranks.new flow.new tree.new)) }
{
    match show_any(tables, s, t, ranks, flow, tree) {
        Ok(a) => a,
        Err(refusal) => refusal.into(),
    }
}
