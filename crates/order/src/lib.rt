// The pairs that a tree meets, listed from its root down, rank by rank: the pairs below a pair have a lower rank. Each pair is looked at once,
// and the transition chosen for it is noted, so that it need not be searched for again.
#![tactic(auto)]

ghost use Rattle.std.specs.Prelude.{◌≤◌, length};
ghost use Rattle.simulation.specs.Round.{pairs};
ghost use Rattle.form.specs.Tables.{first_table, contract_table, BothLoaded};
ghost use Rattle.choice.specs.Choice.{Lost};
ghost use Rattle.counting.specs.Count.{OneCounted};
ghost use Rattle.passing.specs.Passing.{OrderGiven, Walking};
ghost use Rattle.order.specs.Order.{PairsListed, RankPassed, RanksPassed};

use choice::rank_at;
use counting::count::LONGEST;
use counting::pair::number;
use form::Tables;
use passing::{Trail, Walk};
use relation::{Relation, rows};
use set::Set;
use simulation::Table;
use word::Word;

// The pairs of a rank, where none of a higher rank is left.
fn pass_rank(trail: &mut Trail, tables: &Tables, ranks: &[u16], rank: u16)
    requires { Walking tables.now ranks.now rank trail.old }
    ensures { RankPassed tables.now rank trail.old trail.new }
{
    for s in trail.walk.rows {
        trail.pass_row(tables, ranks, rank, s);
    }
}

// All pairs, from a rank down, unless the bytes counted become too many.
fn pass_ranks(trail: &mut Trail, tables: &Tables, ranks: &[u16], from: u16)
    requires { Walking tables.now ranks.now from trail.old }
    ensures { RanksPassed tables.now trail.old trail.new }
{
    for rank in (1..=from).rev() {
        pass_rank(trail, tables, ranks, rank);
        if LONGEST < trail.walk.bytes {
            return;
        }
    }
}

// Every count is 0 but that of the pair (s, t), which is 1.
fn count_one(tables: &Tables, s: usize, t: usize, counts: &mut [u32])
    requires { BothLoaded tables.now × Lost tables.now s t × (pairs (first_table tables.now) (contract_table tables.now) ≤ length counts.old) }
    ensures { OneCounted tables.now s t counts.new }
{
    let all = tables.first.states() * tables.width();
    counts[..all].fill(0);
    let p = number(tables, s, t);
    counts[p] = 1;
}

// Lists the pairs that the tree of (s, t) meets, which is not kept, each before all pairs below it, and notes their transitions.
// Returns how many there are, unless the tree is too long. What the counts hold at first and in the end is free.
pub fn list(
    tables: &Tables,
    ranks: &[u16],
    s: usize,
    t: usize,
    order: &mut [u16],
    choices: &mut [u8],
    counts: &mut [u32],
    amounts: &mut [u32],
) -> Option<usize>
    requires { OrderGiven tables.now ranks.now order.old choices.old amounts.old × Lost tables.now s t
        × (pairs (first_table tables.now) (contract_table tables.now) ≤ length counts.old) }
    ensures { PairsListed tables.now s t order.new choices.new result }
{
    let mut todo: [Word; Relation::WORDS] = [1; Relation::WORDS];
    rows::clear(&mut todo, Table::STATES);
    rows::put(&mut todo, s, Set::single(t));
    let mut sets: [Word; 2 * Relation::WORDS] = [1; 2 * Relation::WORDS];
    count_one(tables, s, t, counts);
    let mut trail = Trail {
        order,
        choices,
        counts,
        todo: &mut todo,
        sets: &mut sets,
        amounts,
        walk: Walk {
            bytes: 1,
            count: 0,
            rows: Set::single(s),
        },
    };
    pass_ranks(&mut trail, tables, ranks, rank_at(tables, ranks, s, t));
    let all = trail.walk;
    if LONGEST < all.bytes {
        return None;
    }
    Some(all.count)
}
