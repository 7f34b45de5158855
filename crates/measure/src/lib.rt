// How many bytes a tree takes: the lengths of the pairs that it meets, from the pairs with none below them up.
#![tactic(auto)]

ghost use Rattle.std.specs.Prelude.{◌≡◌, ◌+◌, ◌≤◌, ◌<◌, min, length, get_or};
ghost use Rattle.simulation.specs.Limits.{most_pairs, most_states};
ghost use Rattle.simulation.specs.Table.{states_of};
ghost use Rattle.simulation.specs.Round.{pairs};
ghost use Rattle.simulation.specs.Length.{pair_length};
ghost use Rattle.word.specs.Mask.{member};
ghost use Rattle.set.specs.Words.{mask};
ghost use Rattle.form.specs.Tables.{first_table, contract_table, BothLoaded};
ghost use Rattle.relate.specs.Ranked.{RanksRight};
ghost use Rattle.choice.specs.Choice.{Lost, Choice};
ghost use Rattle.counting.specs.Pair.{number};
ghost use Rattle.counting.specs.Count.{longest};
ghost use Rattle.passing.specs.Passing.{OrderGiven, PairNoted};
ghost use Rattle.order.specs.Order.{Ordered};
ghost use Rattle.measure.specs.Lengths.{most, set_length, SumGiven, children_length, most_children, ChildrenGiven, MeasureGiven, PairGiven};
ghost use Rattle.measure.specs.Lengths.{AllHold, NotAbove, TreeMeasured};

use choice::{find_sets, rank_at};
use counting::count::{HEAD, LONGEST};
use counting::pair::number;
use form::Tables;
use order::list;
use relation::{Relation, rows};
use set::Set;
use word::Word;

// A longer length is given as this number.
pub const MOST: u32 = 4_294_967_295;

// How many bytes the transition of the pair (s, t) takes.
pub fn pair_length(tables: &Tables, lengths: &[u32], s: usize, t: usize) -> usize
    requires { BothLoaded tables.now × (s < most_states) × (t < most_states) × (number tables.now s t < length lengths.now) }
    ensures { result ≡ get_or lengths.now (number tables.now s t) 0 }
{
    lengths[number(tables, s, t)] as usize
}

// How many bytes the node of a state and a set takes.
pub fn node_length(tables: &Tables, lengths: &[u32], s: usize, members: Set) -> usize
    requires { SumGiven tables.now lengths.now s (mask members) }
    ensures { result ≡ 1 + set_length (states_of (contract_table tables.now)) lengths.now s (member (mask members)) }
{
    let mut len = 1;
    for t in members {
        len += pair_length(tables, lengths, s, t);
    }
    len
}

// The bytes of a transition's children.
fn children_length(tables: &Tables, lengths: &[u32], targets: &[u16], sets: &[Word]) -> usize
    requires { ChildrenGiven tables.now lengths.now targets.now sets.now }
    ensures { (result ≡ children_length (states_of (contract_table tables.now)) lengths.now targets.now sets.now
        (length targets.now)) × (result ≤ most_children) }
{
    let mut len = 0;
    for (i, &s) in targets.iter().enumerate() {
        len += 3 + node_length(tables, lengths, s as usize, rows::get(sets, i));
    }
    len
}

// The length of the pair (s, t), whose transition is j, from those of the pairs below it.
fn measure_pair(
    tables: &Tables,
    ranks: &[u16],
    s: usize,
    t: usize,
    j: usize,
    lengths: &[u32],
    sets: &mut [Word],
    amounts: &mut [u32],
) -> u32
    requires { PairGiven tables.now ranks.now lengths.now sets.old amounts.old s t × Choice tables.now s t j }
    ensures { result ≡ min most (pair_length (first_table tables.now) (contract_table tables.now) s t) }
{
    let r = rank_at(tables, ranks, s, t);
    find_sets(tables, ranks, s, t, r, j, sets, amounts);
    let len = HEAD + children_length(tables, lengths, tables.first.targets(j), sets);
    len.min(MOST as usize) as u32
}

// The lengths of the pairs of the list, in which each pair is before all pairs below it.
fn measure(
    tables: &Tables,
    ranks: &[u16],
    order: &[u16],
    choices: &[u8],
    lengths: &mut [u32],
    sets: &mut [Word],
    amounts: &mut [u32],
)
    requires { MeasureGiven tables.now ranks.now lengths.old sets.old amounts.old
        × Ordered tables.now order.now (length order.now) × PairNoted tables.now order.now (length order.now) choices.now
        × (pairs (first_table tables.now) (contract_table tables.now) ≤ length choices.now) }
    ensures { AllHold tables.now order.now lengths.new (length order.now) }
{
    let width = tables.width();
    for &p in order.iter().rev() {
        let p = p as usize;
        let j = choices[p] as usize;
        let len = measure_pair(
            tables,
            ranks,
            p / width,
            p % width,
            j,
            lengths,
            sets,
            amounts,
        );
        lengths[p] = len;
    }
}

// The same, with the sets made here: what lies in the frame of a function with one caller shares its place with what was there before.
fn measure_all(
    tables: &Tables,
    ranks: &[u16],
    order: &[u16],
    choices: &[u8],
    lengths: &mut [u32],
    amounts: &mut [u32],
)
    requires { RanksRight tables.now ranks.now × (pairs (first_table tables.now) (contract_table tables.now) ≤ length lengths.old)
        × (most_pairs ≤ length amounts.old) × Ordered tables.now order.now (length order.now)
        × PairNoted tables.now order.now (length order.now) choices.now
        × (pairs (first_table tables.now) (contract_table tables.now) ≤ length choices.now) }
    ensures { AllHold tables.now order.now lengths.new (length order.now) }
{
    let mut sets: [Word; 2 * Relation::WORDS] = [1; 2 * Relation::WORDS];
    measure(tables, ranks, order, choices, lengths, &mut sets, amounts);
}

// The bytes of the tree of the pair (s, t), a count and the pair's transition, if they are not too many.
fn root_length(tables: &Tables, lengths: &[u32], s: usize, t: usize) -> Option<u32>
    requires { BothLoaded tables.now × (s < most_states) × (t < most_states) × (number tables.now s t < length lengths.now) }
    ensures { NotAbove longest (1 + get_or lengths.now (number tables.now s t) 0) result }
{
    let len = lengths[number(tables, s, t)];
    if LONGEST <= len {
        return None;
    }
    Some(len + 1)
}

// How many bytes the tree of the pair (s, t) takes, which is not kept, if it is not too long.
// The transitions and the lengths of the pairs that it meets are noted for the writing of it.
pub fn tree_length(
    tables: &Tables,
    ranks: &[u16],
    s: usize,
    t: usize,
    order: &mut [u16],
    choices: &mut [u8],
    lengths: &mut [u32],
    amounts: &mut [u32],
) -> Option<u32>
    requires { OrderGiven tables.now ranks.now order.old choices.old amounts.old × Lost tables.now s t
        × (pairs (first_table tables.now) (contract_table tables.now) ≤ length lengths.old) }
    ensures { TreeMeasured tables.now choices.new lengths.new s t result }
{
    let n = list(tables, ranks, s, t, order, choices, lengths, amounts)?;
    measure_all(tables, ranks, &order[..n], choices, lengths, amounts);
    root_length(tables, lengths, s, t)
}
