// The tree of a pair that is not kept: measured, and written if it is short enough and there is room for it.
// What the arrays lent as room hold is free. Each is made in the function that lends it, since returning it would copy it, and of ones,
// which the compiler writes in words, where zeros become a call of memset.
#![tactic(auto)]

ghost use Rattle.std.specs.Prelude.{◌≡◌, ◌≤◌, length};
ghost use Rattle.simulation.specs.Limits.{most_pairs};
ghost use Rattle.simulation.specs.Round.{pairs};
ghost use Rattle.form.specs.Tables.{first_table, contract_table, BothLoaded};
ghost use Rattle.relate.specs.Ranked.{RanksRight};
ghost use Rattle.choice.specs.Choice.{Lost};
ghost use Rattle.measure.specs.Lengths.{TreeMeasured};
ghost use Rattle.pair_tree.specs.Put.{TreePut};

use answer::Refusal;
use form::Tables;
use simulation::Table;
use tree::write::{Source, tree};

// The most pairs that a short order has room for. It lies beside the long one on the stack, so it is shorter than the other arrays for few pairs.
const SHORT_ORDER: usize = 256;

// How many pairs of states there are.
fn pairs(tables: &Tables) -> usize
    requires { BothLoaded tables.now }
    ensures { result ≡ pairs (first_table tables.now) (contract_table tables.now) }
{
    tables.first.states() * tables.width()
}

// How many bytes the tree of the pair takes, if it is not too long, with the transitions and the lengths of the pairs that it meets. Their order
// lives here only.
fn tree_length(
    tables: &Tables,
    ranks: &[u16],
    s: usize,
    t: usize,
    choices: &mut [u8],
    lengths: &mut [u32],
    amounts: &mut [u32],
) -> Option<u32>
    requires { RanksRight tables.now ranks.now × Lost tables.now s t × (most_pairs ≤ length amounts.old)
        × (pairs (first_table tables.now) (contract_table tables.now) ≤ length choices.old)
        × (pairs (first_table tables.now) (contract_table tables.now) ≤ length lengths.old) }
    ensures { TreeMeasured tables.now choices.new lengths.new s t result }
{
    if pairs(tables) <= SHORT_ORDER {
        let mut order = [1u16; SHORT_ORDER];
        return measure::tree_length(tables, ranks, s, t, &mut order, choices, lengths, amounts);
    }
    let mut order = [1u16; Table::PAIRS];
    measure::tree_length(tables, ranks, s, t, &mut order, choices, lengths, amounts)
}

// Writes the tree of a pair that is not kept, if it is short enough and there is room for it, and returns its length.
// Choices and lengths have room for all pairs.
fn put_tree_in(
    tables: &Tables,
    ranks: &[u16],
    s: usize,
    t: usize,
    choices: &mut [u8],
    lengths: &mut [u32],
    amounts: &mut [u32],
    buf: &mut [u8],
) -> Result<u32, Refusal>
    requires { RanksRight tables.now ranks.now × Lost tables.now s t × (most_pairs ≤ length amounts.old)
        × (pairs (first_table tables.now) (contract_table tables.now) ≤ length choices.old)
        × (pairs (first_table tables.now) (contract_table tables.now) ≤ length lengths.old) }
    ensures { TreePut (first_table tables.now) (contract_table tables.now) s t result buf.old buf.new }
{
    let Some(len) = tree_length(tables, ranks, s, t, choices, lengths, amounts) else {
        return Err(Refusal::LongTree);
    };
    if buf.len() < len as usize {
        return Err(Refusal::ShortTree(len));
    }
    let src = Source {
        tables,
        ranks,
        choices,
        lengths,
    };
    tree(&src, s, t, amounts, buf);
    Ok(len)
}

// The same in room for N pairs, which are all.
fn put_tree_of<const N: usize>(
    tables: &Tables,
    ranks: &[u16],
    s: usize,
    t: usize,
    amounts: &mut [u32],
    buf: &mut [u8],
) -> Result<u32, Refusal>
    requires { RanksRight tables.now ranks.now × Lost tables.now s t × (most_pairs ≤ length amounts.old)
        × (pairs (first_table tables.now) (contract_table tables.now) ≤ N) × (N ≤ most_pairs) }
    ensures { TreePut (first_table tables.now) (contract_table tables.now) s t result buf.old buf.new }
{
    let mut choices = [1u8; N];
    let mut lengths = [1u32; N];
    put_tree_in(
        tables,
        ranks,
        s,
        t,
        &mut choices,
        &mut lengths,
        amounts,
        buf,
    )
}

// The same for any tables.
pub fn put_tree(
    tables: &Tables,
    ranks: &[u16],
    s: usize,
    t: usize,
    amounts: &mut [u32],
    buf: &mut [u8],
) -> Result<u32, Refusal>
    requires { RanksRight tables.now ranks.now × Lost tables.now s t × (most_pairs ≤ length amounts.old) }
    ensures { TreePut (first_table tables.now) (contract_table tables.now) s t result buf.old buf.new }
{
    if pairs(tables) <= Table::FEW_PAIRS {
        return put_tree_of::<{ Table::FEW_PAIRS }>(tables, ranks, s, t, amounts, buf);
    }
    put_tree_of::<{ Table::PAIRS }>(tables, ranks, s, t, amounts, buf)
}
