// The ranks of all pairs of states of two tables, round by round.
#![tactic(auto)]

ghost use Rattle.std.specs.Prelude.{◌≡◌, ℕ, ◌+◌, ◌*◌, ◌<◌, ◌≤◌, length, get_or};
ghost use Rattle.simulation.specs.Limits.{most_states, most_transitions};
ghost use Rattle.word.specs.Mask.{both, up_to};
ghost use Rattle.relation.specs.Rows.{height};
ghost use Rattle.relation.specs.Related.{holds};
ghost use Rattle.form.specs.Form.{transitions_of};
ghost use Rattle.form.specs.Tables.{first_form, first_table, contract_table};
ghost use Rattle.rounds.specs.Turns.{Refined};
ghost use Rattle.ranking.specs.Rows.{Zeroed, Ranking, RanksFilled};

use form::Tables;
use links::{Marks, Sets};
use relation::{Relation, rows};
use rounds::Work;
use set::Set;
use simulation::Table;
use word::Word;

// The first p rows, cut to the numbers below q.
fn narrow(rows: &mut [Word], p: usize, q: usize)
    requires { (p ≤ height rows.old) × (q ≤ most_states) }
    ensures { (s t : ℕ) → s < p → holds rows.new s t ≡ both (holds rows.old s) (up_to q) t }
{
    let columns = Set::below(q);
    for s in 0..p {
        rows::put(rows, s, rows::get(rows, s).intersection(columns));
    }
}

// Zeros in the first n places.
fn clear_ranks(ranks: &mut [u16], n: usize)
    requires { n ≤ length ranks.old }
    ensures { Zeroed n ranks.old ranks.new }
{
    ranks[..n].fill(0);
}

// What is found beside the ranks.
#[derive(Clone, Copy)]
pub struct Ranked {
    // the count of rounds: the largest rank
    pub rounds: u16,
    // the count of kept pairs: those of rank 0
    pub kept: u16,
}

// The ranks, where nothing was tried. The rows, which are full before, hold the kept pairs after. Returns the count of rounds.
fn fill_ranks(
    tables: &Tables,
    ranks: &mut [u16],
    rows: &mut [Word],
    tried: &mut [u8],
    amounts: &mut [u32],
) -> u16
    requires { Ranking tables.now ranks.old rows.old amounts.old
        × ((transitions_of (first_form tables.now) + 1) * most_states ≤ length tried.old) × ((i : ℕ) → get_or tried.old i 0 ≡ 0) }
    ensures { Refined (first_table tables.now) (contract_table tables.now)
        ranks.old ranks.new rows.new result }
{
    let mut before = [0; Relation::WORDS];
    let mut behind = [0; Relation::WORDS];
    let mut targets = [0; Sets::TARGETS];
    let mut marks = Marks {
        doubt: &mut [0; Relation::WORDS],
        lost: &mut [0; Relation::WORDS],
    };
    let p = tables.first.states();
    let q = tables.width();
    clear_ranks(ranks, p * q);
    narrow(rows, p, q);
    links::fill_sets(tables, &mut before, &mut behind, &mut targets);
    let sets = Sets::new(&before, &behind, &targets);
    let mut work = Work {
        tables,
        ranks,
        sets: &sets,
        rows,
        marks: &mut marks,
        tried,
        amounts,
    };
    work.refine()
}

// The ranks of all pairs of states, with room for N counts of what was tried.
fn rank_with<const N: usize>(
    tables: &Tables,
    ranks: &mut [u16],
    rows: &mut [Word],
    amounts: &mut [u32],
) -> Ranked
    requires { Ranking tables.now ranks.old rows.old amounts.old
        × ((transitions_of (first_form tables.now) + 1) * most_states ≤ N) × (N ≤ (most_transitions + 1) * most_states) }
    ensures { RanksFilled tables.now ranks.old ranks.new rows.new result.rounds result.kept }
{
    let mut tried = [0; N];
    let rounds = fill_ranks(tables, ranks, rows, &mut tried, amounts);
    let kept = rows::count(rows, tables.first.states());
    Ranked {
        rounds: rounds,
        kept: kept as u16,
    }
}

// A table with no more transitions than this has a short list of what was tried: most of the work of a small check would else be to
// clear a long one.
const FEW: usize = 15;

// Room for what was tried of a table with few transitions, and of any.
const FEW_TRIED: usize = (FEW + 1) * Table::STATES;

const MOST_TRIED: usize = (Table::TRANSITIONS + 1) * Table::STATES;

// The ranks of all pairs of states, row by row from the start of `ranks`. The rows, which are full before, hold the kept pairs after.
// `amounts` is working memory for flows.
pub fn rank(tables: &Tables, ranks: &mut [u16], rows: &mut [Word], amounts: &mut [u32]) -> Ranked
    requires { Ranking tables.now ranks.old rows.old amounts.old }
    ensures { RanksFilled tables.now ranks.old ranks.new rows.new result.rounds result.kept }
{
    let n = tables.first.start_of(tables.first.states());
    if n <= FEW {
        return rank_with::<FEW_TRIED>(tables, ranks, rows, amounts);
    }
    rank_with::<MOST_TRIED>(tables, ranks, rows, amounts)
}
