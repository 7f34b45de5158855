// The cut of two distributions, mostly without a flow: where the rows that lack a column have the same columns.
#![tactic(auto)]

ghost use Rattle.std.specs.Prelude.{◌≡◌, true, ℕ, ◌+◌, ◌≤◌, ◌<◌, length};
ghost use Rattle.simulation.specs.Limits.{most_states, most_total};
ghost use Rattle.simulation.specs.Fit.{Positive, total, weight_of};
ghost use Rattle.word.specs.Mask.{member, «up_to»};
ghost use Rattle.set.specs.Words.{mask};
ghost use Rattle.relation.specs.Rows.{height};
ghost use Rattle.matrix.specs.Problem.{Given};
ghost use Rattle.cut.specs.Quick.{CutOf, Lacking, IsCut, heavier};

use greedy::total_weight;
use relation::rows;
use set::Set;
use transport::maximum_flow;
use word::Word;

// The rows that lack a column, the columns that one of them has, and the columns that one of them lacks.
#[derive(Clone, Copy)]
struct Short {
    rows: Set,
    has: Set,
    lacks: Set,
}

// Row i too; all has the columns. Only the contract reads q.
fn with_row(s: Short, rel: &[Word], q: usize, i: usize, all: Set) -> Short
    requires { (i < most_states) × (i < height rel.now) × (member (mask all) ≡ up_to q)
        × Lacking rel.now i q (mask s.rows) (mask s.has) (mask s.lacks) }
    ensures { Lacking rel.now (i + 1) q (mask result.rows) (mask result.has) (mask result.lacks) }
{
    let gap = all.difference(rows::get(rel, i));
    if gap.is_empty() {
        return s;
    }
    let row = all.intersection(rows::get(rel, i));
    Short {
        rows: s.rows.insert(i),
        has: row.union(s.has),
        lacks: gap.union(s.lacks),
    }
}

// Of the first p rows and q columns.
fn short_rows(rel: &[Word], p: usize, q: usize) -> Short
    requires { (p ≤ most_states) × (q ≤ most_states) × (p ≤ height rel.now) }
    ensures { Lacking rel.now p q (mask result.rows) (mask result.has) (mask result.lacks) }
{
    let all = Set::below(q);
    let mut s = Short {
        rows: Set::empty(),
        has: Set::empty(),
        lacks: Set::empty(),
    };
    for i in 0..p {
        s = with_row(s, rel, q, i, all);
    }
    s
}

// The rows that lack a column have none, or they are all rows and have the same columns.
fn is_cut(s: Short, p: usize) -> bool
    requires { p ≤ most_states }
    ensures { result ≡ true → IsCut p (mask s.rows) (mask s.has) (mask s.lacks) }
{
    if s.has.is_empty() {
        return true;
    }
    if !s.has.intersection(s.lacks).is_empty() {
        return false;
    }
    Set::below(p).difference(s.rows).is_empty()
}

// What the members of a set of places weigh together.
fn weight_of(weights: &[u16], named: Set) -> u32
    requires { (length weights.now ≤ most_states) × ((i : ℕ) → member (mask named) i ≡ true → i < length weights.now) }
    ensures { result ≡ weight_of weights.now (member (mask named)) }
{
    let mut sum = 0u32;
    for i in named {
        sum += weights[i] as u32;
    }
    sum
}

// The rows that lack a column have the same columns: they are the cut if they have more to send than those can take, and else m fits n.
fn by_weight(m: &[u16], n: &[u16], s: Short) -> Set
    requires { (length m.now ≤ most_states) × (length n.now ≤ most_states) × (total m.now ≤ most_total) × (total n.now ≤ most_total)
        × ((i : ℕ) → member (mask s.rows) i ≡ true → i < length m.now) × ((j : ℕ) → member (mask s.has) j ≡ true → j < length n.now) }
    ensures { mask result ≡ heavier m.now n.now (mask s.rows) (mask s.has) }
{
    if weight_of(n, s.has) * total_weight(m) < weight_of(m, s.rows) * total_weight(n) {
        return s.rows;
    }
    Set::empty()
}

// 01's smallest of the sets with the largest excess: empty exactly if m fits n. amounts is what a flow works in.
pub fn smallest_cut(m: &[u16], n: &[u16], rel: &[Word], amounts: &mut [u32]) -> Set
    requires { Given m.now n.now rel.now amounts.old × Positive m.now × Positive n.now }
    ensures { CutOf m.now n.now rel.now (mask result) }
{
    let p = m.len();
    let s = short_rows(rel, p, n.len());
    if is_cut(s, p) {
        return s.rows;
    }
    if s.has.intersection(s.lacks).is_empty() {
        return by_weight(m, n, s);
    }
    maximum_flow(m, n, rel, amounts).cut
}
