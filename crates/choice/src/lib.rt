// The transition of a pair that is not kept, which fits no like-coded transition of the other state, and the sets of its targets.
#![tactic(auto)]

ghost use Rattle.std.specs.Prelude.{◌≡◌, true, not, ◌&&◌, ℕ, pred, ◌+◌, ◌*◌, ◌≤◌, ◌<◌, T, eqb, length, get_or};
ghost use Rattle.simulation.specs.Limits.{most_pairs, most_states};
ghost use Rattle.simulation.specs.Sum.{any};
ghost use Rattle.simulation.specs.Fit.{touched};
ghost use Rattle.simulation.specs.Table.{target_at, states_of};
ghost use Rattle.simulation.specs.Round.{related, round, rank};
ghost use Rattle.simulation.specs.Complete.{lists};
ghost use Rattle.word.specs.Mask.{member};
ghost use Rattle.set.specs.Words.{mask};
ghost use Rattle.relation.specs.Rows.{height};
ghost use Rattle.relation.specs.Related.{holds};
ghost use Rattle.form.specs.Form.{transitions_of, start_of};
ghost use Rattle.form.specs.Tables.{first_form, second_form, first_table, second_table, contract_table, first_step, second_step, BothLoaded};
ghost use Rattle.relate.specs.Ranked.{RanksRight};
ghost use Rattle.fit.specs.Ranked.{InRound};
ghost use Rattle.choice.specs.Choice.{Names, SetsJoined, Parted, PartedAdded, Lost, Choice, SetsChosen, round_fits_some, Tested};

use fit::ranked;
use form::Tables;
use relation::ranks::lasts;
use relation::{Relation, rows};
use set::Set;
use word::Word;

// The rank of the pair (s, t).
pub fn rank_at(tables: &Tables, ranks: &[u16], s: usize, t: usize) -> u16
    requires { BothLoaded tables.now × (s < most_states) × (t < most_states) × (s * states_of (contract_table tables.now) + t < length ranks.now) }
    ensures { result ≡ get_or ranks.now (s * states_of (contract_table tables.now) + t) 0 }
{
    ranks[s * tables.width() + t]
}

// What some row that the set names is related to.
fn reached(rel: &[Word], named: Set) -> Set
    requires { Names (mask named) (height rel.now) }
    ensures { (k : ℕ) → member (mask result) k ≡ touched (height rel.now) (holds rel.now) (member (mask named)) k }
{
    let mut near = Set::empty();
    for i in named {
        near = rows::get(rel, i).union(near);
    }
    near
}

// The targets of the transition k of the second table at the positions that the set doesn't name.
fn other_targets(tables: &Tables, k: usize, named: Set) -> Set
    requires { BothLoaded tables.now × (k < transitions_of (second_form tables.now)) }
    ensures { (u : ℕ) → member (mask result) u ≡ any (length (second_step tables.now k).entries)
        (λ j. eqb (target_at (second_step tables.now k) j) u && not (member (mask named) j)) }
{
    let targets = tables.second.targets(k);
    let mut states = Set::empty();
    for j in Set::below(targets.len()).difference(named) {
        states = states.insert(targets[j] as usize);
    }
    states
}

// Joins a set to each of those that another names.
fn join_sets(sets: &mut [Word], named: Set, more: Set)
    requires { Names (mask named) (height sets.old) }
    ensures { SetsJoined (mask named) (mask more) sets.old sets.new }
{
    for i in named {
        let set = more.union(rows::get(sets, i));
        rows::put(sets, i, set);
    }
}

// The targets of the transition k of the second table that the state s is not related to in the round before round r.
fn unrelated(tables: &Tables, ranks: &[u16], r: u16, s: usize, k: usize) -> Set
    requires { RanksRight tables.now ranks.now × (0 < r) × (s < states_of (first_table tables.now))
        × (k < transitions_of (second_form tables.now)) }
    ensures { (u : ℕ) → member (mask result) u ≡ any (length (second_step tables.now k).entries)
        (λ i. eqb (target_at (second_step tables.now k) i) u && not (related (round (first_table tables.now)
        (contract_table tables.now) (pred r)) s (target_at (second_step tables.now k) i))) }
{
    let targets = tables.second.targets(k);
    let mut apart = Set::empty();
    for &t in targets {
        let t = t as usize;
        let lost = 1 - lasts(rank_at(tables, ranks, s, t), r);
        apart = apart.with_bit(t, lost);
    }
    apart
}

// Whether j, which has one target, fits k, which has its code: it must be related to every target of k. If not, adds to its set those that it is
// not related to.
fn part_lone(tables: &Tables, ranks: &[u16], r: u16, j: usize, k: usize, sets: &mut [Word]) -> bool
    requires { RanksRight tables.now ranks.now × (0 < r) × (j < transitions_of (first_form tables.now))
        × (k < transitions_of (second_form tables.now)) × (length (first_step tables.now j).entries ≡ 1) × (1 ≤ height sets.old)
        × ((first_step tables.now j).code ≡ (second_step tables.now k).code) }
    ensures { Parted (round (first_table tables.now) (contract_table tables.now) (pred r))
        (first_step tables.now j) (second_step tables.now k) result sets.old sets.new }
{
    let s = tables.first.targets(j)[0] as usize;
    let more = unrelated(tables, ranks, r, s, k);
    if more.is_empty() {
        return true;
    }
    rows::put(sets, 0, more.union(rows::get(sets, 0)));
    false
}

// Whether j fits k, which has its code, by a cut. If not, adds to the sets of the targets of j what they must be told apart from among the targets of k.
// The sets have half of the rows; the other half is room for the rows of a relation.
fn part_cut(
    tables: &Tables,
    ranks: &[u16],
    r: u16,
    j: usize,
    k: usize,
    sets: &mut [Word],
    amounts: &mut [u32],
) -> bool
    requires { InRound tables.now ranks.now r j k amounts.old × (2 * most_states ≤ height sets.old)
        × ((first_step tables.now j).code ≡ (second_step tables.now k).code) }
    ensures { Parted (round (first_table tables.now) (contract_table tables.now) (pred r))
        (first_step tables.now j) (second_step tables.now k) result sets.old sets.new }
{
    let rel = &mut sets[Relation::WORDS..2 * Relation::WORDS];
    let named = ranked::round_cut(tables, ranks, r, j, k, rel, amounts);
    if named.is_empty() {
        return true;
    }
    let near = reached(&sets[Relation::WORDS..2 * Relation::WORDS], named);
    let more = other_targets(tables, k, near);
    join_sets(sets, named, more);
    false
}

// The same, where a transition with one target needs no cut.
fn part_sets(
    tables: &Tables,
    ranks: &[u16],
    r: u16,
    j: usize,
    k: usize,
    sets: &mut [Word],
    amounts: &mut [u32],
) -> bool
    requires { InRound tables.now ranks.now r j k amounts.old × (2 * most_states ≤ height sets.old)
        × ((first_step tables.now j).code ≡ (second_step tables.now k).code) }
    ensures { Parted (round (first_table tables.now) (contract_table tables.now) (pred r))
        (first_step tables.now j) (second_step tables.now k) result sets.old sets.new }
{
    if tables.first.targets(j).len() == 1 {
        return part_lone(tables, ranks, r, j, k, sets);
    }
    part_cut(tables, ranks, r, j, k, sets, amounts)
}

// The first listed transition of t that the transition j of s fits in the round before the pair's rank r, if there is one; the second table
// lists the code of j. If j is the one chosen, the sets are those of its targets.
fn find_listed(
    tables: &Tables,
    ranks: &[u16],
    s: usize,
    t: usize,
    r: u16,
    j: usize,
    sets: &mut [Word],
    amounts: &mut [u32],
) -> Option<usize>
    requires { RanksRight tables.now ranks.now × Lost tables.now s t × (r ≡ rank (first_table tables.now) (contract_table tables.now) s t)
        × (start_of (first_form tables.now) s ≤ j) × (j < start_of (first_form tables.now) (s + 1))
        × (2 * most_states ≤ height sets.old) × (most_pairs ≤ length amounts.old)
        × T (lists (second_table tables.now).codes (first_step tables.now j).code) }
    ensures { Tested tables.now s t r j result sets.new }
{
    rows::clear(sets, tables.first.targets(j).len());
    let code = tables.first.code(j);
    let start = tables.second.start_of(t);
    let end = tables.second.start_of(t + 1);
    let mut l = start;
    while let Some(next) = fit::next_coded(tables, code, l, end) {
        if part_sets(tables, ranks, r, j, next, sets, amounts) {
            return Some(next);
        }
        l = next + 1;
    }
    None
}

// Whether j, whose code the second table does not list, fits the transition of t to itself in the round before round r: all its targets must be
// related to t. Each that is not must be told apart from t.
fn part_added(tables: &Tables, ranks: &[u16], t: usize, r: u16, j: usize, sets: &mut [Word]) -> bool
    requires { RanksRight tables.now ranks.now × (0 < r) × (j < transitions_of (first_form tables.now))
        × (t < states_of (contract_table tables.now)) × (most_states ≤ height sets.old) }
    ensures { PartedAdded (round (first_table tables.now) (contract_table tables.now) (pred r))
        (first_step tables.now j) t result sets.new }
{
    let targets = tables.first.targets(j);
    let mut apart: Word = 0;
    for (i, &s) in targets.iter().enumerate() {
        let lost = 1 - lasts(rank_at(tables, ranks, s as usize, t), r);
        rows::put(sets, i, Set::empty().with_bit(t, lost));
        apart += lost;
    }
    apart == 0
}

// A transition of t that the transition j of s fits in the round before the pair's rank r, if it fits one: its number if it is listed, the end of
// the listed ones for the one from t to itself. If j is the one chosen, the sets are those of its targets.
pub fn find_sets(
    tables: &Tables,
    ranks: &[u16],
    s: usize,
    t: usize,
    r: u16,
    j: usize,
    sets: &mut [Word],
    amounts: &mut [u32],
) -> Option<usize>
    requires { RanksRight tables.now ranks.now × Lost tables.now s t × (r ≡ rank (first_table tables.now) (contract_table tables.now) s t)
        × (start_of (first_form tables.now) s ≤ j) × (j < start_of (first_form tables.now) (s + 1))
        × (2 * most_states ≤ height sets.old) × (most_pairs ≤ length amounts.old) }
    ensures { Tested tables.now s t r j result sets.new }
{
    let code = tables.first.code(j);
    if fit::lists_code(tables, t, code) {
        return find_listed(tables, ranks, s, t, r, j, sets, amounts);
    }
    let end = tables.second.start_of(t + 1);
    part_added(tables, ranks, t, r, j, sets).then_some(end)
}

// Whether t has many transitions and j fits l, if it is a listed one of them, in the round before round r, in room for rows of a relation. Where
// there are few, trying them in turn costs less.
fn guessed(
    tables: &Tables,
    ranks: &[u16],
    t: usize,
    r: u16,
    j: usize,
    l: usize,
    rel: &mut [Word],
    amounts: &mut [u32],
) -> bool
    requires { RanksRight tables.now ranks.now × (0 < r) × (j < transitions_of (first_form tables.now)) × (most_pairs ≤ length amounts.old)
        × (most_states ≤ height rel.old) × (t < states_of (contract_table tables.now)) × (start_of (second_form tables.now) t ≤ l) }
    ensures { result ≡ true → round_fits_some tables.now t r j ≡ true }
{
    let end = tables.second.start_of(t + 1);
    if end - tables.second.start_of(t) <= fit::PARTNERS || end <= l {
        return false;
    }
    ranked::fits(tables, ranks, r, j, l, rel, amounts)
}

// The number of the first transition of s that fits none of t with its code, in the round before the pair's rank r, with the sets of its targets.
pub fn choose(
    tables: &Tables,
    ranks: &[u16],
    s: usize,
    t: usize,
    r: u16,
    sets: &mut [Word],
    amounts: &mut [u32],
) -> usize
    requires { RanksRight tables.now ranks.now × Lost tables.now s t × (r ≡ rank (first_table tables.now) (contract_table tables.now) s t)
        × (2 * most_states ≤ height sets.old) × (most_pairs ≤ length amounts.old) }
    ensures { Choice tables.now s t result × SetsChosen tables.now s t sets.new }
{
    let mut j = tables.first.start_of(s);
    let mut fitted = find_sets(tables, ranks, s, t, r, j, sets, amounts);
    while let Some(l) = fitted {
        j += 1;
        if !guessed(tables, ranks, t, r, j, l, sets, amounts) {
            fitted = find_sets(tables, ranks, s, t, r, j, sets, amounts);
        }
    }
    j
}
