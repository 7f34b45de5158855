// Whether a transition of one table fits a transition of the other, or some like-coded transition of a state, in a relation held as rows.
#![tactic(auto)]

pub mod ranked;

ghost use Rattle.std.specs.Prelude.{◌≡◌, true, ◌<◌, ◌≤◌};
ghost use Rattle.simulation.specs.Limits.{most_transitions};
ghost use Rattle.simulation.specs.Table.{targets, states_of, steps};
ghost use Rattle.simulation.specs.Complete.{lists};
ghost use Rattle.set.specs.Words.{mask};
ghost use Rattle.relation.specs.Rows.{height};
ghost use Rattle.form.specs.Form.{transitions_of};
ghost use Rattle.form.specs.Tables.{first_form, second_form, second_table, first_step, BothLoaded};
ghost use Rattle.bounds.specs.Quick.{Bounding};
ghost use Rattle.decision.specs.Fitting.{fitting};
ghost use Rattle.fit.specs.Held.{fits_step_at, coded};
ghost use Rattle.fit.specs.Known.{TargetSets, Lent, Tried, SomeFits};
ghost use Rattle.fit.specs.Partner.{NextCoded, Sought, FirstFit};

pub use bounds::{Bounds, bounds_of};
use form::Tables;
use relation::rows;
use simulation::Table;
use word::Word;

// The set of the targets of each transition of the second table.
pub fn target_sets(tables: &Tables, sets: &mut [Word])
    requires { BothLoaded tables.now × (most_transitions ≤ height sets.old) }
    ensures { TargetSets (second_form tables.now) sets.new }
{
    let n = tables.second.start_of(tables.second.states());
    for l in 0..n {
        let targets = tables.second.targets(l);
        rows::put(sets, l, bounds::set_of(targets));
    }
}

// Whether it fits: what is known of the related states is asked first.
fn fits_known(
    tables: &Tables,
    j: usize,
    l: usize,
    sets: &[Word],
    rows: &[Word],
    amounts: &mut [u32],
    known: Bounds,
) -> bool
    requires { Lent tables.now sets.now rows.now amounts.old × (j < transitions_of (first_form tables.now))
        × (l < transitions_of (second_form tables.now))
        × Bounding rows.now (targets (first_step tables.now j)) (mask known.some) (mask known.every) }
    ensures { result ≡ fitting tables.now rows.now j l }
{
    let to = rows::get(sets, l);
    match known.settle(to) {
        Some(told) => told,
        None => decision::decide(tables, j, l, to, rows, amounts),
    }
}

// The first transition of the second table that has the code, from l on and before the end. Whoever looks for a partner of a transition asks here.
pub fn next_coded(tables: &Tables, code: u16, l: usize, end: usize) -> Option<usize>
    requires { BothLoaded tables.now × (end ≤ transitions_of (second_form tables.now)) }
    ensures { NextCoded tables.now code l end result }
{
    (l..end).find(|k| tables.second.code(*k) == code)
}

// Where more partners than this are left, a guess comes first.
pub const PARTNERS: usize = 16;

// Transition j of the first table fits transition l of the second, which is below the end, and they have the same code. What bounds tell
// is not asked: guesses are few, and a second caller of `fits_known` would keep the compiler from putting it into the loop.
fn fits_guess(
    tables: &Tables,
    j: usize,
    l: usize,
    end: usize,
    sets: &[Word],
    rows: &[Word],
    amounts: &mut [u32],
) -> bool
    requires { Lent tables.now sets.now rows.now amounts.old × (j < transitions_of (first_form tables.now))
        × (end ≤ transitions_of (second_form tables.now)) }
    ensures { result ≡ true → (l < end) × (fits_step_at tables.now rows.now j l ≡ true) }
{
    l < end
        && tables.second.code(l) == tables.first.code(j)
        && decision::decide(tables, j, l, rows::get(sets, l), rows, amounts)
}

// Transition j of the first table fits some listed transition of the state t with the same code. Those known not to be fitted are passed over. The
// partner found last for t is the guess: like-coded transitions of one state often have the same.
pub fn fits_some(
    tables: &Tables,
    j: usize,
    t: usize,
    sets: &[Word],
    rows: &[Word],
    tried: &mut [u8],
    amounts: &mut [u32],
    known: Bounds,
) -> bool
    requires { Lent tables.now sets.now rows.now amounts.old × Tried tables.now rows.now tried.old
        × (j < transitions_of (first_form tables.now)) × (t < states_of (second_table tables.now))
        × Bounding rows.now (targets (first_step tables.now j)) (mask known.some) (mask known.every) }
    ensures { SomeFits tables.now rows.now j t tried.new result }
{
    let place = (j + 1) * Table::STATES + t;
    let start = tables.second.start_of(t);
    let end = tables.second.start_of(t + 1);
    let code = tables.first.code(j);
    let mut l = start + tried[place] as usize;
    if l + PARTNERS < end {
        let guess = start + tried[t] as usize;
        if fits_guess(tables, j, guess, end, sets, rows, amounts) {
            return true;
        }
    }
    while let Some(next) = next_coded(tables, code, l, end) {
        if fits_known(tables, j, next, sets, rows, amounts, known) {
            let at = (next - start) as u8;
            tried[place] = at;
            tried[t] = at;
            return true;
        }
        l = next + 1;
    }
    false
}

// Some transition of the state t has the code: where all states are related it is fitted.
pub fn has_code(tables: &Tables, t: usize, code: u16) -> bool
    requires { BothLoaded tables.now × (t < states_of (second_table tables.now)) }
    ensures { result ≡ coded code (steps (second_table tables.now) t) }
{
    let start = tables.second.start_of(t);
    let end = tables.second.start_of(t + 1);
    next_coded(tables, code, start, end).is_some()
}

// Whether the second table lists the code. A transition of t that has it tells so at once.
pub fn lists_code(tables: &Tables, t: usize, code: u16) -> bool
    requires { BothLoaded tables.now × (t < states_of (second_table tables.now)) }
    ensures { result ≡ lists (second_table tables.now).codes code }
{
    has_code(tables, t, code) || tables.second.lists(code)
}

// The place in t of the first transition that the transition j of the first table fits, of which there is one; the amounts share it out.
pub fn first_fit(tables: &Tables, j: usize, t: usize, rows: &[Word], amounts: &mut [u32]) -> usize
    requires { Sought tables.now rows.now amounts.old j t }
    ensures { FirstFit tables.now rows.now j t result amounts.new }
{
    let start = tables.second.start_of(t);
    let end = tables.second.start_of(t + 1);
    let code = tables.first.code(j);
    let mut l = start;
    while let Some(next) = next_coded(tables, code, l, end) {
        let fits = decision::by_flow(tables, j, next, rows, amounts);
        if fits {
            return next - start;
        }
        l = next + 1;
    }
    unreachable!()
}
