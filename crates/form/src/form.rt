// A table in its decoded form, and where its parts begin.
ghost use Rattle.std.specs.Prelude.{◌≡◌, true, pred, ℕ, ◌+◌, ◌≤◌, ◌<◌, length, get_or};
ghost use Rattle.simulation.specs.Table.{weights, targets, states_of};
ghost use Rattle.simulation.specs.Complete.{lists};
ghost use Rattle.form.specs.Form.{form_size, at, start_of, transitions_of, entries_listed, column_of, transition_at, table_of, Loaded, Span};
ghost use Rattle.form.specs.Valid.{AreStates};

use crate::Distribution;
use simulation::Table;

#[derive(Clone, Copy)]
pub struct Form<'a> {
    pub numbers: &'a [u16],
    pub ghost loaded: { ∥ Loaded numbers.now ∥₁ },
}

impl Form<'_> {
    // The count of states.
    pub const STATES_AT: usize = 0;

    // The count of the codes listed.
    pub const ACTIONS_AT: usize = 1;

    // For each state its first transition, and after the last state the count of transitions.
    pub const STARTS_AT: usize = 2;

    // For each transition how many entries it lists, those of weight 0 with them: a flow buffer is asked for all of them.
    pub const ENTRIES_LISTED_AT: usize = Self::STARTS_AT + Table::STATES + 1;

    // For each transition its code.
    pub const CODES_AT: usize = Self::ENTRIES_LISTED_AT + Table::TRANSITIONS;

    // For each transition its first entry, and after the last the count of entries. Entries of weight 0 are left out.
    pub const ENTRY_STARTS_AT: usize = Self::CODES_AT + Table::TRANSITIONS;

    // For each entry its target.
    pub const TARGETS_AT: usize = Self::ENTRY_STARTS_AT + Table::TRANSITIONS + 1;

    // For each entry its weight.
    pub const WEIGHTS_AT: usize = Self::TARGETS_AT + Table::ENTRIES;

    // The codes listed.
    pub const LISTED_AT: usize = Self::WEIGHTS_AT + Table::ENTRIES;

    // How many numbers a form has.
    pub const SIZE: usize = Self::LISTED_AT + Table::CODES;
}

impl<'a> Form<'a> {
    // The number at a place of the form.
    fn number(&self, place: usize) -> u16
        requires { place < form_size }
        ensures { result ≡ at self.now.numbers.now place }
    {
        self.numbers[place]
    }

    // How many states the table has.
    pub fn states(&self) -> usize
        ensures { result ≡ states_of (table_of self.now.numbers.now) }
    {
        self.number(Self::STATES_AT) as usize
    }

    // The codes that the table lists.
    fn codes(&self) -> &'a [u16]
        ensures { result.now ≡ (table_of self.now.numbers.now).codes }
    {
        let count = self.number(Self::ACTIONS_AT) as usize;
        let start = Self::LISTED_AT;
        &self.numbers[start..start + count]
    }

    // Whether the table lists the code. Its codes ascend.
    pub fn lists(&self, code: u16) -> bool
        ensures { result ≡ lists (table_of self.now.numbers.now).codes code }
    {
        self.codes().binary_search(&code).is_ok()
    }

    // The first transition of the state s, counted over all transitions; for the count of states, the count of transitions.
    pub fn start_of(&self, s: usize) -> usize
        requires { s ≤ states_of (table_of self.now.numbers.now) }
        ensures { result ≡ start_of self.now.numbers.now s }
    {
        self.number(Self::STARTS_AT + s) as usize
    }

    // The code of the transition j.
    pub fn code(&self, j: usize) -> u16
        requires { j < transitions_of self.now.numbers.now }
        ensures { result ≡ (transition_at self.now.numbers.now j).code }
    {
        self.number(Self::CODES_AT + j)
    }

    // Whether the transition j has the code of the one before it, both from a number on. What was found for the one then need not be sought for
    // the other.
    pub fn repeats(&self, from: usize, j: usize) -> bool
        requires { j < transitions_of self.now.numbers.now }
        ensures { result ≡ true → (from < j)
            × ((transition_at self.now.numbers.now j).code ≡ (transition_at self.now.numbers.now (pred j)).code) }
    {
        if j <= from {
            return false;
        }
        self.code(j) == self.code(j - 1)
    }

    // How many entries the transition j lists in its bytes, those of weight 0 with them.
    pub fn entries_listed(&self, j: usize) -> usize
        requires { j < transitions_of self.now.numbers.now }
        ensures { result ≡ entries_listed self.now.numbers.now j }
    {
        self.number(Self::ENTRIES_LISTED_AT + j) as usize
    }

    // The part of a column that belongs to the transition j, where the column of all entries begins at a place of the form.
    fn column(&self, column: usize, j: usize) -> &'a [u16]
        requires { Span self.now.numbers.now column j }
        ensures { result.now ≡ column_of self.now.numbers.now column j }
    {
        let start = self.number(Self::ENTRY_STARTS_AT + j) as usize;
        let end = self.number(Self::ENTRY_STARTS_AT + (j + 1)) as usize;
        &self.numbers[column + start..column + end]
    }

    // The weights of the transition j, in order.
    pub fn weights(&self, j: usize) -> &'a [u16]
        requires { j < transitions_of self.now.numbers.now }
        ensures { result.now ≡ weights (transition_at self.now.numbers.now j) }
    {
        self.column(Self::WEIGHTS_AT, j)
    }

    // The targets of the transition j, in order.
    pub fn targets(&self, j: usize) -> &'a [u16]
        requires { j < transitions_of self.now.numbers.now }
        ensures { result.now ≡ targets (transition_at self.now.numbers.now j) }
    {
        self.column(Self::TARGETS_AT, j)
    }

    // The distribution of the transition j.
    pub fn distribution(&self, j: usize) -> Distribution<'a>
        requires { j < transitions_of self.now.numbers.now }
        ensures targets { result.targets.now ≡ targets (transition_at self.now.numbers.now j) }
        ensures weights { result.weights.now ≡ weights (transition_at self.now.numbers.now j) }
        ensures states { AreStates result.targets.now }
        ensures ascending { (i : ℕ) → i + 1 < length result.targets.now → get_or result.targets.now i 0 < get_or result.targets.now (i + 1) 0 }
    {
        Distribution {
            targets: self.targets(j),
            weights: self.weights(j),
        }
    }
}
