// A flow under construction: as many rows as supplies, and as many columns as demands.
ghost use Rattle.std.specs.Prelude.{◌≡◌, ◌+◌, ◌^◌, ◌≤◌, ◌<◌, length, get_or};
ghost use Rattle.simulation.specs.Limits.{most_pairs, most_states};
ghost use Rattle.set.specs.Words.{mask};
ghost use Rattle.relation.specs.Rows.{height, «row_of»};
ghost use Rattle.matrix.specs.Matrix.{cell, Put, Adds, AddsAt};
ghost use Rattle.matrix.specs.Masks.{MaskOf, Noted};
ghost use Rattle.matrix.specs.Lists.{SameList};

use crate::{marked, positive};
use relation::rows;
use set::Set;
use simulation::Table;
use word::Word;

// The amounts, that of row i and column j at i * Table::STATES + j; what each row has left to send; what each column has left to take;
// and the senders of each column: the rows that have an amount in it.
#[derive(Drop)]
pub struct Flow<'a> {
    pub amounts: &'a mut [u32],
    pub supply: &'a mut [u32],
    pub demand: &'a mut [u32],
    pub senders: &'a mut [Word],
    pub ghost cells: { most_pairs ≤ length amounts.now },
    pub ghost columns: { most_states ≤ height senders.now },
}

impl Flow<'_> {
    // The rows that have something left to send.
    pub fn short(&self) -> Set
        requires { length self.now.supply.now ≤ most_states }
        ensures { MaskOf (length self.now.supply.now) (λ i. get_or self.now.supply.now i 0) (mask result) }
    {
        positive(self.supply)
    }

    // The columns that have something left to take.
    pub fn free(&self) -> Set
        requires { length self.now.demand.now ≤ most_states }
        ensures { MaskOf (length self.now.demand.now) (λ j. get_or self.now.demand.now j 0) (mask result) }
    {
        positive(self.demand)
    }

    // The amount at row i, column j.
    pub fn get(&self, i: usize, j: usize) -> u32
        requires { (i < most_states) × (j < most_states) }
        ensures { result ≡ cell self.now.amounts.now i j }
    {
        self.amounts[i * Table::STATES + j]
    }

    // The senders of column j.
    pub fn column(&self, j: usize) -> Set
        requires { j < most_states }
        ensures { mask result ≡ row_of self.now.senders.now j }
    {
        rows::get(self.senders, j)
    }

    // The senders of all columns.
    pub fn senders(&self) -> &[Word]
        ensures { result.now ≡ self.now.senders.now }
    {
        self.senders
    }

    // The amount v at row i, column j.
    pub fn put(&mut self, i: usize, j: usize, v: u32)
        requires { (i < most_states) × (j < most_states) }
        ensures put { Put self.old.amounts.now self.new.amounts.now i j v
            × Noted self.new.amounts.now self.old.senders.now self.new.senders.now i j }
        ensures same_lists { SameList self.old.amounts self.new.amounts × SameList self.old.senders self.new.senders }
        ensures same_left { (self.new.supply ≡ self.old.supply) × (self.new.demand ≡ self.old.demand) }
    {
        let at = i * Table::STATES + j;
        self.amounts[at] = v;
        let column = self.column(j);
        rows::put(self.senders, j, marked(column, i, v));
    }

    // d more at row i, column j.
    pub fn add(&mut self, i: usize, j: usize, d: u32)
        requires { (i < most_states) × (j < most_states) × (cell self.old.amounts.now i j + d < 2 ^ 32) }
        ensures added { Adds self.old.amounts.now self.new.amounts.now i j d
            × Noted self.new.amounts.now self.old.senders.now self.new.senders.now i j }
        ensures same_lists { SameList self.old.amounts self.new.amounts × SameList self.old.senders self.new.senders }
        ensures same_left { (self.new.supply ≡ self.old.supply) × (self.new.demand ≡ self.old.demand) }
    {
        self.put(i, j, self.get(i, j) + d);
    }

    // d less at row i, column j.
    pub fn subtract(&mut self, i: usize, j: usize, d: u32)
        requires { (i < most_states) × (j < most_states) × (d ≤ cell self.old.amounts.now i j) }
        ensures taken { Adds self.new.amounts.now self.old.amounts.now i j d
            × Noted self.new.amounts.now self.old.senders.now self.new.senders.now i j }
        ensures same_lists { SameList self.old.amounts self.new.amounts × SameList self.old.senders self.new.senders }
        ensures same_left { (self.new.supply ≡ self.old.supply) × (self.new.demand ≡ self.old.demand) }
    {
        self.put(i, j, self.get(i, j) - d);
    }

    // d less for row i to send and for column j to take.
    pub fn deduct(&mut self, i: usize, j: usize, d: u32)
        requires { (i < length self.old.supply.now) × (j < length self.old.demand.now)
            × (d ≤ get_or self.old.supply.now i 0) × (d ≤ get_or self.old.demand.now j 0) }
        ensures deducted { AddsAt self.new.supply.now self.old.supply.now i d × AddsAt self.new.demand.now self.old.demand.now j d }
        ensures same_lists { SameList self.old.supply self.new.supply × SameList self.old.demand self.new.demand }
        ensures same_matrix { (self.new.amounts ≡ self.old.amounts) × (self.new.senders ≡ self.old.senders) }
    {
        self.supply[i] -= d;
        self.demand[j] -= d;
    }
}
