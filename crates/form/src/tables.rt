// Both tables: the first is checked against the second.
ghost use Rattle.std.specs.Prelude.{◌≡◌};
ghost use Rattle.simulation.specs.Table.{Table, states_of};
ghost use Rattle.simulation.specs.Complete.{contract_for};
ghost use Rattle.form.specs.Form.{table_of, Loaded};
ghost use Rattle.form.specs.Tables.{first_form, second_form, contract_table};

use crate::Form;

impl Form<'_> {
    // How many states the contract has that this table is completed to, whatever table is checked against it: as many as the table itself.
    pub fn width(&self) -> usize
        ensures { (M : Table) → result ≡ states_of (contract_for M (table_of self.now.numbers.now)) }
    {
        self.states()
    }
}

#[derive(Clone, Copy)]
pub struct Tables<'a> {
    pub first: Form<'a>,
    pub second: Form<'a>,
}

impl<'a> Tables<'a> {
    // The tables whose forms these numbers are.
    pub fn new(first: &'a [u16], second: &'a [u16]) -> Self
        requires { Loaded first.now × Loaded second.now }
        ensures first { first_form result ≡ first.now }
        ensures second { second_form result ≡ second.now }
    {
        let first = Form { numbers: first };
        let second = Form { numbers: second };
        Tables { first, second }
    }

    // How many states the contract has, which are those of the second table: the width of a row of pairs.
    pub fn width(&self) -> usize
        ensures { result ≡ states_of (contract_table self.now) }
    {
        self.second.width()
    }
}
