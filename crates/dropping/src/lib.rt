// The pairs that a round drops: the first round by codes alone, a later one by the fits of the pairs in doubt.
#![tactic(auto)]

ghost use Rattle.std.specs.Prelude.{◌≡◌, not, ◌&&◌, ℕ, ◌<◌, ◌≤◌, eqb, length};
ghost use Rattle.simulation.specs.Limits.{most_pairs, most_states};
ghost use Rattle.simulation.specs.Table.{states_of};
ghost use Rattle.simulation.specs.Round.{round};
ghost use Rattle.word.specs.Mask.{member};
ghost use Rattle.set.specs.Words.{mask};
ghost use Rattle.relation.specs.Rows.{row_of};
ghost use Rattle.form.specs.Form.{transitions_of};
ghost use Rattle.form.specs.Tables.{first_form, first_table, contract_table, BothLoaded};
ghost use Rattle.decision.specs.Fitting.{relation_of};
ghost use Rattle.fit.specs.Held.{fits_listed, answered};
ghost use Rattle.fit.specs.Known.{Lent, Tried};
ghost use Rattle.links.specs.Links.{Empty, SameMarks};
ghost use Rattle.dropping.specs.Falling.{falls, Doubtless, Judged, StatesOnly, Fallen};
ghost use Rattle.dropping.specs.Dropping.{Dropping, Dropped};

use form::Tables;
use links::Marks;
use relation::rows;
use set::Set;
use word::Word;

// t joins the set unless it passes.
fn join_unless(passes: bool, set: Set, t: usize) -> Set
    requires { t < most_states }
    ensures { Judged passes t (mask set) (mask result) }
{
    if passes {
        return set;
    }
    set.insert(t)
}

// The row s joins the set unless it has no member.
fn with_row(fell: Set, s: usize, row: Set) -> Set
    requires { s < most_states }
    ensures { Judged (eqb (mask row) 0) s (mask fell) (mask result) }
{
    join_unless(row.is_empty(), fell, s)
}

// What a round reads to find the pairs that it drops: two tables, the target sets of the second, and the pairs that are left.
#[derive(Drop)]
struct Pairs<'a> {
    tables: &'a Tables<'a>,
    sets: &'a [Word],
    rows: &'a [Word],
}

impl Pairs<'_> {
    // The states of a set that list no transition that the transition j fits.
    fn drop_listed(&self, j: usize, near: Set, tried: &mut [u8], amounts: &mut [u32]) -> Set
        requires { Lent self.now.tables.now self.now.sets.now self.now.rows.now amounts.old × Tried self.now.tables.now self.now.rows.now tried.old
            × (j < transitions_of (first_form self.now.tables.now)) × StatesOnly (contract_table self.now.tables.now) (mask near) }
        ensures { ((t : ℕ) → member (mask result) t ≡ (member (mask near) t && not (fits_listed self.now.tables.now self.now.rows.now j t)))
            × Tried self.now.tables.now self.now.rows.now tried.new }
    {
        let known = fit::bounds_of(self.tables.first.targets(j), self.rows);
        let mut fallen = Set::empty();
        for t in near {
            let fits = fit::fits_some(
                self.tables,
                j,
                t,
                self.sets,
                self.rows,
                tried,
                amounts,
                known,
            );
            fallen = join_unless(fits, fallen, t);
        }
        fallen
    }

    // The states of a set that do not answer the transition j. Where the second table does not list its code, a state answers by its transition
    // to itself: all targets of j must be related to the state.
    fn drop_step(&self, j: usize, near: Set, tried: &mut [u8], amounts: &mut [u32]) -> Set
        requires { Lent self.now.tables.now self.now.sets.now self.now.rows.now amounts.old × Tried self.now.tables.now self.now.rows.now tried.old
            × (j < transitions_of (first_form self.now.tables.now)) × StatesOnly (contract_table self.now.tables.now) (mask near) }
        ensures { ((t : ℕ) → member (mask result) t ≡ (member (mask near) t && not (answered self.now.tables.now self.now.rows.now j t)))
            × Tried self.now.tables.now self.now.rows.now tried.new }
    {
        let code = self.tables.first.code(j);
        if self.tables.second.lists(code) {
            return self.drop_listed(j, near, tried, amounts);
        }
        let from = self.tables.first.targets(j);
        near.difference(bounds::common(from, self.rows))
    }

    // The pairs of row s that the round drops, transition by transition. Those outside doubt are known to survive.
    fn drop_row(&self, s: usize, doubt: Set, tried: &mut [u8], amounts: &mut [u32]) -> Set
        requires { Lent self.now.tables.now self.now.sets.now self.now.rows.now amounts.old × Tried self.now.tables.now self.now.rows.now tried.old
            × (s < states_of (first_table self.now.tables.now))
            × Doubtless (first_table self.now.tables.now) (contract_table self.now.tables.now) (relation_of self.now.tables.now self.now.rows.now) s (member (mask doubt))
            × StatesOnly (contract_table self.now.tables.now) (row_of self.now.rows.now s) }
        ensures { (member (mask result)
            ≡ falls (first_table self.now.tables.now) (contract_table self.now.tables.now) (relation_of self.now.tables.now self.now.rows.now) s)
            × Tried self.now.tables.now self.now.rows.now tried.new }
    {
        let near = rows::get(self.rows, s).intersection(doubt);
        let start = self.tables.first.start_of(s);
        let end = self.tables.first.start_of(s + 1);
        let mut left = near;
        for j in start..end {
            let fallen = self.drop_step(j, left, tried, amounts);
            left = left.difference(fallen);
        }
        near.difference(left)
    }
}

// The pairs that the round drops, of the rows that have a pair in doubt. Returns the rows that lose one.
pub fn drop_rows(
    tables: &Tables,
    sets: &[Word],
    rows: &[Word],
    marks: &mut Marks,
    doubtful: Set,
    tried: &mut [u8],
    amounts: &mut [u32],
) -> Set
    requires { BothLoaded tables.now × Dropping tables.now sets.now rows.now marks.old (mask doubtful)
        × Tried tables.now rows.now tried.old × (most_pairs ≤ length amounts.old) }
    ensures { Dropped tables.now rows.now marks.new tried.new (mask result) × SameMarks marks.old marks.new }
{
    let pairs = Pairs { tables, sets, rows };
    let mut fell = Set::empty();
    for s in doubtful {
        let doubts = &mut *marks.doubt;
        let doubt = rows::get(doubts, s);
        let row = pairs.drop_row(s, doubt, tried, amounts);
        rows::put(doubts, s, Set::empty());
        rows::put(marks.lost, s, row);
        fell = with_row(fell, s, row);
    }
    fell
}

// The first round: all pairs are related, so that transitions with the same code fit. Returns the rows that lose a pair.
pub fn first_round(tables: &Tables, marks: &mut Marks) -> Set
    requires { BothLoaded tables.now × Empty marks.old.lost.now }
    ensures { Fallen (first_table tables.now) (contract_table tables.now)
        (round (first_table tables.now) (contract_table tables.now) 0) marks.new.lost.now (mask result)
        × SameMarks marks.old marks.new }
{
    let p = tables.first.states();
    let mut fell = Set::empty();
    for s in 0..p {
        let row = lacking::lacking_one(tables, s);
        rows::put(marks.lost, s, row);
        fell = with_row(fell, s, row);
    }
    fell
}
