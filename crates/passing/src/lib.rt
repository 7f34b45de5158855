// A walk over the pairs of a tree, one pair and the pairs of one row: a pair is listed with the transition chosen for it, its count is handed on,
// and the pairs below it are to be passed later.
#![tactic(auto)]

ghost use Rattle.std.specs.Prelude.{◌≡◌, ℕ, ◌<◌, T, length};
ghost use Rattle.simulation.specs.Limits.{most_states};
ghost use Rattle.word.specs.Mask.{member};
ghost use Rattle.set.specs.Words.{mask};
ghost use Rattle.relation.specs.Rows.{«row_of», height};
ghost use Rattle.passing.specs.Passing.{ChildrenLent, ChildrenAdded, Walking, AtPair, PairPassed, RowPassed};

use choice::choose;
use counting::count;
use counting::pair::number;
use form::Tables;
use relation::rows;
use set::Set;
use word::Word;

// How far a walk over the pairs has come.
#[derive(Clone, Copy)]
pub struct Walk {
    // The bytes counted.
    pub bytes: u32,
    // How many pairs are passed.
    pub count: usize,
    // The rows with a pair that is still to be passed.
    pub rows: Set,
}

// The lists that a walk is lent, and how far it has come. Listed are the pairs that are passed, with the transition noted for each, by its
// number; still to be passed are the pairs of `todo`, a row to a state. It works in `sets`, the sets of a transition's targets with room for as
// many rows of a relation, and in `amounts`.
#[derive(Drop)]
pub struct Trail<'a> {
    pub order: &'a mut [u16],
    pub choices: &'a mut [u8],
    // How often each pair's transition is still to be counted.
    pub counts: &'a mut [u32],
    pub todo: &'a mut [Word],
    pub sets: &'a mut [Word],
    pub amounts: &'a mut [u32],
    pub walk: Walk,
}

// The pairs of each target and the members of its set are to be passed.
fn add_children(targets: &[u16], sets: &[Word], todo: &mut [Word], rows: Set) -> Set
    requires { ChildrenLent targets.now sets.now todo.old }
    ensures { ChildrenAdded targets.now sets.now (length targets.now) todo.old (mask rows) todo.new (mask result) }
{
    let mut all = rows;
    for (i, &s) in targets.iter().enumerate() {
        let s = s as usize;
        let joined = rows::get(sets, i).union(rows::get(todo, s));
        rows::put(todo, s, joined);
        all = all.insert(s);
    }
    all
}

// The rows, without s if no pair of s is left.
fn close_row(rows: Set, s: usize, pairs: Set) -> Set
    requires { s < most_states }
    ensures { (u : ℕ) → (u ≡ s → mask pairs ≡ 0 → ⊥) → T (member (mask rows) u) → T (member (mask result) u) }
{
    if pairs.is_empty() {
        return rows.remove(s);
    }
    rows
}

impl Trail<'_> {
    // The pairs of s that are still to be passed.
    fn pairs(&self, s: usize) -> Set
        requires { s < height self.now.todo.now }
        ensures { mask result ≡ row_of self.now.todo.now s }
    {
        rows::get(self.todo, s)
    }

    // Passes the pair (s, t), which has the rank: it is listed with its transition, and the pairs below it are to be passed. Few pairs of a row
    // have the rank: inside the loop that looks for them this would take its registers.
    #[inline(never)]
    fn pass_pair(&mut self, tables: &Tables, ranks: &[u16], rank: u16, s: usize, t: usize)
        requires { AtPair tables.now ranks.now rank s t self.old }
        ensures { PairPassed tables.now rank s t self.old self.new }
    {
        let j = choose(tables, ranks, s, t, rank, self.sets, self.amounts);
        let rest = self.pairs(s).remove(t);
        rows::put(self.todo, s, rest);
        let p = number(tables, s, t);
        self.order[self.walk.count] = p as u16;
        self.choices[p] = j as u8;
        self.walk.count += 1;
        let bytes = self.walk.bytes;
        let rows = self.walk.rows;
        let sets = &mut *self.sets;
        self.walk.bytes = count::hand_on(tables, s, t, j, sets, self.counts, bytes);
        let targets = tables.first.targets(j);
        self.walk.rows = add_children(targets, sets, self.todo, rows);
    }

    // Passes the pairs of row s that have the rank.
    pub fn pass_row(&mut self, tables: &Tables, ranks: &[u16], rank: u16, s: usize)
        requires { Walking tables.now ranks.now rank self.old × (s < most_states) }
        ensures { RowPassed tables.now rank s self.old self.new }
    {
        // Where the ranks of the row begin: to ask for each pair's place anew costs as much as the walk.
        let base = s * tables.width();
        for t in self.pairs(s) {
            if ranks[base + t] == rank {
                self.pass_pair(tables, ranks, rank, s, t);
            }
        }
        self.walk.rows = close_row(self.walk.rows, s, self.pairs(s));
    }
}
