// The search for a path, level by level over sets, from the short rows to a row with a free column.
#![tactic(auto)]

ghost use Rattle.std.specs.Prelude.{◌≡◌, true, ℕ, ◌≤◌, ◌<◌};
ghost use Rattle.simulation.specs.Limits.{most_states};
ghost use Rattle.word.specs.Mask.{member};
ghost use Rattle.set.specs.Words.{mask};
ghost use Rattle.relation.specs.Rows.{height};
ghost use Rattle.search.specs.Links.{from, via};
ghost use Rattle.search.specs.Search.{SearchRoom, RowsLinked, ColumnsFollowed, Closed, Levelled, HitOf, SearchOf};

use relation::rows;
use set::Set;
use simulation::Table;
use word::Word;

// The row and the column by which a row was reached.
#[derive(Clone, Copy)]
pub struct Link {
    pub from: u8,
    pub via: u8,
}

impl Link {
    // What stands where no row was reached.
    pub const NONE: Link = Link { from: 0, via: 0 };
}

// The links of all rows.
#[derive(Drop)]
pub struct Links {
    pub rows: [Link; Table::STATES],
}

// The short rows and the free columns.
#[derive(Clone, Copy)]
pub struct Ends {
    pub short: Set,
    pub free: Set,
}

// The rows reached and the columns gone to.
#[derive(Clone, Copy)]
struct Visited {
    reached: Set,
    seen: Set,
}

// The rows reached, one of them with a free column, and how many steps that is from a short row.
#[derive(Clone, Copy)]
pub struct Path {
    pub reached: Set,
    pub row: usize,
    pub depth: usize,
}

// The first of the rows with a free column.
fn hit(rel: &[Word], free: Set, rows: Set) -> Option<usize>
    requires { (i : ℕ) → member (mask rows) i ≡ true → i < height rel.now }
    ensures { HitOf rel.now (mask free) (member (mask rows)) result }
{
    for r in rows {
        if !rows::get(rel, r).intersection(free).is_empty() {
            return Some(r);
        }
    }
    None
}

// The rows of a set were reached from row r by column j.
fn link_rows(links: &mut Links, rows: Set, r: usize, j: usize)
    requires { (r < most_states) × (j < most_states) }
    ensures { RowsLinked (member (mask rows)) r j
        (from links.old) (via links.old) (from links.new) (via links.new) }
{
    for i in rows {
        links.rows[i] = Link {
            from: r as u8,
            via: j as u8,
        };
    }
}

// Row r goes by its columns to their senders. Returns the rows reached then.
fn follow(senders: &[Word], links: &mut Links, columns: Set, r: usize, reached: Set) -> Set
    requires { (most_states ≤ height senders.now) × (r < most_states) }
    ensures { ColumnsFollowed senders.now (member (mask columns)) r (member (mask reached)) (member (mask result))
        (from links.old) (via links.old) (from links.new) (via links.new) }
{
    let mut all = reached;
    for j in columns {
        let new = rows::get(senders, j).difference(all);
        link_rows(links, new, r, j);
        all = all.union(new);
    }
    all
}

// The rows of a level go by all their columns that were not gone to.
fn level(rel: &[Word], senders: &[Word], links: &mut Links, rows: Set, covered: Visited) -> Visited
    requires { (most_states ≤ height senders.now) × ((i : ℕ) → member (mask rows) i ≡ true → i < height rel.now)
        × Closed senders.now (member (mask covered.seen)) (member (mask covered.reached)) }
    ensures { Levelled rel.now senders.now (member (mask rows))
        (member (mask covered.seen)) (member (mask result.seen)) (member (mask covered.reached)) (member (mask result.reached))
        (from links.old) (via links.old) (from links.new) (via links.new) }
{
    let mut all = covered.reached;
    let mut gone = covered.seen;
    for r in rows {
        let columns = rows::get(rel, r).difference(gone);
        all = follow(senders, links, columns, r, all);
        gone = gone.union(columns);
    }
    Visited {
        reached: all,
        seen: gone,
    }
}

// Levels from the short rows on, up to the first with a free column. Where none has one, the rows reached.
pub fn search(rel: &[Word], senders: &[Word], links: &mut Links, ends: Ends) -> Result<Path, Set>
    requires { SearchRoom rel.now senders.now (mask ends.short) }
    ensures { SearchOf rel.now senders.now (mask ends.short) (mask ends.free)
        (from links.new) (via links.new) result }
{
    let mut covered = Visited {
        reached: ends.short,
        seen: Set::empty(),
    };
    let mut rows = ends.short;
    let mut depth = 0;
    while !rows.is_empty() {
        if let Some(row) = hit(rel, ends.free, rows) {
            return Ok(Path {
                reached: covered.reached,
                row,
                depth,
            });
        }
        let next = level(rel, senders, links, rows, covered);
        rows = next.reached.difference(covered.reached);
        covered = next;
        depth += 1;
    }
    Err(covered.reached)
}
