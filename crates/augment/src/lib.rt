// A path that the search found: the most that it can carry, and a move along it.
#![tactic(auto)]

ghost use Rattle.std.specs.Prelude.{◌≡◌, length};
ghost use Rattle.set.specs.Words.{mask};
ghost use Rattle.matrix.specs.Lists.{SameList};
ghost use Rattle.matrix.specs.Held.{held, SameLists};
ghost use Rattle.matrix.specs.Flow.{FlowIn};
ghost use Rattle.search.specs.Links.{from, via};
ghost use Rattle.search.specs.Search.{Found};
ghost use Rattle.augment.specs.Path.{root, carried, Safe, Movable, Moved};
ghost use Rattle.augment.specs.Augments.{EndsOf, Pushed};

use matrix::{Flow, marked};
use relation::rows;
use search::{Ends, Links, Path};
use word::Word;

// The first row of a path, and the most that it can carry.
#[derive(Clone, Copy)]
struct Carried {
    row: usize,
    amount: u32,
}

// The root of the path of row r, and the least of `most` and the amounts on it.
fn carry(flow: &Flow, links: &Links, r: usize, depth: usize, most: u32) -> Carried
    requires { Safe (from links.now) (via links.now) depth r }
    ensures { (result.row ≡ root (from links.now) (via links.now) depth r)
        × (result.amount ≡ carried (from links.now) (via links.now) flow.now.amounts.now depth r most) }
{
    let mut row = r;
    let mut amount = most;
    for _ in 0..depth {
        let link = links.rows[row];
        amount = amount.min(flow.get(row, link.via as usize));
        row = link.from as usize;
    }
    Carried { row, amount }
}

// d more along the path of row r to column c.
fn shift(flow: &mut Flow, links: &Links, r: usize, c: usize, depth: usize, d: u32)
    requires { Safe (from links.now) (via links.now) depth r
        × Movable (from links.now) (via links.now) d depth r c flow.old.amounts.now }
    ensures moved { Moved (from links.now) (via links.now) d depth r c
        flow.old.amounts.now flow.old.senders.now flow.new.amounts.now flow.new.senders.now }
    ensures same_lists { SameList flow.old.amounts flow.new.amounts × SameList flow.old.senders flow.new.senders }
    ensures same_left { (flow.new.supply ≡ flow.old.supply) × (flow.new.demand ≡ flow.old.demand) }
{
    let mut i = r;
    let mut j = c;
    for _ in 0..depth {
        let link = links.rows[i];
        let via = link.via as usize;
        flow.subtract(i, via, d);
        flow.add(i, j, d);
        j = via;
        i = link.from as usize;
    }
    flow.add(i, j, d);
}

// As much as the path that was found can carry. Returns the ends that are left.
pub fn push(flow: &mut Flow, rel: &[Word], links: &Links, ends: Ends, path: Path) -> Ends
    requires { FlowIn rel.now (held flow.old)
        × EndsOf (held flow.old) (length flow.old.supply.now) (length flow.old.demand.now) (mask ends.short) (mask ends.free)
        × Found rel.now flow.old.senders.now (mask ends.short) (mask ends.free) (from links.now) (via links.now) path }
    ensures pushed { Pushed rel.now (held flow.old) (held flow.new) (mask result.short) (mask result.free) }
    ensures same_lists { SameLists flow.old flow.new }
{
    let r = path.row;
    let depth = path.depth;
    let j = rows::get(rel, r).intersection(ends.free).lowest();
    let most = flow.demand[j];
    let c = carry(flow, links, r, depth, most);
    let i = c.row;
    let d = c.amount.min(flow.supply[i]);
    shift(flow, links, r, j, depth, d);
    flow.deduct(i, j, d);
    Ends {
        short: marked(ends.short, i, flow.supply[i]),
        free: marked(ends.free, j, flow.demand[j]),
    }
}
