// How often the transition of each pair occurs in a tree, from the root down: a pair hands its count on to the pairs below it.
// The bytes counted are never more than the tree's, so one that is too long shows before all its pairs are looked at.
ghost use Rattle.std.specs.Prelude.{length};
ghost use Rattle.set.specs.Words.{mask};
ghost use Rattle.counting.specs.Count.{Within, RowAdded, CountsGiven, CountsAdded, HandGiven, Tallied};

use form::Tables;
use relation::rows;
use set::Set;
use simulation::{Table, Width};
use word::Word;

// The most bytes that a tree may have.
pub const LONGEST: u32 = Table::TREE_BYTES;

// The bytes of a transition before its children: a code and a count.
pub const HEAD: usize = Width::WIDE + 1;

// The pairs of s and the members of a set are to be counted c times more.
fn add_row(counts: &mut [u32], width: usize, s: usize, members: Set, c: u32)
    requires { Within counts.old width s (mask members) c }
    ensures { RowAdded width s (mask members) c counts.old counts.new }
{
    let base = s * width;
    for t in members {
        counts[base + t] += c;
    }
}

// The same for each target and its set.
fn add_counts(targets: &[u16], sets: &[Word], width: usize, c: u32, counts: &mut [u32])
    requires { CountsGiven targets.now sets.now width c counts.old }
    ensures { CountsAdded targets.now sets.now width c (length targets.now)
        counts.old counts.new }
{
    for (i, &s) in targets.iter().enumerate() {
        add_row(counts, width, s as usize, rows::get(sets, i), c);
    }
}

// Counts the transition j of the pair (s, t) as often as it is due, and hands its count on to the pairs below it. Returns the bytes counted.
// Nothing is counted once they are too many.
pub fn hand_on(
    tables: &Tables,
    s: usize,
    t: usize,
    j: usize,
    sets: &[Word],
    counts: &mut [u32],
    bytes: u32,
) -> u32
    requires { HandGiven tables.now s t j sets.now counts.old bytes }
    ensures { Tallied tables.now counts.old bytes counts.new result }
{
    if LONGEST < bytes {
        return bytes;
    }
    let width = tables.width();
    let targets = tables.first.targets(j);
    let at = s * width + t;
    let c = counts[at];
    counts[at] = 0;
    add_counts(targets, sets, width, c, counts);
    bytes + c * ((HEAD + 4 * targets.len()) as u32)
}
