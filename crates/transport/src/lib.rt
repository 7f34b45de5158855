// A maximum flow between two distributions over related targets, and the smallest of the sets with the largest excess.
// A position of the first is a row, a position of the second a column; the amount of row i and column j is at i * Table::STATES + j.
// After a greedy start the flow grows along shortest paths, found level by level over sets. A row is short while it has
// something left to send, a column free while it can take more.
#![tactic(auto)]

ghost use Rattle.std.specs.Prelude.{◌≡◌, ◌^◌, ◌<◌, length, get_or};
ghost use Rattle.set.specs.Words.{mask};
ghost use Rattle.matrix.specs.Problem.{Given};
ghost use Rattle.matrix.specs.Masks.{MaskOf};
ghost use Rattle.matrix.specs.Flow.{missing, FlowIn};
ghost use Rattle.matrix.specs.Held.{held, SameLists};
ghost use Rattle.transport.specs.Answer.{MaximumFlow};
ghost use Rattle.transport.specs.Paths.{Counts, Grown};

use augment::push;
use greedy::{begin, fill};
use matrix::Flow;
use relation::Relation;
use search::{Ends, Link, Links, search};
use set::Set;
use simulation::Table;
use word::Word;

// The smallest of the sets with the largest excess, and the number of augmenting paths that led to the flow.
#[derive(Clone, Copy)]
pub struct Outcome {
    pub cut: Set,
    pub paths: u32,
}

// A maximum flow from a partial one. Returns the rows that the last search reached, and the number of paths.
fn improve(flow: &mut Flow, rel: &[Word], links: &mut Links, free: Set) -> Outcome
    requires { FlowIn rel.now (held flow.old)
        × MaskOf (length flow.old.demand.now) (λ j. get_or flow.old.demand.now j 0) (mask free)
        × (missing (length flow.old.demand.now) flow.old.demand.now < 2 ^ 32) }
    ensures grown { Grown rel.now result.paths (held flow.old) (held flow.new) (mask result.cut) }
    ensures same_lists { SameLists flow.old flow.new }
{
    let short = flow.short();
    let mut ends = Ends { short, free };
    let mut paths = 0u32;
    loop {
        match search(rel, flow.senders(), links, ends) {
            Ok(path) => {
                ends = push(flow, rel, links, ends, path);
                paths += 1;
            }
            Err(cut) => return Outcome { cut, paths },
        }
    }
}

// A maximum flow from the distribution m to n, in amounts, and 01's smallest of the sets with the largest excess: empty exactly if m fits n.
// With it the number of augmenting paths after the greedy start.
pub fn maximum_flow(m: &[u16], n: &[u16], rel: &[Word], amounts: &mut [u32]) -> Outcome
    requires { Given m.now n.now rel.now amounts.old }
    ensures { MaximumFlow m.now n.now rel.now amounts.old amounts.new (mask result.cut)
        × Counts m.now n.now rel.now amounts.new result.paths }
{
    let mut supply = [0u32; Table::STATES];
    let mut demand = [0u32; Table::STATES];
    let mut senders = [0; Relation::WORDS];
    let mut links = Links {
        rows: [Link::NONE; Table::STATES],
    };
    let mut flow = Flow {
        amounts,
        supply: &mut supply[..m.len()],
        demand: &mut demand[..n.len()],
        senders: &mut senders,
    };
    begin(&mut flow, m, n);
    let free = fill(&mut flow, rel);
    improve(&mut flow, rel, &mut links, free)
}
