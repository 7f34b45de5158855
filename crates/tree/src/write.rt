// Writing a tree whose lengths are known: a node holds transitions and a transition holds nodes. The parts of the buffer are written in any
// order, so that a call is made for parts of at most half the length only, and a longer part is left for a loop: the depth of calls is the
// logarithm of the length.
ghost use Rattle.std.specs.Prelude.{◌≡◌, ◌+◌, ◌/◌, ◌^◌, ◌≤◌, ◌<◌, length, get_or, IfSome};
ghost use Rattle.simulation.specs.Table.{weights, target_at};
ghost use Rattle.simulation.specs.Tree.{tree, node_bytes};
ghost use Rattle.simulation.specs.Length.{head_length};
ghost use Rattle.form.specs.Form.{transitions_of};
ghost use Rattle.form.specs.Tables.{first_form, first_table, contract_table, first_step, BothLoaded};
ghost use Rattle.buffer.specs.Buffer.{over, Filled};
ghost use Rattle.tree.specs.Begin.{head_bytes, entry_bytes, BeginGiven, TransitionBegun};
ghost use Rattle.tree.specs.Parts.{offset, step_of, node_of, StepGiven, StepWritten, NodeGiven, Around, TreeGiven};

use choice::find_sets;
use counting::count::{HEAD, LONGEST};
use counting::pair::number;
use form::Tables;
use measure::{node_length, pair_length};
use relation::rows;
use set::Set;
use simulation::Table;
use word::Word;

// The words of the stack: a set for each child of the transition in hand at each of 16 levels, since LONGEST is below 2 ^ 16. A transition at
// level k has no more children than a quarter of 2 ^ k, since each takes four bytes, and no more than Table::STATES: that many at the upper
// eight levels, and one less than that at all levels below them together. Beyond them there is room for a full set of sets and
// for the rows of a relation.
pub const STACK: usize = Set::WORDS * (11 * Table::STATES - 1);

// What the writing reads: two loaded tables, the ranks of their pairs, and the transition chosen and the length of each pair that is measured.
#[derive(Clone, Copy)]
pub struct Source<'a> {
    pub tables: &'a Tables<'a>,
    pub ranks: &'a [u16],
    pub choices: &'a [u8],
    pub lengths: &'a [u32],
}

// The pair whose part of the buffer is still to be written, and where it is.
#[derive(Clone, Copy)]
pub struct Rest {
    pub s: usize,
    pub t: usize,
    pub at: usize,
    pub len: usize,
}

// The transition of a pair, to be written if it is not longer than the limit.
#[derive(Clone, Copy)]
pub struct Step {
    pub s: usize,
    pub t: usize,
    pub limit: usize,
}

// The node of a state and a set, to be written but for a transition that is longer than half.
#[derive(Clone, Copy)]
pub struct Node {
    pub s: usize,
    pub members: Set,
    pub half: usize,
}

// The code of the transition j, low byte first, and the number of its targets.
fn put_head(tables: &Tables, j: usize, buf: &mut [u8])
    requires { BothLoaded tables.now × (j < transitions_of (first_form tables.now)) × (head_length ≤ length buf.old) }
    ensures { buf.new ≡ over (head_bytes (first_step tables.now j)) buf.old }
{
    let code = tables.first.code(j);
    let [low, high] = code.to_le_bytes();
    buf[0] = low;
    buf[1] = high;
    buf[2] = tables.first.targets(j).len() as u8;
}

// The target and the weight at place i of the transition j; the target is returned.
fn put_entry(tables: &Tables, j: usize, i: usize, buf: &mut [u8]) -> usize
    requires { BothLoaded tables.now × (j < transitions_of (first_form tables.now)) × (i < length (first_step tables.now j).entries)
        × (3 ≤ length buf.old) }
    ensures { (result ≡ target_at (first_step tables.now j) i)
        × (buf.new ≡ over (entry_bytes result (get_or (weights (first_step tables.now j)) i 0)) buf.old) }
{
    let target = tables.first.targets(j)[i];
    let weight = tables.first.weights(j)[i];
    buf[0] = target as u8;
    let [low, high] = weight.to_le_bytes();
    buf[1] = low;
    buf[2] = high;
    target as usize
}

// Puts the sets of the targets of the pair's transition on the stack and its head into the buffer. Returns its number.
fn begin_transition(
    src: &Source,
    s: usize,
    t: usize,
    amounts: &mut [u32],
    stack: &mut [Word],
    buf: &mut [u8],
) -> usize
    requires { BeginGiven src.now s t amounts.old stack.old buf.old }
    ensures { TransitionBegun src.now.tables.now s t result stack.new buf.old buf.new }
{
    let tables = src.tables;
    let ranks = src.ranks;
    let p = number(tables, s, t);
    let j = src.choices[p] as usize;
    find_sets(tables, ranks, s, t, ranks[p], j, stack, amounts);
    put_head(tables, j, buf);
    j
}

// What is left in a part of the buffer from `start` on, by its place in the buffer.
fn offset(hole: Option<Rest>, start: usize) -> Option<Rest>
    requires { IfSome hole (λ r. start + r.at < 2 ^ 64) }
    ensures { result ≡ offset hole start }
{
    hole.map(|rest| Rest {
        at: start + rest.at,
        ..rest
    })
}

// The node, in a buffer of its length, but for a transition that is longer than half: that is what is left.
#[cycle(writing)]
fn write_node(
    src: &Source,
    node: Node,
    amounts: &mut [u32],
    stack: &mut [Word],
    buf: &mut [u8],
) -> Option<Rest>
    requires { NodeGiven src.now node amounts.old stack.old buf.old }
    ensures { Around src.now (node_of src.now node) node.half buf.new result }
{
    let s = node.s;
    let limit = node.half;
    let members = node.members;
    buf[0] = members.count() as u8;
    let mut rest = None;
    let mut at = 1;
    for t in members {
        let end = at + pair_length(src.tables, src.lengths, s, t);
        let step = Step { s, t, limit };
        let hole = write_transition(src, step, amounts, stack, &mut buf[at..end]);
        rest = offset(hole, at).or(rest);
        at = end;
    }
    rest
}

// The transition, in a buffer of its length, which is at most the limit, but for a part that is longer than half the limit: that is what is
// left. The sets of its children take the first words of the stack.
#[cycle(writing)]
fn write_around(
    src: &Source,
    step: Step,
    amounts: &mut [u32],
    stack: &mut [Word],
    buf: &mut [u8],
) -> Option<Rest>
    requires { StepGiven src.now step amounts.old stack.old buf.old × (length buf.old ≤ step.limit) }
    ensures { Around src.now (step_of src.now step.s step.t) (step.limit / 2) buf.new result }
{
    let j = begin_transition(src, step.s, step.t, amounts, stack, buf);
    let n = src.tables.first.targets(j).len();
    let mut rest = None;
    let mut at = HEAD;
    for i in 0..n {
        let start = at + 3;
        let target = put_entry(src.tables, j, i, &mut buf[at..start]);
        let members = rows::get(stack, i);
        let end = start + node_length(src.tables, src.lengths, target, members);
        let node = Node {
            s: target,
            members,
            half: step.limit / 2,
        };
        let deeper = &mut stack[Set::WORDS * n..];
        let hole = write_node(src, node, amounts, deeper, &mut buf[start..end]);
        rest = offset(hole, start).or(rest);
        at = end;
    }
    rest
}

// The transition, in a buffer of its length, if that is not above the limit; a longer one is what is left.
// The loop goes down to the part that each turn leaves.
#[cycle(writing)]
fn write_transition(
    src: &Source,
    step: Step,
    amounts: &mut [u32],
    stack: &mut [Word],
    buf: &mut [u8],
) -> Option<Rest>
    requires { StepGiven src.now step amounts.old stack.old buf.old }
    ensures { StepWritten src.now step result buf.old buf.new }
{
    let len = buf.len();
    let mut rest = Some(Rest {
        s: step.s,
        t: step.t,
        at: 0,
        len,
    });
    if step.limit < len {
        return rest;
    }
    while let Some(part) = rest {
        let inner = Step {
            s: part.s,
            t: part.t,
            ..step
        };
        let end = part.at + part.len;
        let hole = write_around(src, inner, amounts, stack, &mut buf[part.at..end]);
        rest = offset(hole, part.at);
    }
    None
}

// The tree of the pair (s, t), which is not kept; the lengths are those of the pairs that it meets. Returns its length.
pub fn tree(src: &Source, s: usize, t: usize, amounts: &mut [u32], buf: &mut [u8]) -> usize
    requires { TreeGiven src.now s t amounts.old buf.old }
    ensures { Filled (node_bytes (tree (first_table src.now.tables.now) (contract_table src.now.tables.now) s t)) result
        buf.old buf.new }
{
    let mut stack: [Word; STACK] = [1; STACK];
    let end = 1 + pair_length(src.tables, src.lengths, s, t);
    buf[0] = 1;
    let step = Step {
        s,
        t,
        limit: LONGEST as usize,
    };
    write_transition(src, step, amounts, &mut stack, &mut buf[1..end]);
    end
}
