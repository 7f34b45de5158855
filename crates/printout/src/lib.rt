// The text that podcheck prints for two tables in its input: the check, and the report of what it answers.
// Few pairs and short trees have short buffers: most of the work of a small check would else be to clear the largest.
#![tactic(auto)]

ghost use Rattle.std.specs.Prelude.{◌*◌, ◌≤◌, length, IfSome, replicate};
ghost use Rattle.printout.specs.Printed.{Counted, Printed, Answered, TextWithin};
ghost use Rattle.simulation.specs.Limits.{few_pairs, most_pairs};
ghost use Rattle.report.specs.Text.{text_bound, longest_text, short_text};

use simulation::Table;

// The most pairs and the most bytes of a tree.
const RANKS: usize = Table::PAIRS;

const TREE: usize = Table::TREE_BYTES as usize;

// The text for the two tables in the input, which have p and q states if they are accepted, at the start of `text`. Returns its length,
// none where the tree is longer than `tree`. No flow is asked for: the text shows none.
fn answer(
    input: &[u8],
    p: usize,
    q: usize,
    ranks: &mut [u16],
    tree: &mut [u8],
    text: &mut [u8],
) -> Option<usize>
    requires { Counted input.now p q × (p * q ≤ length ranks.old) × (text_bound p q (length tree.old) ≤ length text.old) }
    ensures answered { Answered input.now tree.old text.old result text.new }
    ensures text_within { IfSome result (λ len. TextWithin len text.new) }
{
    let first = report::first_table(input);
    let second = report::second_table(input);
    let mut flow = [0u8; 1];
    let a = pod::check(first, second, 0, 0, ranks, &mut flow[..0], tree);
    if a.number == 22 {
        return None;
    }
    Some(report::print(a.table, a.number, a.written, p, q, ranks, tree, text))
}

// The same with buffers for so many ranks and so many bytes of a tree. What they hold at first is free: ranks of 1 are written in words,
// where zeros become a call of memset.
fn answer_in<const RANKS: usize, const TREE: usize>(
    input: &[u8],
    p: usize,
    q: usize,
    text: &mut [u8],
) -> Option<usize>
    requires { (RANKS ≤ most_pairs) × Counted input.now p q × (p * q ≤ RANKS) × (text_bound p q TREE ≤ length text.old) }
    ensures answered { Answered input.now (replicate TREE 0) text.old result text.new }
    ensures text_within { IfSome result (λ len. TextWithin len text.new) }
{
    let mut ranks = [1u16; RANKS];
    let mut tree = [0u8; TREE];
    answer(input, p, q, &mut ranks, &mut tree, text)
}

// For few pairs and a short tree; none where the tree is longer.
pub fn answer_short(input: &[u8], p: usize, q: usize, text: &mut [u8]) -> Option<usize>
    requires { Counted input.now p q × (p * q ≤ few_pairs) × (short_text ≤ length text.old) }
    ensures printed { IfSome result (λ len. Printed input.now text.old len text.new) }
    ensures text_within { IfSome result (λ len. TextWithin len text.new) }
{
    answer_in::<{ Table::FEW_PAIRS }, { report::SHORT_TREE }>(input, p, q, text)
}

// For any tables.
pub fn answer_long(input: &[u8], p: usize, q: usize, text: &mut [u8]) -> usize
    requires { Counted input.now p q × (longest_text ≤ length text.old) }
    ensures printed { Printed input.now text.old result text.new }
    ensures text_within { TextWithin result text.new }
{
    answer_in::<RANKS, TREE>(input, p, q, text).unwrap()
}
