// The text that the program prints, line by line.
#![tactic(auto, using(crate::proofs::Writing::writing), unfolding(crate::specs::Text::pair_line, crate::specs::Text::row_line, crate::specs::Text::rows_text, crate::specs::Text::summary_line, crate::specs::Text::tree_text, crate::specs::Text::tree_or_refusal, crate::specs::Text::tree_line, crate::specs::Text::bytes_text))]

ghost use Rattle.std.specs.Prelude.{◌≡◌, ◌+◌, ◌*◌, ◌≤◌, length};
ghost use Rattle.std.specs.List.{flat_map};
ghost use Rattle.simulation.specs.Limits.{most_states};
ghost use Rattle.report.specs.Text.{space, refused_text, pair_line, row_line, rows_text, summary_line};
ghost use Rattle.report.specs.Text.{rounds_line, bytes_text, tree_line, tree_text, lent_bytes, tree_size, report_text, answer_text, text_bound};
ghost use Rattle.digits.specs.Digits.{hex, labelled};
ghost use Rattle.digits.specs.Appending.{append, HasRoom};
ghost use Rattle.buffer.specs.Buffer.{Filled};

use crate::count::{is_kept, kept_of, rounds_of};
use crate::input::front;
use digits::Text;
use simulation::Table;

// The length of a buffer that holds every text: longest-text of specs/.
pub const TEXT: usize = 15
    + Table::STATES * (8 + 6 * Table::STATES)
    + 36
    + (5 + 3 * (Table::TREE_BYTES as usize));

// A tree of at most so many bytes is short.
pub const SHORT_TREE: usize = 1_023;

// The length of one that holds every text for few pairs and a short tree: short-text of specs/.
pub const SHORT_TEXT: usize = 15
    + 8 * Table::STATES
    + 6 * Table::FEW_PAIRS
    + 36
    + (5 + 3 * SHORT_TREE);

// The text for an answer of the check: for a refused table that alone, else the report on tables with p and q states.
#[tactic(auto, unfolding(crate::specs::Text::answer_text))]
pub fn print(
    table: u32,
    number: u32,
    written: u32,
    p: usize,
    q: usize,
    ranks: &[u16],
    tree: &[u8],
    buf: &mut [u8],
) -> usize
    requires { (p ≤ most_states) × (q ≤ most_states) × (p * q ≤ length ranks.now) × (text_bound p q (length tree.now) ≤ length buf.old) }
    ensures { Filled (answer_text table number written p q ranks.now tree.now) result buf.old buf.new }
{
    if table != 0 {
        return refused(table, number, buf);
    }
    let shown = if number == 23 {
        None
    } else {
        Some(front(tree, written as usize))
    };
    report(p, q, &ranks[..p * q], shown, buf)
}

// The text for a refused table: its place and the number of the refusal.
#[tactic(auto, using(crate::proofs::Writing::filling))]
pub fn refused(table: u32, number: u32, buf: &mut [u8]) -> usize
    requires { 30 ≤ length buf.old }
    ensures { Filled (refused_text table number) result buf.old buf.new }
{
    let mut text = Text::new(buf);
    put_pair(&mut text, b"refused ", table as usize, number as usize);
    text.len()
}

// The text for two accepted tables with p and q states: `ranks` are the ranks of their pairs, `tree` is the bytes of the tree, or none where
// it is too long.
#[tactic(auto, using(crate::proofs::Writing::filling))]
pub fn report(p: usize, q: usize, ranks: &[u16], tree: Option<&[u8]>, buf: &mut [u8]) -> usize
    requires { (p ≤ most_states) × (q ≤ most_states) × (p * q ≡ length ranks.now) × (text_bound p q (tree_size (lent_bytes tree)) ≤ length buf.old) }
    ensures { Filled (report_text p q ranks.now (lent_bytes tree.entry)) result buf.old buf.new }
{
    let mut text = Text::new(buf);
    put_report(&mut text, p, q, ranks, tree);
    text.len()
}

#[tactic(auto, using(crate::proofs::Writing::writing), unfolding(crate::specs::Text::report_text))]
fn put_report(text: &mut Text, p: usize, q: usize, ranks: &[u16], tree: Option<&[u8]>)
    requires { (p * q ≤ length ranks.now) × HasRoom text.old (report_text p q ranks.now (lent_bytes tree)) }
    ensures { text.new ≡ append text.old (report_text p q ranks.now (lent_bytes tree.entry)) }
{
    put_pair(text, b"tables ", p, q);
    put_rows(text, ranks, q, p);
    put_rounds(text, ranks);
    put_outcome(text, is_kept(ranks), tree);
}

// A line of a word and two numbers.
fn put_pair(text: &mut Text, word: &[u8], a: usize, b: usize)
    requires { HasRoom text.old (pair_line word.now a b) }
    ensures { text.new ≡ append text.old (pair_line word.now a b) }
{
    text.labelled(word, a);
    text.labelled(b" ", b);
    text.byte(b'\n');
}

fn put_rows(text: &mut Text, ranks: &[u16], q: usize, p: usize)
    requires { (p * q ≤ length ranks.now) × HasRoom text.old (rows_text ranks.now q p) }
    ensures { text.new ≡ append text.old (rows_text ranks.now q p) }
{
    for s in 0..p {
        put_row(text, ranks, q, s);
    }
}

// The row of the state s of the first table.
fn put_row(text: &mut Text, ranks: &[u16], q: usize, s: usize)
    requires { (s * q + q ≤ length ranks.now) × HasRoom text.old (row_line ranks.now q s) }
    ensures { text.new ≡ append text.old (row_line ranks.now q s) }
{
    let from = s * q;
    text.labelled(b"row ", s);
    put_ranks(text, &ranks[from..from + q]);
    text.byte(b'\n');
}

fn put_ranks(text: &mut Text, ranks: &[u16])
    requires { HasRoom text.old (flat_map (labelled space) ranks.now) }
    ensures { text.new ≡ append text.old (flat_map (labelled space) ranks.now) }
{
    for rank in ranks {
        text.byte(b' ');
        text.decimal(*rank as usize);
    }
}

fn put_rounds(text: &mut Text, ranks: &[u16])
    requires { HasRoom text.old (rounds_line ranks.now) }
    ensures { text.new ≡ append text.old (rounds_line ranks.now) }
{
    let rounds = rounds_of(ranks) as usize;
    put_summary(text, rounds, kept_of(ranks), is_kept(ranks));
}

fn put_summary(text: &mut Text, rounds: usize, kept: usize, yes: bool)
    requires { HasRoom text.old (summary_line rounds kept yes) }
    ensures { text.new ≡ append text.old (summary_line rounds kept yes) }
{
    text.labelled(b"rounds ", rounds);
    text.labelled(b" kept ", kept);
    text.word(b" verdict ");
    text.word(if yes { b"yes\n" } else { b"no\n" });
}

// On no, the tree, or that it is too long.
fn put_outcome(text: &mut Text, yes: bool, tree: Option<&[u8]>)
    requires { HasRoom text.old (tree_text yes (lent_bytes tree)) }
    ensures { text.new ≡ append text.old (tree_text yes (lent_bytes tree.entry)) }
{
    if yes {
        return;
    }
    match tree {
        Some(bytes) => put_tree(text, bytes),
        None => text.word(b"tree refused 23\n"),
    }
}

fn put_tree(text: &mut Text, tree: &[u8])
    requires { HasRoom text.old (tree_line tree.now) }
    ensures { text.new ≡ append text.old (tree_line tree.now) }
{
    text.word(b"tree");
    put_bytes(text, tree);
    text.byte(b'\n');
}

fn put_bytes(text: &mut Text, bytes: &[u8])
    requires { HasRoom text.old (bytes_text bytes.now) }
    ensures { text.new ≡ append text.old (bytes_text bytes.now) }
{
    for b in bytes {
        text.byte(b' ');
        text.hex(*b);
    }
}
