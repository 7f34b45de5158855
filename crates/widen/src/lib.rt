// Widens a table of the old layout, in which a code takes one byte: the same table with codes of two.
#![tactic(auto)]

ghost use Rattle.std.specs.Prelude.{◌≡◌, ◌+◌, ◌*◌, ◌≤◌, length};
ghost use Rattle.simulation.specs.Limits.{narrow};
ghost use Rattle.layout.specs.Bytes.{refusal};
ghost use Rattle.table.specs.Layouts.{layout};
ghost use Rattle.buffer.specs.Buffer.{Filled};
ghost use Rattle.widen.specs.Widened.{widening};
ghost use Rattle.widen.specs.Parts.{run_of, wide_codes, wide_transitions, wide_bytes};

use answer::{Answer, with_written};
use layout::TableBytes;
use table::parts::Layout;
use table::read;

// n bytes from a place on, as they stand.
fn put_bytes(s: &[u8], from: usize, n: usize, out: &mut [u8]) -> usize
    requires { (from + n ≤ length s.now) × (n ≤ length out.old) }
    ensures { Filled (run_of s.now from n) result out.old out.new }
{
    // Not copied as a whole: that would need memmove, which the archive for C does not ask for.
    for i in 0..n {
        out[i] = s[from + i];
    }
    n
}

// The first n bytes, codes and their count, in two bytes each.
fn put_codes(s: &[u8], n: usize, out: &mut [u8]) -> usize
    requires { (n ≤ length s.now) × (2 * n ≤ length out.old) }
    ensures { Filled (wide_codes s.now n) result out.old out.new }
{
    for i in 0..n {
        out[2 * i] = s[i];
        out[2 * i + 1] = 0;
    }
    2 * n
}

// n transitions from a place on, each a code and a size.
fn put_transitions(s: &[u8], from: usize, n: usize, out: &mut [u8]) -> usize
    requires { (from + 2 * n ≤ length s.now) × (3 * n ≤ length out.old) }
    ensures { Filled (wide_transitions s.now from n) result out.old out.new }
{
    for i in 0..n {
        let p = from + 2 * i;
        out[3 * i] = s[p];
        out[3 * i + 1] = 0;
        out[3 * i + 2] = s[p + 1];
    }
    3 * n
}

// The wide bytes of an accepted table. Returns how many there are.
fn put_table(s: &[u8], t: Layout, out: &mut [u8]) -> usize
    requires { (refusal narrow s.now ≡ 0) × (t ≡ layout narrow s.now) × (length (wide_bytes s.now) ≤ length out.old) }
    ensures { Filled (wide_bytes s.now) result out.old out.new }
{
    let states_at = t.states.at - 1;
    let entries_at = t.entries.at - 2;
    let mut at = put_codes(s, 1 + t.actions, out);
    at += put_bytes(s, states_at, t.transitions.at - states_at, &mut out[at..]);
    at += put_transitions(s, t.transitions.at, t.transitions.count, &mut out[at..]);
    at += put_bytes(s, entries_at, s.len() - entries_at, &mut out[at..]);
    at
}

// The table of the old bytes in the wide layout, from the start of the buffer on: refused by its number as table 1, or with 27 and the length
// that the buffer must have; a refusal leaves the buffer as it was.
pub fn widen(old: &[u8], out: &mut [u8]) -> Answer
    ensures { (record { answer = result; out = out.new }) ≡ widening old.now out.old }
{
    let t = match read(&TableBytes::narrow(old)) {
        Ok(t) => t,
        Err(refusal) => return Answer::refused(refusal.number(), 1, 0),
    };
    let needed = old.len() + 1 + t.actions + t.transitions.count;
    if out.len() < needed {
        return Answer::refused(27, 0, needed as u32);
    }
    put_table(old, t, out);
    with_written(Answer::refused(0, 0, 0), needed as u32)
}
