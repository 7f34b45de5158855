// The items of each section: the first refusal among them.
ghost use Rattle.std.specs.Prelude.{◌≡◌, ℕ, pred, ◌+◌, ◌*◌, ◌≤◌, ◌<◌, eqb, length};
ghost use Rattle.simulation.specs.Sum.{sum, any};
ghost use Rattle.simulation.specs.Limits.{most_transitions};
ghost use Rattle.layout.specs.Bytes.{actions, byte, code, first, code_refusal, transition_refusal};
ghost use Rattle.layout.specs.Bytes.{target_right, distribution_refusal, size_from, run_refusal};
ghost use Rattle.layout.specs.Refusals.{PassesUnless};
ghost use Rattle.items.specs.Reads.{ValueBelow, Ascending};

use crate::cursor::{byte_at, field_at, half_at};
use layout::{Refusal, TableBytes};
use simulation::Table;

// The code numbered i in section 1.
fn code_at(s: &TableBytes, i: usize) -> usize
    requires { s.now.width + s.now.width * i + s.now.width ≤ length s.now.bytes.now }
    ensures { ValueBelow 65536 (code s.now.width s.now.bytes.now i) result }
{
    field_at(s, s.width + s.width * i)
}

// Section 1: the n codes ascend strictly.
pub fn check_codes(s: &TableBytes, n: usize) -> Result<(), Refusal>
    requires { s.now.width + s.now.width * n ≤ length s.now.bytes.now }
    ensures { PassesUnless (first 0 (pred n) (code_refusal s.now.width s.now.bytes.now)) result }
{
    for i in 1..n {
        Refusal::Codes.unless(code_at(s, i - 1) < code_at(s, i))?;
    }
    Ok(())
}

// Whether a code is one of the n of section 1. They ascend, so each turn halves where it can stand.
pub fn listed(s: &TableBytes, n: usize, c: usize) -> bool
    requires { Ascending s.now.width s.now.bytes.now n }
    ensures { result ≡ any n (λ i. eqb (code s.now.width s.now.bytes.now i) c) }
{
    let mut low: usize = 0;
    let mut high = n;
    while low < high {
        let middle = low + (high - low) / 2;
        let code = code_at(s, middle);
        if code == c {
            return true;
        }
        if code < c {
            low = middle + 1;
        } else {
            high = middle;
        }
    }
    false
}

// The sum of n bytes, from a place on, each step bytes after the one before.
pub fn sum_of(s: &[u8], from: usize, step: usize, n: usize) -> usize
    requires few { n ≤ most_transitions }
    requires within { (i : ℕ) → i < n → from + step * i < length s.now }
    ensures { result ≡ sum n (λ i. byte s.now (from + step * i)) }
{
    let mut total: usize = 0;
    for i in 0..n {
        total += byte_at(s, from + step * i);
    }
    total
}

// Section 3: the transition at a place, where section 1 has n codes.
fn check_transition(s: &TableBytes, n: usize, p: usize) -> Result<(), Refusal>
    requires codes { (n ≡ actions s.now.width s.now.bytes.now) × Ascending s.now.width s.now.bytes.now n }
    requires room { p + s.now.width < length s.now.bytes.now }
    ensures { PassesUnless (transition_refusal s.now.width s.now.bytes.now p) result }
{
    let known = listed(s, n, field_at(s, p));
    let size = byte_at(s.bytes, p + s.width);
    Refusal::Unlisted.unless(known)?;
    Refusal::Empty.unless(0 < size)
}

// The m transitions from a place on.
pub fn check_transitions(s: &TableBytes, n: usize, at: usize, m: usize) -> Result<(), Refusal>
    requires codes { (n ≡ actions s.now.width s.now.bytes.now) × Ascending s.now.width s.now.bytes.now n }
    requires room { at + (s.now.width + 1) * m ≤ length s.now.bytes.now }
    ensures { PassesUnless (first 0 m (λ j. transition_refusal s.now.width s.now.bytes.now (at + (s.now.width + 1) * j))) result }
{
    for j in 0..m {
        check_transition(s, n, at + (s.width + 1) * j)?;
    }
    Ok(())
}

// Section 4: whether an entry's target is one of n states and above the one before in its transition.
fn target_right(s: &[u8], n: usize, p: usize, k: usize) -> bool
    requires { p + 3 * k < length s.now }
    ensures { result ≡ target_right s.now n p k }
{
    let target = byte_at(s, p + 3 * k);
    target < n && (k == 0 || byte_at(s, p + 3 * (k - 1)) < target)
}

// The size entries of one transition, from a place on, in a table of n states. Weights may be 0, but not all of them.
pub fn check_distribution(s: &[u8], n: usize, at: usize, size: usize) -> Result<(), Refusal>
    requires { at + 3 * size ≤ length s.now }
    ensures { PassesUnless (distribution_refusal s.now n at size) result }
{
    let mut total: usize = 0;
    for k in 0..size {
        let right = target_right(s, n, at, k);
        total += half_at(s, at + 3 * k + 1);
        Refusal::Target.unless(right)?;
        Refusal::Weight.unless(total <= Table::TOTAL)?;
    }
    Refusal::Weight.unless(0 < total)
}

// The entries of m transitions, whose sizes stand after their codes, the first at the place sizes.
pub fn check_entries(
    s: &TableBytes,
    n: usize,
    sizes: usize,
    m: usize,
    at: usize,
) -> Result<(), Refusal>
    requires room { (m ≤ most_transitions) × (sizes + (s.now.width + 1) * m ≤ length s.now.bytes.now + s.now.width) }
    requires within { at + 3 * sum m (size_from s.now.width s.now.bytes.now sizes) ≤ length s.now.bytes.now }
    ensures { PassesUnless (first 0 m (run_refusal s.now.width s.now.bytes.now n sizes at)) result }
{
    let mut start: usize = 0;
    for j in 0..m {
        let size = byte_at(s.bytes, sizes + (s.width + 1) * j);
        check_distribution(s.bytes, n, at + 3 * start, size)?;
        start += size;
    }
    Ok(())
}
