// Loads the table of bytes into its decoded form: a column at a time, and the entries of each transition without those of weight 0.
#![tactic(auto)]

ghost use Rattle.std.specs.Prelude.{◌≡◌, ℕ, [], ◌∷◌, ◌+◌, ◌*◌, ◌≤◌, ◌<◌, length};
ghost use Rattle.simulation.specs.Sum.{sum};
ghost use Rattle.simulation.specs.Limits.{wide, most_transitions, most_entries};
ghost use Rattle.simulation.specs.Support.{support_entries};
ghost use Rattle.layout.specs.Bytes.{transitions};
ghost use Rattle.form.specs.Form.{form_size, entries_listed_from, entry_starts_from, listed_from};
ghost use Rattle.loading.specs.Fill.{FormFilled, FormFilledBy, run, Runs, Counts, Columns, Between, Laid, Loads, Reads};
ghost use Rattle.loading.specs.Fill.{entry_in, entries_in, EntriesPut, SupportsUpTo};

use form::Form;
use items::cursor::{byte_at, half_at};
use layout::{Refusal, TableBytes};
use simulation::Width;
use table::parts::Layout;
use table::read;

// A number at a place.
fn put(form: &mut [u16], at: usize, v: u16)
    requires { at < length form.old }
    ensures { FormFilled form.old at 1 (λ i. v) form.new }
{
    form[at] = v;
}

// The sums of the first 0, 1, .. n of these bytes.
fn put_sums(form: &mut [u16], to: usize, s: &[u8], from: usize, step: usize, n: usize)
    requires { Runs s.now from step n form.old to × (to + n < length form.old) × (n ≤ most_transitions) }
    ensures { FormFilled form.old to (n + 1) (λ i. sum i (run s.now from step)) form.new }
{
    let mut sum: u16 = 0;
    for i in 0..n {
        form[to + i] = sum;
        sum += s[from + step * i] as u16;
    }
    form[to + n] = sum;
}

// A column of n numbers from a place on, those that value gives.
fn put_column<F: Fn(usize) -> u16>(form: &mut [u16], to: usize, n: usize, value: F)
    requires room { to + n ≤ length form.old }
    requires callable { (i : ℕ) → i < n → F.pre value i }
    ensures { FormFilledBy (F.post value) form.old to n form.new }
{
    for i in 0..n {
        form[to + i] = value(i);
    }
}

// The counts and the starts.
fn put_counts(form: &mut [u16], s: &[u8], t: Layout)
    requires { Laid s.now t form.old }
    ensures { Counts s.now form.new × Between 0 entries_listed_from form.old form.new }
{
    put(form, Form::STATES_AT, t.states.count as u16);
    put(form, Form::ACTIONS_AT, t.actions as u16);
    put_sums(form, Form::STARTS_AT, s, t.states.at, 1, t.states.count);
}

// The columns of transitions and of listed codes.
fn put_columns(form: &mut [u16], s: &[u8], t: Layout)
    requires { Laid s.now t form.old }
    ensures { Columns s.now form.new × Between entries_listed_from form_size form.old form.new }
{
    let step = Width::WIDE + 1;
    let codes_at = t.transitions.at;
    let sizes_at = codes_at + Width::WIDE;
    put_column(
        form,
        Form::ENTRIES_LISTED_AT,
        t.transitions.count,
        |j| byte_at(s, sizes_at + step * j) as u16,
    );
    put_column(
        form,
        Form::CODES_AT,
        t.transitions.count,
        |j| half_at(s, codes_at + step * j) as u16,
    );
    put_column(
        form,
        Form::LISTED_AT,
        t.actions,
        |i| half_at(s, Width::WIDE + Width::WIDE * i) as u16,
    );
}

// The entry at the place p of the bytes becomes entry n of the form, unless its weight is 0. Returns the number of the next, as put_entries does.
fn put_entry(form: &mut [u16], s: &[u8], p: usize, n: usize) -> usize
    requires { (p + 2 < length s.now) × (n < most_entries) × (form_size ≤ length form.old) }
    ensures { EntriesPut (support_entries (entry_in s.now p ∷ [])) form.old n form.new result }
{
    let weight = half_at(s, p + 1) as u16;
    if weight == 0 {
        return n;
    }
    form[Form::TARGETS_AT + n] = s[p] as u16;
    form[Form::WEIGHTS_AT + n] = weight;
    n + 1
}

// The size entries of one transition, from the place p of the bytes on.
fn put_entries(form: &mut [u16], s: &[u8], p: usize, size: usize, n: usize) -> usize
    requires { (p + 3 * size ≤ length s.now) × (n + size ≤ most_entries) × (form_size ≤ length form.old) }
    ensures { EntriesPut (support_entries (entries_in s.now p size)) form.old n form.new result }
{
    let mut next = n;
    for k in 0..size {
        next = put_entry(form, s, p + 3 * k, next);
    }
    next
}

// The entries of all transitions, and where those of each begin.
fn put_supports(form: &mut [u16], s: &[u8], t: Layout)
    requires { Laid s.now t form.old }
    ensures { SupportsUpTo s.now form.new (transitions wide s.now)
        × Between entry_starts_from listed_from form.old form.new }
{
    let sizes_at = t.transitions.at + Width::WIDE;
    let mut at = t.entries.at;
    let mut n: usize = 0;
    for j in 0..t.transitions.count {
        let size = byte_at(s, sizes_at + (Width::WIDE + 1) * j);
        form[Form::ENTRY_STARTS_AT + j] = n as u16;
        n = put_entries(form, s, at, size, n);
        at += 3 * size;
    }
    form[Form::ENTRY_STARTS_AT + t.transitions.count] = n as u16;
}

// The whole form.
fn fill(form: &mut [u16], s: &[u8], t: Layout)
    requires { Laid s.now t form.old }
    ensures { Loads s.now form.old form.new }
{
    put_counts(form, s, t);
    put_columns(form, s, t);
    put_supports(form, s, t);
}

// Checks the bytes and loads their table into a form, or tells what refuses them and leaves the form as it was.
pub fn load(bytes: &[u8], form: &mut [u16]) -> Result<(), Refusal>
    requires { form_size ≤ length form.old }
    ensures { Reads bytes.now form.old result form.new }
{
    let t = read(&TableBytes::wide(bytes))?;
    fill(form, bytes, t);
    Ok(())
}
