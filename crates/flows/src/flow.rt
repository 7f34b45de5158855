// The flows of a kept pair: each transition of s with the transition of t that it is shared out over, and the amounts.
ghost use Rattle.std.specs.Prelude.{◌≡◌, ℕ, ◌+◌, ◌*◌, ◌<◌, ◌≤◌, length, get_or};
ghost use Rattle.simulation.specs.Limits.{most_pairs, most_states};
ghost use Rattle.simulation.specs.Table.{weights, states_of};
ghost use Rattle.simulation.specs.Complete.{self_loop};
ghost use Rattle.buffer.specs.Buffer.{over, Filled};
ghost use Rattle.matrix.specs.Matrix.{cell};
ghost use Rattle.flows.specs.Flow.{flow_row, flow_records, head_of, flow_of, added_place, one_flow, step_room, flow_room};
ghost use Rattle.form.specs.Form.{transitions_of};
ghost use Rattle.form.specs.Tables.{first_form, first_table, second_table, contract_table, listed_steps, first_step, BothLoaded};
ghost use Rattle.fit.specs.Partner.{Sought};
ghost use Rattle.flows.specs.FlowSteps.{Row, Records, KeptIn, Answered, Shown, KeptPair, Flowed};

use crate::records;
use crate::records::Record;
use form::Tables;
use simulation::Table;
use word::Word;

// The records of one target of s, for the amounts in row i that are not zero. Returns how many bytes were written, as all that follow do.
fn put_row(s: u8, nt: &[u16], amounts: &[u32], i: usize, buf: &mut [u8]) -> usize
    requires { Row nt.now amounts.now i × (length nt.now * 6 ≤ length buf.old) }
    ensures { Filled (flow_row s nt.now (cell amounts.now i)) result buf.old buf.new }
{
    let mut rs = [Record {
        from: 0,
        to: 0,
        amount: 0,
    }; Table::STATES];
    let n = records::gather(s, nt, amounts, i, &mut rs);
    records::write_all(&rs[..n], buf);
    n * 6
}

// The records of all targets.
fn put_records(mt: &[u16], nt: &[u16], amounts: &[u32], buf: &mut [u8]) -> usize
    requires { Records mt.now nt.now amounts.now × (length mt.now * (length nt.now * 6) ≤ length buf.old) }
    ensures { Filled (flow_records mt.now nt.now (cell amounts.now)) result buf.old buf.new }
{
    let mut at = 0;
    for (i, &target) in mt.iter().enumerate() {
        at += put_row(target as u8, nt, amounts, i, &mut buf[at..]);
    }
    at
}

// The place of a transition and the count of its amounts.
fn put_head(place: usize, count: usize, buf: &mut [u8])
    requires { (place < 256) × (count < 65536) × (3 ≤ length buf.old) }
    ensures { buf.new ≡ over (head_of place count) buf.old }
{
    buf[0] = place as u8;
    buf[1..3].copy_from_slice(&(count as u16).to_le_bytes());
}

// The flow of one transition. Its records come first: they tell the count.
fn put_one(place: usize, mt: &[u16], nt: &[u16], amounts: &[u32], buf: &mut [u8]) -> usize
    requires { (place < 256) × Records mt.now nt.now amounts.now × (3 + length mt.now * (length nt.now * 6) ≤ length buf.old) }
    ensures { Filled (flow_of place mt.now nt.now (cell amounts.now)) result buf.old buf.new }
{
    let bytes = put_records(mt, nt, amounts, &mut buf[3..]);
    put_head(place, bytes / 6, buf);
    bytes + 3
}

// The flow of the transition j of the first table over the listed transition of t that it is shared out over.
fn put_listed(
    tables: &Tables,
    rows: &[Word],
    j: usize,
    t: usize,
    amounts: &mut [u32],
    buf: &mut [u8],
) -> usize
    requires { Sought tables.now rows.now amounts.old j t × KeptIn tables.now rows.now
        × (step_room (states_of (second_table tables.now)) (length (first_step tables.now j).entries) ≤ length buf.old) }
    ensures { Shown (first_table tables.now) (contract_table tables.now) (listed_steps tables.now t)
        (first_step tables.now j) t result amounts.new buf.old buf.new }
{
    let place = fit::first_fit(tables, j, t, rows, amounts);
    let l = tables.second.start_of(t) + place;
    put_one(
        place,
        tables.first.targets(j),
        tables.second.targets(l),
        amounts,
        buf,
    )
}

// The place of an added transition: a state lists at most as many as a byte can count.
const ADDED: usize = 255;

// Each target sends its weight to the one there is: column 0 of the amounts.
fn send_all(weights: &[u16], amounts: &mut [u32])
    requires { (length weights.now ≤ most_states) × (most_pairs ≤ length amounts.old) }
    ensures { (i : ℕ) → i < length weights.now → cell amounts.new i 0 ≡ get_or weights.now i 0 }
{
    for (i, &weight) in weights.iter().enumerate() {
        amounts[i * Table::STATES] = weight as u32;
    }
}

// The flow of the transition j of the first table, whose code the second does not list, over the transition of t to itself.
fn put_added(tables: &Tables, j: usize, t: usize, amounts: &mut [u32], buf: &mut [u8]) -> usize
    requires { BothLoaded tables.now × (most_pairs ≤ length amounts.old) × (j < transitions_of (first_form tables.now))
        × (t < states_of (second_table tables.now)) × (step_room 1 (length (first_step tables.now j).entries) ≤ length buf.old) }
    ensures { ((i : ℕ) → i < length (first_step tables.now j).entries
        → cell amounts.new i 0 ≡ get_or (weights (first_step tables.now j)) i 0)
        × Filled (one_flow added_place (first_step tables.now j) (self_loop t (first_step tables.now j).code)
        (cell amounts.new)) result buf.old buf.new }
{
    send_all(tables.first.weights(j), amounts);
    put_one(ADDED, tables.first.targets(j), &[t as u16], amounts, buf)
}

// The flow of the transition j of the first table over the transition of the contract's state t that it is shared out over.
fn put_step(
    tables: &Tables,
    rows: &[Word],
    j: usize,
    t: usize,
    amounts: &mut [u32],
    buf: &mut [u8],
) -> usize
    requires { Answered tables.now rows.now amounts.old j t × KeptIn tables.now rows.now
        × (step_room (states_of (second_table tables.now)) (length (first_step tables.now j).entries) ≤ length buf.old) }
    ensures { Shown (first_table tables.now) (contract_table tables.now) (listed_steps tables.now t)
        (first_step tables.now j) t result amounts.new buf.old buf.new }
{
    let code = tables.first.code(j);
    if tables.second.lists(code) {
        return put_listed(tables, rows, j, t, amounts, buf);
    }
    put_added(tables, j, t, amounts, buf)
}

// The flows of the kept pair (s, t), from the start of the buffer on. Returns how many bytes they have.
pub fn put_flows(
    tables: &Tables,
    rows: &[Word],
    s: usize,
    t: usize,
    amounts: &mut [u32],
    buf: &mut [u8],
) -> usize
    requires { KeptPair tables.now rows.now amounts.old s t
        × (flow_room (first_table tables.now) (second_table tables.now) s ≤ length buf.old) }
    ensures { Flowed (first_table tables.now) (contract_table tables.now) (listed_steps tables.now t) s t result
        buf.old buf.new }
{
    let start = tables.first.start_of(s);
    let count = tables.first.start_of(s + 1) - start;
    buf[0] = count as u8;
    let mut at = 1;
    for k in 0..count {
        at += put_step(tables, rows, start + k, t, amounts, &mut buf[at..]);
    }
    at
}
