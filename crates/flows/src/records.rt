// The amounts of a flow as a lent slice of records, gathered row by row, and written out by a thin function over it.
ghost use Rattle.std.specs.Prelude.{◌≡◌, not, ◌≤◌, ◌<◌, ◌+◌, ◌*◌, eqb, length, take};
ghost use Rattle.buffer.specs.Buffer.{over};
ghost use Rattle.matrix.specs.Matrix.{cell};
ghost use Rattle.flows.specs.FlowSteps.{Row};
ghost use Rattle.flows.specs.Records.{cell_record, row_records, RecordsGathered, record_bytes, all_bytes, at_record};

use simulation::Table;

#[derive(Clone, Copy)]
pub struct Record {
    pub from: u8,
    pub to: u8,
    pub amount: u32,
}

// The record of the amount for the target j of nt, in row i.
fn record_at(s: u8, nt: &[u16], amounts: &[u32], i: usize, j: usize) -> Record
    requires { Row nt.now amounts.now i × (j < length nt.now) }
    ensures { result ≡ cell_record s nt.now (cell amounts.now i) j }
{
    let amount = amounts[i * Table::STATES + j];
    Record {
        from: s,
        to: nt[j] as u8,
        amount: amount,
    }
}

// The records of the amounts of row i that are not zero, in order, at the start of rs. Returns how many.
pub fn gather(s: u8, nt: &[u16], amounts: &[u32], i: usize, rs: &mut [Record]) -> usize
    requires { Row nt.now amounts.now i × (length nt.now ≤ length rs.old) }
    ensures { RecordsGathered (row_records s nt.now (cell amounts.now i)) result rs.new }
{
    let mut n = 0;
    for j in 0..nt.len() {
        let r = record_at(s, nt, amounts, i, j);
        let kept = r.amount != 0;
        if kept {
            rs[n] = r;
            n += 1;
        }
    }
    n
}

// The six bytes of a record.
fn write_record(r: Record, buf: &mut [u8])
    requires { 6 ≤ length buf.old }
    ensures { buf.new ≡ over (record_bytes r) buf.old }
{
    buf[0] = r.from;
    buf[1] = r.to;
    buf[2..6].copy_from_slice(&r.amount.to_le_bytes());
}

// The bytes of a record at the place of record k.
fn put_record(r: Record, k: usize, buf: &mut [u8])
    requires { 6 * k + 6 ≤ length buf.old }
    ensures { buf.new ≡ at_record k r buf.old }
{
    let at = 6 * k;
    write_record(r, &mut buf[at..]);
}

// The bytes of records, one after the other.
pub fn write_all(rs: &[Record], buf: &mut [u8])
    requires { 6 * length rs.now ≤ length buf.old }
    ensures { buf.new ≡ over (all_bytes rs.now) buf.old }
{
    for (k, r) in rs.iter().enumerate() {
        put_record(*r, k, buf);
    }
}
