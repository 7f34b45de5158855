// Reads two tables from standard input, each after its length, and prints what the check finds for their start states.
// Short inputs, few pairs and short trees have short buffers: most of the work of a small check would else be to clear the largest.
#![tactic(auto)]

ghost use Rattle.std.specs.Prelude.{◌≡◌, ◌*◌, ◌<◌, ◌≤◌, length, take, drop, IfOk};
ghost use Rattle.std.specs.Io.{ReadsAtMost};
ghost use Rattle.std.specs.Io.KnownBytes.{Consumes, IsAtEnd};
ghost use Rattle.printout.specs.Printed.{Counted};
ghost use Rattle.simulation.specs.Limits.{few_pairs};
ghost use Rattle.report.specs.Input.{most_input};

use simulation::{Table, Width};
use std::io::{self, Read, Write};

// Two tables of at most 65,535 bytes, each after two bytes of length.
const INPUT: usize = 2 * (2 + 65_535);

// The most bytes of an accepted table: four sections, each after its count.
const TABLE: usize = Width::WIDE * (1 + Table::CODES)
    + 1
    + Table::STATES
    + 2
    + (Width::WIDE + 1) * Table::TRANSITIONS
    + 2
    + 3 * Table::ENTRIES;

// One byte more than two accepted tables with their lengths take: an input that does not fill it has ended.
const SHORT_INPUT: usize = 2 * (2 + TABLE) + 1;

// Prints the answer from short buffers, if they do.
fn print_short(out: &mut impl Write, input: &[u8], p: usize, q: usize) -> Option<io::Result<()>>
    requires { Counted input.now p q × (p * q ≤ few_pairs) }
{
    let mut text = [0u8; report::SHORT_TEXT];
    let len = printout::answer_short(input, p, q, &mut text)?;
    Some(out.write_all(&text[..len]))
}

// Prints the answer.
fn print_long(out: &mut impl Write, input: &[u8], p: usize, q: usize) -> io::Result<()>
    requires { Counted input.now p q }
{
    let mut text = [0u8; report::TEXT];
    let len = printout::answer_long(input, p, q, &mut text);
    out.write_all(&text[..len])
}

// Prints the answer for an input that was read.
fn run(out: &mut impl Write, input: &[u8]) -> io::Result<()> {
    let p = pod::states_of(report::first_table(input));
    let q = pod::states_of(report::second_table(input));
    if p * q <= Table::FEW_PAIRS {
        if let Some(printed) = print_short(out, input, p, q) {
            return printed;
        }
    }
    print_long(out, input, p, q)
}

// Reads until the buffer is full or the input ends. Returns how many bytes it put at the start of the buffer.
fn read_full<R: Read>(reader: &mut R, buf: &mut [u8]) -> io::Result<usize>
    ensures bound { ReadsAtMost result buf.new }
    ensures bytes { IfOk result (λ n. Consumes (R.remaining reader.old) (R.remaining reader.new) (take n buf.new)) }
    ensures end { IfOk result (λ n. n < length buf.new → IsAtEnd (R.remaining reader.new)) }
{
    let mut done = 0;
    while done < buf.len() {
        let n = reader.read(&mut buf[done..])?;
        if n == 0 {
            break;
        }
        done += n;
    }
    Ok(done)
}

// Reads on: the start of the input, which was read, and what follows it. Returns the length of both.
fn read_on<R: Read>(start: &[u8], reader: &mut R, input: &mut [u8]) -> io::Result<usize>
    requires { length start.now ≤ length input.old }
    ensures input_after { take (length start.now) input.new ≡ start.now }
    ensures prefix_len { ReadsAtMost result input.new }
    ensures bytes { IfOk result (λ n. Consumes (R.remaining reader.old) (R.remaining reader.new) (drop (length start.now) (take n input.new))) }
    ensures end { IfOk result (λ n. n < length input.new → IsAtEnd (R.remaining reader.new)) }
{
    let k = start.len();
    input[..k].copy_from_slice(start);
    let n = read_full(reader, &mut input[k..])?;
    Ok(k + n)
}

// The same for an input of which only the start was read.
fn run_long(reader: &mut impl Read, out: &mut impl Write, start: &[u8]) -> io::Result<()>
    requires { length start.now ≤ most_input }
{
    let mut input = [0u8; INPUT];
    let n = read_on(start, reader, &mut input)?;
    run(out, &input[..n])
}

fn main(rt: HostRuntime) -> io::Result<()> {
    let mut reader = rt.stdin();
    let mut out = rt.stdout();
    let mut input = [0u8; SHORT_INPUT];
    let n = read_full(&mut reader, &mut input)?;
    if n < SHORT_INPUT {
        return run(&mut out, &input[..n]);
    }
    run_long(&mut reader, &mut out, &input)
}
