// The two tables in the bytes of standard input, as parts of it.
ghost use Rattle.std.specs.Prelude.{◌≡◌, ◌+◌, take, drop};
ghost use Rattle.report.specs.Input.{stated_length, first_of_input, second_of_input};

// The first table; bytes that end early make it shorter.
pub fn first_table(input: &[u8]) -> &[u8]
    ensures { result.now ≡ first_of_input input.now }
{
    front(from(input, 2), stated(input) as usize)
}

// The second table, which follows the first.
pub fn second_table(input: &[u8]) -> &[u8]
    ensures { result.now ≡ second_of_input input.now }
{
    first_table(from(input, 2 + stated(input) as usize))
}

// The length at the start, low byte first; 0 where it is cut short.
fn stated(input: &[u8]) -> u16
    ensures { result ≡ stated_length input.now }
{
    match input.first_chunk() {
        Some(bytes) => u16::from_le_bytes(*bytes),
        None => 0,
    }
}

// The first n bytes, all where there are fewer.
pub fn front(s: &[u8], n: usize) -> &[u8]
    ensures { result.now ≡ take n s.now }
{
    s.get(..n).unwrap_or(s)
}

// The bytes from place n on, none where there are fewer.
fn from(s: &[u8], n: usize) -> &[u8]
    ensures { result.now ≡ drop n s.now }
{
    s.get(n..).unwrap_or(&[])
}
