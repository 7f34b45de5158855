// A cursor over the bytes of a table, and what stands at a place of them.
ghost use Rattle.std.specs.Prelude.{◌≡◌, ◌+◌, ◌≤◌, ◌<◌, length};
ghost use Rattle.layout.specs.Bytes.{byte, field, half};
ghost use Rattle.items.specs.Reads.{ValueBelow, Reads};

use layout::{Refusal, TableBytes};
use simulation::Width;

// The byte at a place.
pub fn byte_at(s: &[u8], at: usize) -> usize
    requires { at < length s.now }
    ensures { ValueBelow 256 (byte s.now at) result }
{
    s[at] as usize
}

// The two bytes at a place, low byte first.
pub fn half_at(s: &[u8], at: usize) -> usize
    requires { at + 1 < length s.now }
    ensures { ValueBelow 65536 (half s.now at) result }
{
    byte_at(s, at) + 256 * byte_at(s, at + 1)
}

// A field as wide as a code, low byte first.
pub fn field_at(s: &TableBytes, at: usize) -> usize
    requires { at + s.now.width ≤ length s.now.bytes.now }
    ensures { ValueBelow 65536 (field s.now.width s.now.bytes.now at) result }
{
    if s.width == Width::NARROW {
        return byte_at(s.bytes, at);
    }
    half_at(s.bytes, at)
}

// Where the next read begins: each read hands back what it read and the cursor behind it.
#[derive(Clone, Copy)]
pub struct Cursor {
    pub at: usize,
}

impl Cursor {
    // Before the first byte.
    pub fn new() -> Self
        ensures { result.at ≡ 0 }
    {
        Cursor { at: 0 }
    }

    // n bytes: the value is where they lie.
    pub fn part(self, s: &[u8], n: usize) -> Result<(usize, Cursor), Refusal>
        ensures { Reads s.now self.at n self.at result }
    {
        let at = self.at;
        if s.len() < at || s.len() - at < n {
            return Err(Refusal::Cut);
        }
        Ok((at, Cursor { at: at + n }))
    }

    // One byte.
    pub fn byte(self, s: &[u8]) -> Result<(usize, Cursor), Refusal>
        ensures { Reads s.now self.at 1 (byte s.now self.at) result }
    {
        let (at, next) = self.part(s, 1)?;
        Ok((byte_at(s, at), next))
    }

    // Two bytes, low byte first.
    pub fn half(self, s: &[u8]) -> Result<(usize, Cursor), Refusal>
        ensures { Reads s.now self.at 2 (half s.now self.at) result }
    {
        let (at, next) = self.part(s, 2)?;
        Ok((half_at(s, at), next))
    }

    // A field as wide as a code, low byte first.
    pub fn field(self, s: &TableBytes) -> Result<(usize, Cursor), Refusal>
        ensures { Reads s.now.bytes.now self.at s.now.width (field s.now.width s.now.bytes.now self.at) result }
    {
        let (at, next) = self.part(s.bytes, s.width)?;
        Ok((field_at(s, at), next))
    }
}
