// Reads a table, its sections in their order.
ghost use Rattle.simulation.specs.Limits.{wide};
ghost use Rattle.layout.specs.Bytes.{decode_as, refusal};
ghost use Rattle.layout.specs.Refusals.{PassesUnless};
ghost use Rattle.table.specs.Layouts.{Answers};

use crate::parts::Layout;
use crate::sections;
use items::cursor::Cursor;
use layout::{Refusal, TableBytes};

// Where the parts of the table lie, or what refuses the bytes.
pub fn read(s: &TableBytes) -> Result<Layout, Refusal>
    ensures { Answers s.now.width (decode_as s.now.width s.now.bytes.now) result }
{
    let (actions, c) = sections::actions(s, Cursor::new())?;
    let (states, c) = sections::states(s, c)?;
    let (transitions, c) = sections::transitions(s, actions, states, c)?;
    let (entries, c) = sections::entries(s, states.count, transitions, c)?;
    Refusal::Trailing.unless(c.at == s.bytes.len())?;
    Ok(Layout {
        actions,
        states,
        transitions,
        entries,
    })
}

// What refuses the bytes of a table in the wide layout.
pub fn check(bytes: &[u8]) -> Result<(), Refusal>
    ensures { PassesUnless (refusal wide bytes.now) result }
{
    read(&TableBytes::wide(bytes))?;
    Ok(())
}
