// The four sections in their order: each begins where its cursor stands, and hands back what it read and the cursor at the next.
ghost use Rattle.std.specs.Prelude.{◌≡◌, ◌≤◌, ◌<◌};
ghost use Rattle.layout.specs.Bytes.{actions, states_start, states, actions_refusal, states_refusal, transitions_refusal, entries_refusal};
ghost use Rattle.layout.specs.Refusals.{number_of, GivesUnless};
ghost use Rattle.table.specs.Sections.{count_refusal, CountRead, CodesRead, StatesRead, TransitionsRead, EntriesRead};

use crate::parts::Items;
use items::cursor::Cursor;
use items::items::{check_codes, check_entries, check_transitions, sum_of};
use layout::{Refusal, TableBytes};
use simulation::Table;

// A count of two bytes, at most limit and equal to total, or else refused; and then the count's items of width bytes each.
fn counted(
    s: &[u8],
    c: Cursor,
    limit: usize,
    total: usize,
    refusal: Refusal,
    width: usize,
) -> Result<(Items, Cursor), Refusal>
    requires { (width ≤ 3) × (limit < 65536) }
    ensures { GivesUnless (count_refusal s.now c.at limit total (number_of refusal) width) result
        (λ r. CountRead s.now c.at width r.0 r.1.at) }
{
    let (count, c) = c.half(s)?;
    refusal.unless(count <= limit)?;
    refusal.unless(count == total)?;
    let (at, c) = c.part(s, width * count)?;
    Ok((Items { count, at }, c))
}

// Section 1: the action codes, in fields as wide as their count. Returns how many there are.
pub fn actions(s: &TableBytes, c: Cursor) -> Result<(usize, Cursor), Refusal>
    requires { c.at ≡ 0 }
    ensures { GivesUnless (actions_refusal s.now.width s.now.bytes.now) result
        (λ r. CodesRead s.now.width s.now.bytes.now r.0 r.1.at) }
{
    let (n, c) = c.field(s)?;
    Refusal::Codes.unless(n <= Table::CODES)?;
    let (_, c) = c.part(s.bytes, s.width * n)?;
    check_codes(s, n)?;
    Ok((n, c))
}

// Section 2: how many transitions each state has.
pub fn states(s: &TableBytes, c: Cursor) -> Result<(Items, Cursor), Refusal>
    requires { c.at ≡ states_start s.now.width s.now.bytes.now }
    ensures { GivesUnless (states_refusal s.now.width s.now.bytes.now) result
        (λ r. StatesRead s.now.width s.now.bytes.now r.0 r.1.at) }
{
    let (count, c) = c.byte(s.bytes)?;
    Refusal::States.unless(0 < count)?;
    Refusal::States.unless(count <= Table::STATES)?;
    let (at, c) = c.part(s.bytes, count)?;
    Ok((Items { count, at }, c))
}

// Section 3: the transitions of these states, where n codes are listed.
pub fn transitions(
    s: &TableBytes,
    n: usize,
    states: Items,
    c: Cursor,
) -> Result<(Items, Cursor), Refusal>
    requires codes { (actions_refusal s.now.width s.now.bytes.now ≡ 0) × (n ≡ actions s.now.width s.now.bytes.now) }
    requires states { (states_refusal s.now.width s.now.bytes.now ≡ 0) × StatesRead s.now.width s.now.bytes.now states c.at }
    ensures { GivesUnless (transitions_refusal s.now.width s.now.bytes.now) result
        (λ r. TransitionsRead s.now.width s.now.bytes.now r.0 r.1.at) }
{
    let total = sum_of(s.bytes, states.at, 1, states.count);
    let (items, c) = counted(
        s.bytes,
        c,
        Table::TRANSITIONS,
        total,
        Refusal::Transitions,
        s.width + 1,
    )?;
    check_transitions(s, n, items.at, items.count)?;
    Ok((items, c))
}

// Section 4: the entries of these transitions, in a table of n states.
pub fn entries(
    s: &TableBytes,
    n: usize,
    transitions: Items,
    c: Cursor,
) -> Result<(Items, Cursor), Refusal>
    requires states { n ≡ states s.now.width s.now.bytes.now }
    requires transitions { (transitions_refusal s.now.width s.now.bytes.now ≡ 0)
        × TransitionsRead s.now.width s.now.bytes.now transitions c.at }
    ensures { GivesUnless (entries_refusal s.now.width s.now.bytes.now) result
        (λ r. EntriesRead s.now.width s.now.bytes.now r.0 r.1.at) }
{
    let sizes = transitions.at + s.width;
    let total = sum_of(s.bytes, sizes, s.width + 1, transitions.count);
    let (items, c) = counted(s.bytes, c, Table::ENTRIES, total, Refusal::Entries, 3)?;
    check_entries(s, n, sizes, transitions.count, items.at)?;
    Ok((items, c))
}
