// What the display is handed: the filled part of the flow buffer for a kept pair, of the tree buffer for another, never a copy.
ghost use Rattle.std.specs.Prelude.{◌≡◌};
ghost use Rattle.answer.specs.Display.{filled_part};

// The part of the buffer that the rank selects, of the stated length; a length beyond the buffer gives an empty part.
#[tactic(auto, unfolding(crate::specs::Display::filled_part))]
pub fn filled<'a>(flow: &'a [u8], tree: &'a [u8], rank: u32, len: usize) -> &'a [u8]
    ensures { result.now ≡ filled_part flow.now tree.now rank len }
{
    let part = if rank == 0 { flow } else { tree };
    part.get(..len).unwrap_or(&[])
}
