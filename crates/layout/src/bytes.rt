// The bytes of a table in one of the two layouts.
ghost use Rattle.std.specs.Prelude.{◌≡◌};
ghost use Rattle.simulation.specs.Limits.{narrow, wide};
ghost use Rattle.layout.specs.Bytes.{CodeWidth};

use simulation::Width;

// A code, and the count of codes, takes `width` of the bytes.
#[derive(Clone, Copy)]
pub struct TableBytes<'a> {
    pub bytes: &'a [u8],
    pub width: usize,
    pub ghost coded: { CodeWidth width },
}

impl<'a> TableBytes<'a> {
    // In the old layout.
    pub fn narrow(bytes: &'a [u8]) -> Self
        ensures same { result.bytes.now ≡ bytes.now }
        ensures width { result.width ≡ narrow }
    {
        TableBytes {
            bytes,
            width: Width::NARROW,
        }
    }

    // In the wide layout.
    pub fn wide(bytes: &'a [u8]) -> Self
        ensures same { result.bytes.now ≡ bytes.now }
        ensures width { result.width ≡ wide }
    {
        TableBytes {
            bytes,
            width: Width::WIDE,
        }
    }
}
