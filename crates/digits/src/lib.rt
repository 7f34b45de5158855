// Text in a lent buffer: bytes, words and numbers, one after the other from the buffer's start.
#![tactic(auto, using(crate::proofs::Appending::appending))]

ghost use Rattle.std.specs.Prelude.{[], ◌∷◌, ◌+◌, ◌<◌, ◌≡◌};
ghost use Rattle.digits.specs.Digits.{decimal, hex, hex_digit, labelled};
ghost use Rattle.digits.specs.Appending.{append, HasRoom};

// The first `len` bytes of the buffer are the text so far.
#[derive(Drop)]
pub struct Text<'a> {
    buf: &'a mut [u8],
    len: usize,
}

impl<'a> Text<'a> {
    pub fn new(buf: &'a mut [u8]) -> Self
        ensures { result ≡ record { buf = buf.entry; len = 0 } }
    {
        Text { buf, len: 0 }
    }

    pub fn len(&self) -> usize
        ensures { result ≡ self.now.len }
    {
        self.len
    }

    pub fn byte(&mut self, b: u8)
        requires { HasRoom self.old (b ∷ []) }
        ensures { self.new ≡ append self.old (b ∷ []) }
    {
        self.buf[self.len] = b;
        self.len += 1;
    }

    pub fn word(&mut self, word: &[u8])
        requires { HasRoom self.old word.now }
        ensures { self.new ≡ append self.old word.now }
    {
        let end = self.len + word.len();
        self.buf[self.len..end].copy_from_slice(word);
        self.len = end;
    }

    // A number in base ten: what its last digit leaves, then that digit.
    #[tactic(auto, using(crate::proofs::Appending::appending_decimal))]
    pub fn decimal(&mut self, n: usize)
        requires { HasRoom self.old (decimal n) }
        ensures { self.new ≡ append self.old (decimal n) }
    {
        if n < 10 {
            self.byte(b'0' + n as u8);
        } else {
            self.decimal(n / 10);
            self.byte(b'0' + (n % 10) as u8);
        }
    }

    pub fn labelled(&mut self, word: &[u8], n: usize)
        requires { HasRoom self.old (labelled word.now n) }
        ensures { self.new ≡ append self.old (labelled word.now n) }
    {
        self.word(word);
        self.decimal(n);
    }

    // A byte in base sixteen.
    pub fn hex(&mut self, b: u8)
        requires { HasRoom self.old (hex b) }
        ensures { self.new ≡ append self.old (hex b) }
    {
        self.byte(glyph(b / 16));
        self.byte(glyph(b % 16));
    }
}

// A digit in base sixteen, in lower case.
fn glyph(d: u8) -> u8
    requires { d < 16 }
    ensures { result ≡ hex_digit d }
{
    if d < 10 { b'0' + d } else { b'a' + (d - 10) }
}
