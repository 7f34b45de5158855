// Sets of states: t is a member if bit t % 64 of word t / 64 is one.
#![tactic(auto)]

mod members;

ghost use Rattle.std.specs.Prelude.{◌≡◌, Bool, ℕ, ◌*◌, ◌<◌, ◌≤◌, min, eqb};
ghost use Rattle.simulation.specs.Limits.{most_states};
ghost use Rattle.word.specs.Mask.{Test, part, member, «up_to», only, «with_member», «without_member», «with_bit», either, both, except, bit, size, Lowest, word_bits};
ghost use Rattle.set.specs.Words.{words, mask};

pub use members::Members;
use simulation::Table;
use word::Word;

#[derive(Clone, Copy)]
pub struct Set {
    pub words: [Word; Set::WORDS],
}

impl Set {
    // The bits of a word.
    pub const BITS: usize = word::BITS;

    // So many words have a bit for each state of a table.
    pub const WORDS: usize = Table::STATES / Self::BITS;

    pub fn empty() -> Self
        ensures { mask result ≡ 0 }
    {
        Self {
            words: [0; Self::WORDS],
        }
    }

    // Where the places of word w begin among n places: at the end where it has none.
    pub fn start(w: usize, n: usize) -> usize
        requires { w ≤ words }
        ensures { result ≡ min (w * word_bits) n }
    {
        let at = w * Self::BITS;
        if at < n { at } else { n }
    }

    pub fn is_empty(self) -> bool
        ensures { result ≡ eqb (mask self) 0 }
    {
        self.words[0] | self.words[1] == 0
    }

    // 1 for a member, else 0.
    pub fn bit(self, t: usize) -> Word
        requires { t < most_states }
        ensures { result ≡ bit (member (mask self)) t }
    {
        let w = t / Self::BITS;
        word::bit(self.words[w], t % Self::BITS)
    }

    pub fn single(t: usize) -> Self
        requires { t < most_states }
        ensures { member (mask result) ≡ only t }
    {
        Self::empty().insert(t)
    }

    // Every number below n.
    pub fn below(n: usize) -> Self
        requires { n ≤ most_states }
        ensures { member (mask result) ≡ up_to n }
    {
        if n < Self::BITS {
            return Self {
                words: [word::below(n), 0],
            };
        }
        Self {
            words: [word::below(Self::BITS), word::below(n - Self::BITS)],
        }
    }

    // The states below n of which the test holds, word by word: a set that grows by one state after the other goes through memory each time.
    pub fn from_fn<F: Fn(usize) -> bool>(n: usize, test: F) -> Self
        requires room { n ≤ most_states }
        requires callable { (i : ℕ) → i < n → F.pre test i }
        ensures { (X : Test) → ((i : ℕ) (b : Bool) → i < n → F.post test i b → b ≡ X i) → member (mask result) ≡ part n X }
    {
        let mut set = Self::empty();
        for w in 0..Self::WORDS {
            let start = Self::start(w, n);
            let end = Self::start(w + 1, n);
            set.words[w] = word::from_fn(end - start, |u| test(start + u));
        }
        set
    }

    pub fn insert(mut self, t: usize) -> Self
        requires { t < most_states }
        ensures { member (mask result) ≡ with_member t (member (mask self)) }
    {
        let w = t / Self::BITS;
        let old = self.words[w];
        let new = word::insert(old, t % Self::BITS);
        self.words[w] = new;
        self
    }

    pub fn remove(mut self, t: usize) -> Self
        requires { t < most_states }
        ensures { member (mask result) ≡ without_member t (member (mask self)) }
    {
        let w = t / Self::BITS;
        let old = self.words[w];
        let new = word::remove(old, t % Self::BITS);
        self.words[w] = new;
        self
    }

    // t too if b is 1, without a branch.
    pub fn with_bit(mut self, t: usize, b: Word) -> Self
        requires { (t < most_states) × (b < 2) }
        ensures { member (mask result) ≡ with_bit t b (member (mask self)) }
    {
        let w = t / Self::BITS;
        let old = self.words[w];
        let new = word::with_bit(old, t % Self::BITS, b);
        self.words[w] = new;
        self
    }

    pub fn union(self, other: Set) -> Self
        ensures { member (mask result) ≡ either (member (mask self)) (member (mask other)) }
    {
        Self {
            words: [
                self.words[0] | other.words[0],
                self.words[1] | other.words[1],
            ],
        }
    }

    pub fn intersection(self, other: Set) -> Self
        ensures { member (mask result) ≡ both (member (mask self)) (member (mask other)) }
    {
        Self {
            words: [
                self.words[0] & other.words[0],
                self.words[1] & other.words[1],
            ],
        }
    }

    pub fn difference(self, other: Set) -> Self
        ensures { member (mask result) ≡ except (member (mask self)) (member (mask other)) }
    {
        Self {
            words: [
                self.words[0] & !other.words[0],
                self.words[1] & !other.words[1],
            ],
        }
    }

    // How many members.
    pub fn count(self) -> u32
        ensures { result ≡ size most_states (member (mask self)) }
    {
        word::count(self.words[0]) + word::count(self.words[1])
    }

    // The lowest member of a set that has one.
    pub fn lowest(self) -> usize
        requires { 0 < mask self }
        ensures { (result < most_states) × Lowest (member (mask self)) result }
    {
        let low = self.words[0];
        if low != 0 {
            return word::lowest(low);
        }
        Self::BITS + word::lowest(self.words[1])
    }

    // A set that has a member, without its lowest.
    pub fn without_lowest(self) -> Self
        requires { 0 < mask self }
        ensures { ((t : ℕ) → Lowest (member (mask self)) t → member (mask result) ≡ without_member t (member (mask self))) × (mask result < mask self) }
    {
        let low = self.words[0];
        let high = self.words[1];
        if low != 0 {
            return Self {
                words: [word::without_lowest(low), high],
            };
        }
        Self {
            words: [0, word::without_lowest(high)],
        }
    }
}
