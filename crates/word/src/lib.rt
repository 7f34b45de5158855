// Sets of numbers below 64 as a word: t is a member if bit t is one.
#![tactic(auto)]

ghost use Rattle.std.specs.Prelude.{◌≡◌, Bool, ℕ, ◌<◌, ◌≤◌};
ghost use Rattle.word.specs.Mask.{Test, part, member, «up_to», only, «with_member», «without_member», «with_bit», either, both, except, size, Lowest, bit, word_bits};

// A word: what sets are made of.
pub type Word = u64;

// The bits of a word.
pub const BITS: usize = 64;

// 1 for a member, else 0.
pub fn bit(set: Word, t: usize) -> Word
    requires { t < word_bits }
    ensures { result ≡ bit (member set) t }
{
    (set >> t) % 2
}

pub fn single(t: usize) -> Word
    requires { t < word_bits }
    ensures { member result ≡ only t }
{
    1 << t
}

// Every number below n.
pub fn below(n: usize) -> Word
    requires { n ≤ word_bits }
    ensures { member result ≡ up_to n }
{
    if n < BITS {
        return (1 << n) - 1;
    }
    0xffff_ffff_ffff_ffff
}

// The numbers below n of which the test holds.
pub fn from_fn<F: Fn(usize) -> bool>(n: usize, test: F) -> Word
    requires room { n ≤ word_bits }
    requires callable { (i : ℕ) → i < n → F.pre test i }
    ensures { (X : Test) → ((i : ℕ) (b : Bool) → i < n → F.post test i b → b ≡ X i) → member result ≡ part n X }
{
    let mut set = 0;
    for i in 0..n {
        set = with_bit(set, i, test(i) as Word);
    }
    set
}

pub fn insert(set: Word, t: usize) -> Word
    requires { t < word_bits }
    ensures { member result ≡ with_member t (member set) }
{
    single(t) | set
}

pub fn remove(set: Word, t: usize) -> Word
    requires { t < word_bits }
    ensures { member result ≡ without_member t (member set) }
{
    set & !single(t)
}

// t too if b is 1, without a branch.
pub fn with_bit(set: Word, t: usize, b: Word) -> Word
    requires { (t < word_bits) × (b < 2) }
    ensures { member result ≡ with_bit t b (member set) }
{
    (b << t) | set
}

pub fn union(a: Word, b: Word) -> Word
    ensures { member result ≡ either (member a) (member b) }
{
    a | b
}

pub fn intersection(a: Word, b: Word) -> Word
    ensures { member result ≡ both (member a) (member b) }
{
    a & b
}

pub fn difference(a: Word, b: Word) -> Word
    ensures { member result ≡ except (member a) (member b) }
{
    a & !b
}

// How many members.
pub fn count(set: Word) -> u32
    ensures { result ≡ size word_bits (member set) }
{
    u64::count_ones(set)
}

// The lowest member of a set that has one.
pub fn lowest(set: Word) -> usize
    requires { 0 < set }
    ensures { (result < word_bits) × Lowest (member set) result }
{
    u64::trailing_zeros(set) as usize
}

// A set that has a member, without its lowest.
pub fn without_lowest(set: Word) -> Word
    requires { 0 < set }
    ensures { ((t : ℕ) → Lowest (member set) t → member result ≡ without_member t (member set)) × (result < set) }
{
    set & (set - 1)
}
