// The rows of a relation in a lent slice of words: row s from word s * Set::WORDS on.
ghost use Rattle.std.specs.Prelude.{◌≡◌, ℕ, ◌≤◌, ◌<◌};
ghost use Rattle.simulation.specs.Limits.{most_states};
ghost use Rattle.word.specs.Mask.{member, bit};
ghost use Rattle.relation.specs.Related.{holds, «pairs_of»};
ghost use Rattle.set.specs.Words.{mask};
ghost use Rattle.relation.specs.Rows.{«row_of», height, «put_row»};

use set::Set;
use word::Word;

pub fn get(rows: &[Word], s: usize) -> Set
    requires { s < height rows.now }
    ensures { mask result ≡ row_of rows.now s }
{
    let at = s * Set::WORDS;
    Set {
        words: [rows[at], rows[at + 1]],
    }
}

pub fn put(rows: &mut [Word], s: usize, set: Set)
    requires { s < height rows.old }
    ensures { rows.new ≡ put_row rows.old s set }
{
    let at = s * Set::WORDS;
    rows[at] = set.words[0];
    rows[at + 1] = set.words[1];
}

// Empties the first n rows.
pub fn clear(rows: &mut [Word], n: usize)
    requires { (n ≤ most_states) × (n ≤ height rows.old) }
    ensures { (i : ℕ) → i < n → row_of rows.new i ≡ 0 }
{
    rows[..n * Set::WORDS].fill(0);
}

// 1 for a related pair, else 0: a shift brings its bit to the lowest place of its word, and the remainder is the bit.
pub fn bit(rows: &[Word], s: usize, t: usize) -> Word
    requires { (s < height rows.now) × (t < most_states) }
    ensures { result ≡ bit (member (row_of rows.now s)) t }
{
    let at = s * Set::WORDS + t / Set::BITS;
    word::bit(rows[at], t % Set::BITS)
}

// How many pairs the first n rows have.
pub fn count(rows: &[Word], n: usize) -> u32
    requires { (n ≤ most_states) × (n ≤ height rows.now) }
    ensures { result ≡ pairs_of n (holds rows.now) }
{
    (0..n).map(|s| get(rows, s).count()).sum()
}
