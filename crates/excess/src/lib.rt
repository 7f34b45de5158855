// Whether one distribution fits another, decided by all sets of targets of a side that has few: no flow is needed.
// A set of places is a number, and place i is a member if bit i is one.
#![tactic(auto)]

ghost use Rattle.std.specs.Prelude.{◌≡◌, Bool, ℕ, ◌+◌, ◌-◌, ◌*◌, ◌^◌, ◌≤◌, ◌<◌, length, get_or};
ghost use Rattle.simulation.specs.Limits.{most_states};
ghost use Rattle.simulation.specs.Sum.{sum, when};
ghost use Rattle.simulation.specs.Fit.{fits?, total, weight};
ghost use Rattle.word.specs.Mask.{member, part, word_bits};
ghost use Rattle.relation.specs.Rows.{HasRows};
ghost use Rattle.relation.specs.Related.{holds};
ghost use Rattle.matrix.specs.Problem.{joins};
ghost use Rattle.form.specs.Valid.{AreStates};
ghost use Rattle.excess.specs.Excess.{few, set_count, joined, Joined, Summed, parts, AtMost, Carries, NoSums, BySets};

use form::Distribution;
use gather::row_word;
use greedy::total_weight;
use relation::rows;
use word::Word;

// The most targets of the side whose sets are looked at.
pub const FEW: usize = 4;

// How many sets they have.
pub const SETS: usize = 1 << FEW;

// The places of the targets of m that are related to t.
fn column(from: &[u16], rows: &[Word], t: usize) -> Word
    requires { HasRows rows.now from.now × (length from.now ≤ few) × (t < most_states) }
    ensures { member result ≡ part (length from.now) (λ i. holds rows.now (get_or from.now i 0) t) }
{
    word::from_fn(from.len(), |i| rows::bit(rows, from[i] as usize, t) == 1)
}

// What places weigh, times t, by the set of each.
fn gather_sums<F: Fn(usize) -> Word>(weights: &[u16], t: u32, set_of: F, sums: &mut [u32])
    requires callable { (j : ℕ) → j < length weights.now → F.pre set_of j }
    requires small { (j a : ℕ) → j < length weights.now → F.post set_of j a → a < set_count }
    requires none { NoSums weights.now t sums.old }
    ensures by_sets { (at : ℕ → ℕ) → ((j a : ℕ) → j < length weights.now → F.post set_of j a → a ≡ at j)
        → BySets (length weights.now) at (λ j. weight weights.now j * t) sums.new }
    ensures all { (length sums.new ≡ set_count) × (sum set_count (λ a. get_or sums.new a 0) ≡ total weights.now * t) }
{
    for (j, w) in weights.iter().enumerate() {
        let at = set_of(j) as usize;
        sums[at] += *w as u32 * t;
    }
}

// What the set without place i has, if i is a member.
fn without(sums: &[u32], set: usize, i: usize) -> u32
    requires { (length sums.now ≡ set_count) × (set < set_count) × (i < few) }
    ensures { result ≡ when (member set i) (get_or sums.now (set - 2 ^ i) 0) }
{
    if (set >> i) % 2 == 1 {
        return sums[set - (1 << i)];
    }
    0
}

// Each set with place i gets what the set without it has, too.
fn join(sums: &mut [u32], i: usize)
    requires { (length sums.old ≡ set_count) × (i < few) × ((k : ℕ) → k < set_count → joined i sums.old k < 2 ^ 32) }
    ensures { Joined i sums.old sums.new }
{
    for k in 0..SETS {
        sums[k] += without(sums, k, i);
    }
}

// Each set gets the sum of all its subsets.
fn add_subsets(sums: &mut [u32])
    requires { (length sums.old ≡ set_count) × (sum set_count (λ k. get_or sums.old k 0) < 2 ^ 32) }
    ensures { Summed sums.old sums.new }
{
    for i in 0..FEW {
        join(sums, i);
    }
}

// What each place weighs, times t; nothing past the end.
fn shares(weights: &[u16], t: u32) -> [u32; FEW]
    requires { (length weights.now ≤ few) × (t * total weights.now < 2 ^ 32) }
    ensures { (length result ≡ few) × ((i : ℕ) → get_or result i 0 ≡ t * weight weights.now i) }
{
    let mut shares = [0; FEW];
    for (i, w) in weights.iter().enumerate() {
        shares[i] = t * *w as u32;
    }
    shares
}

// d if place i is a member, else 0.
fn if_member(set: usize, i: usize, d: u32) -> u32
    requires { i < word_bits }
    ensures { result ≡ when (member set i) d }
{
    d * word::bit(set as Word, i) as u32
}

// What the members of a set have of the amounts of all places.
fn share_of(set: usize, shares: &[u32]) -> u32
    requires { (length shares.now ≡ few) × (sum few (λ i. get_or shares.now i 0) < 2 ^ 32) }
    ensures { result ≡ parts shares.now set }
{
    (0..FEW).map(|i| if_member(set, i, shares[i])).sum()
}

// No set has more than what its members have of the amounts of all places.
fn at_most(sums: &[u32], shares: &[u32]) -> bool
    requires { (length sums.now ≡ set_count) × (length shares.now ≡ few) × (sum few (λ i. get_or shares.now i 0) < 2 ^ 32) }
    ensures { AtMost sums.now (parts shares.now) result }
{
    (0..SETS).all(|k| sums[k] <= share_of(k, shares))
}

// Whether no set of places is too light for what can go to its members alone.
fn carries(sums: &mut [u32], weights: &[u16], t: u32) -> bool
    requires { (length sums.old ≡ set_count) × (sum set_count (λ k. get_or sums.old k 0) < 2 ^ 32)
        × (length weights.now ≤ few) × (t * total weights.now < 2 ^ 32) }
    ensures { Carries sums.old weights.now t result }
{
    add_subsets(sums);
    at_most(sums, &shares(weights, t))
}

// Whether a distribution that has few places fits the other, as far as the places of the one that are related to a place of the other.
fn by_sets<F: Fn(usize) -> Word>(one: Distribution, other: Distribution, related: F) -> bool
    requires callable { (j : ℕ) → j < length other.weights.now → F.pre related j }
    requires small { (j a : ℕ) → j < length other.weights.now → F.post related j a → a < set_count }
    requires short { length one.weights.now ≤ few }
    ensures { (R : ℕ → ℕ → Bool)
        → ((j a : ℕ) → j < length other.entry.weights.now → F.post related j a → member a ≡ part (length one.entry.weights.now) (λ i. R i j))
        → result ≡ fits? R one.entry.weights.now other.entry.weights.now }
{
    let mut sums = [0; SETS];
    gather_sums(other.weights, total_weight(one.weights), related, &mut sums);
    carries(&mut sums, one.weights, total_weight(other.weights))
}

// Whether m, which has few targets, fits n.
pub fn by_rows(m: Distribution, n: Distribution, rows: &[Word]) -> bool
    requires { HasRows rows.now m.targets.now × AreStates n.targets.now × (length m.weights.now ≤ few) }
    ensures { result ≡ fits? (joins rows.now m.entry.targets.now n.entry.targets.now) m.entry.weights.now n.entry.weights.now }
{
    by_sets(m, n, |j| column(m.targets, rows, n.targets[j] as usize))
}

// Whether m fits n, which has few targets.
pub fn by_columns(m: Distribution, n: Distribution, rows: &[Word]) -> bool
    requires { HasRows rows.now m.targets.now × AreStates n.targets.now × (length n.weights.now ≤ few) }
    ensures { result ≡ fits? (joins rows.now m.entry.targets.now n.entry.targets.now) m.entry.weights.now n.entry.weights.now }
{
    by_sets(n, m, |i| row_word(rows, m.targets[i] as usize, n.targets))
}
