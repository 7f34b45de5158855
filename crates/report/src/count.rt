// Rounds and kept pairs, counted from the ranks.
ghost use Rattle.std.specs.Prelude.{◌≡◌};
ghost use Rattle.report.specs.Text.{yes?};
ghost use Rattle.simulation.specs.Round.{maximum, zeros};

use relation::ranks;

// The count of rounds: the largest rank.
pub fn rounds_of(ranks: &[u16]) -> u16
    ensures { result ≡ maximum ranks.now }
{
    ranks.iter().copied().max().unwrap_or(0)
}

// The count of kept pairs: how many ranks are 0.
pub fn kept_of(ranks: &[u16]) -> usize
    ensures { result ≡ zeros ranks.now }
{
    ranks.iter().map(|rank| ranks::kept(*rank) as usize).sum()
}

// The verdict: whether the first rank is 0.
pub fn is_kept(ranks: &[u16]) -> bool
    ensures { result ≡ yes? ranks.now }
{
    ranks.first().copied().unwrap_or(0) == 0
}
