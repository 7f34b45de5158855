// The relation of a round out of ranks: the rank of a pair is the first round that lacks it, 0 where none does.
ghost use Rattle.std.specs.Prelude.{◌≡◌, eqb};
ghost use Rattle.simulation.specs.Sum.{when};
ghost use Rattle.relation.specs.Ranks.{lasts};

use word::Word;

// 1 for a pair of this rank that every round keeps, else 0: 2^16 less the rank has its digit 16 for a rank of 0 alone.
pub fn kept(rank: u16) -> u32
    ensures { result ≡ when (eqb rank 0) 1 }
{
    ((65_536 - rank as u32) >> 16) % 2
}

// 1 for a pair of this rank that is kept by the round before round r, else 0. The rank less one, of 16 bits, is above all others for a
// rank of 0; it reaches r less one exactly if the sum reaches 2^17.
pub fn lasts(rank: u16, r: u16) -> Word
    ensures { result ≡ when (lasts r rank) 1 }
{
    let last = (rank as u32 + 65_535) % 65_536;
    let gap = 131_073 - r as u32;
    (((last + gap) >> 17) % 2) as Word
}
