// The same questions in the relation of a round, out of the ranks of all pairs: trees are told by them, when the rounds are over.
ghost use Rattle.std.specs.Prelude.{◌≡◌, pred, ◌≤◌, length};
ghost use Rattle.simulation.specs.Round.{fits_step, round};
ghost use Rattle.set.specs.Words.{mask};
ghost use Rattle.relation.specs.Rows.{height};
ghost use Rattle.form.specs.Tables.{first_table, contract_table, first_step, second_step};
ghost use Rattle.fit.specs.Ranked.{InRound, Cut};

use form::Tables;
use set::Set;
use word::Word;

// The cut of the transitions j and k in the round before round r, with the rows of that round between their targets.
pub fn round_cut(
    tables: &Tables,
    ranks: &[u16],
    r: u16,
    j: usize,
    k: usize,
    rel: &mut [Word],
    amounts: &mut [u32],
) -> Set
    requires { InRound tables.now ranks.now r j k amounts.old × (length (first_step tables.now j).entries ≤ height rel.old) }
    ensures { Cut (round (first_table tables.now) (contract_table tables.now) (pred r))
        (first_step tables.now j) (second_step tables.now k) rel.new (mask result) }
{
    relate::rows(tables, ranks, r, j, k, rel);
    let m = tables.first.weights(j);
    let n = tables.second.weights(k);
    cut::smallest_cut(m, n, rel, amounts)
}

// Whether j fits l, and they have the same code, in the round before round r, in room for the rows between their targets.
pub fn fits(
    tables: &Tables,
    ranks: &[u16],
    r: u16,
    j: usize,
    l: usize,
    rel: &mut [Word],
    amounts: &mut [u32],
) -> bool
    requires { InRound tables.now ranks.now r j l amounts.old × (length (first_step tables.now j).entries ≤ height rel.old) }
    ensures { result ≡ fits_step (round (first_table tables.now) (contract_table tables.now) (pred r))
        (first_step tables.now j) (second_step tables.now l) }
{
    tables.first.code(j) == tables.second.code(l)
        && round_cut(tables, ranks, r, j, l, rel, amounts).is_empty()
}
