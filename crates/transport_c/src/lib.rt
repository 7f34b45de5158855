// The flow kernel for callers in C and Rust. A slice passes as a pointer and a length.
#![tactic(auto)]

ghost use Rattle.transport_c.specs.Flowed.{Accepts, FlowAnswered};

use relation::rows;
use set::Set;
use simulation::Table;
use word::Word;

// Whether the input is taken: not with more than Table::STATES targets on a side, a total above Table::TOTAL, too few masks, too few cells,
// or no place for the cut or for the number of paths.
fn accepts(m: &[u16], n: &[u16], rel: &[Word], amounts: &[u32], cut: &[Word], paths: &[u32]) -> bool
    ensures { Accepts m.now n.now rel.now amounts.now cut.now paths.now result }
{
    m.len() <= Table::STATES
        && n.len() <= Table::STATES
        && m.len() <= rel.len() / Set::WORDS
        && Table::PAIRS <= amounts.len()
        && Set::WORDS <= cut.len()
        && 1 <= paths.len()
        && greedy::total_weight(m) <= Table::TOTAL as u32
        && greedy::total_weight(n) <= Table::TOTAL as u32
}

// The kernel's flow in amounts, its cut in the first words of cut and the number of augmenting paths in paths[0], and 1; or 0, with nothing
// changed, where the input is refused.
#[unsafe(no_mangle)]
pub extern "C" fn transport_flow(
    m: &[u16],
    n: &[u16],
    rel: &[Word],
    amounts: &mut [u32],
    cut: &mut [Word],
    paths: &mut [u32],
) -> u32
    ensures { FlowAnswered m.now n.now rel.now amounts.old cut.old paths.old
        amounts.new cut.new paths.new result }
{
    if accepts(m, n, rel, amounts, cut, paths) {
        let r = transport::maximum_flow(m, n, rel, amounts);
        rows::put(cut, 0, r.cut);
        paths[0] = r.paths;
        return 1;
    }
    0
}
