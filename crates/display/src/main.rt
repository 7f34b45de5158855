// What a display is handed of two checks, written to standard output: the flow of a pair that is kept, then the tree of one that is not.
#![tactic(auto)]

use std::io::{self, Write};

// Checks the first table against the second, and hands on what there is to show of their start states.
fn show(out: &mut impl Write, first: &[u8], second: &[u8]) -> io::Result<()> {
    let mut ranks = [0u16; 9];
    let mut flow = [0u8; 40];
    let mut tree = [0u8; 19];
    let a = pod::check(first, second, 0, 0, &mut ranks, &mut flow, &mut tree);
    let shown = pod::filled(&flow, &tree, a.rank, a.written as usize);
    out.write_all(shown)
}

// 01's tables P and C: the contract is simulated by the pod, and not the other way round.
fn main(rt: HostRuntime) -> io::Result<()> {
    let pod =
        b"\x02\x00\x0a\x00\x14\x00\x03\x01\x01\x00\x02\x00\x0a\x00\x02\x14\x00\x01\x03\x00\x01\x03\x00\x02\x01\x00\x01\x01\x00";
    let contract =
        b"\x02\x00\x0a\x00\x14\x00\x03\x01\x01\x00\x02\x00\x0a\x00\x02\x14\x00\x01\x03\x00\x01\x01\x00\x02\x01\x00\x01\x01\x00";
    let mut out = rt.stdout();
    show(&mut out, contract, pod)?;
    show(&mut out, pod, contract)
}
