// The pod check for firmware in C or Rust: the functions of `pod` under plain names, the answer as eight numbers in a lent buffer.
#![tactic(auto)]

ghost use Rattle.std.specs.Prelude.{◌≡◌};
ghost use Rattle.layout.specs.Bytes.{decode};
ghost use Rattle.pod.specs.Check.{table_answer};
ghost use Rattle.compare.specs.Outcome.{lent};
ghost use Rattle.answer.specs.Numbers.{answer_into};
ghost use Rattle.pod_c.specs.Numbers.{CheckedInto, WidenedInto};

// Checks a lone table. An answer buffer of fewer than eight numbers gets nothing.
#[unsafe(no_mangle)]
pub extern "C" fn pod_check_table(table: &[u8], answer: &mut [u32])
    ensures { answer.new ≡ answer_into (table_answer (decode table.now)) answer.old }
{
    if answer.len() < answer::FIELDS {
        return;
    }
    answer::put(pod::check_table(table), answer);
}

// Checks the first table against the second and shows the pair (s, t). An answer buffer of fewer than eight numbers gets nothing, and then
// nothing else is touched.
#[unsafe(no_mangle)]
pub extern "C" fn pod_check(
    first: &[u8],
    second: &[u8],
    s: usize,
    t: usize,
    ranks: &mut [u16],
    flow: &mut [u8],
    tree: &mut [u8],
    answer: &mut [u32],
)
    ensures { CheckedInto first.now second.now s t (lent ranks.old flow.old tree.old)
        (lent ranks.new flow.new tree.new) answer.old answer.new }
{
    if answer.len() < answer::FIELDS {
        return;
    }
    answer::put(pod::check(first, second, s, t, ranks, flow, tree), answer);
}

// Widens a table of the old layout. An answer buffer of fewer than eight numbers gets nothing, and then nothing else is touched.
#[unsafe(no_mangle)]
pub extern "C" fn pod_widen(old: &[u8], out: &mut [u8], answer: &mut [u32])
    ensures { WidenedInto old.now out.old out.new answer.old answer.new }
{
    if answer.len() < answer::FIELDS {
        return;
    }
    answer::put(pod::widen(old, out), answer);
}
