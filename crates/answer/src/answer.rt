// The answer of a call, and its numbers in a buffer of a caller in C.
ghost use Rattle.std.specs.Prelude.{◌≡◌, ◌≤◌, length};
ghost use Rattle.answer.specs.Numbers.{refusal, with_written, with_answer};

// How many numbers an answer has.
pub const FIELDS: usize = 8;

// The answer of a call, 01's fields in its order. What a call has nothing for is 0.
#[derive(Clone, Copy, Default)]
pub struct Answer {
    // 0, or the number of the refusal
    pub number: u32,
    // the table refused, 1 or 2
    pub table: u32,
    // the length that a short buffer must have
    pub needed: u32,
    // the largest rank
    pub rounds: u32,
    // how many pairs are kept
    pub kept: u32,
    // 1 if the contract simulates the pod: the pair (0, 0) is kept
    pub verdict: u32,
    // the rank of the chosen pair
    pub rank: u32,
    // the bytes of flow or tree written
    pub written: u32,
}

impl Answer {
    // A refusal: the number, the table refused, and the length that a short buffer must have.
    pub fn refused(number: u32, table: u32, needed: u32) -> Self
        ensures { result ≡ refusal number table needed }
    {
        Answer {
            number,
            table,
            needed,
            ..Answer::default()
        }
    }
}

// The answer with the count of bytes written.
pub fn with_written(a: Answer, written: u32) -> Answer
    ensures { result ≡ with_written written a }
{
    Answer { written, ..a }
}

// The fields of an answer, in their order, from the start of a buffer that has room for them.
pub fn put(a: Answer, answer: &mut [u32])
    requires { 8 ≤ length answer.old }
    ensures { answer.new ≡ with_answer a answer.old }
{
    answer[..FIELDS].copy_from_slice(&[
        a.number, a.table, a.needed, a.rounds, a.kept, a.verdict, a.rank, a.written,
    ]);
}
