ghost use Rattle.std.specs.Prelude.{◌≡◌, ℕ, ◌%◌, ◌^◌, List, [], ◌∷◌, sum};
ghost use Rattle.trace_replay.specs.requests.Answers.{answer_of};
ghost use Rattle.trace_lines.specs.answers.Counting.{Counts, is_done, tally_by};

use trace_replay::requests::AnswerKind;

/// The counts of a run. A count of 64 bits stays at its highest value.
#[derive(Clone, Copy)]
pub struct Tally {
    /// How many requests the script has.
    pub requests: u64,
    /// How many answers came so far.
    pub answers: u64,
    /// How many of the answers are ok, reads and writes alike.
    pub ok: u64,
    /// How many bytes the answer text has.
    pub text: u64,
    /// The sum of the bytes of the answer text, modulo 2^32.
    pub sum: u32,
}

/// Whether a request was answered ok, as a read or as a write.
fn is_ok(kind: AnswerKind) -> bool
    ensures { (bytes : List ℕ) → result ≡ is_done (answer_of bytes kind) }
{
    match kind {
        AnswerKind::ReadOk { .. } | AnswerKind::WriteOk => true,
        AnswerKind::Eof | AnswerKind::Error { .. } => false,
    }
}

/// The sum of bytes, modulo 2^32.
fn sum_of(text: &[u8]) -> u32
    ensures { result ≡ sum text.now % 2 ^ 32 }
{
    let mut sum = 0u32;
    for byte in text {
        sum = sum.wrapping_add(u32::from(*byte));
    }
    sum
}

impl Tally {
    /// The tally of a script that has this many requests, none of which is answered yet.
    pub fn new(requests: u64) -> Tally
        ensures { result ≡ tally_by requests [] [] }
    {
        Tally {
            requests,
            answers: 0,
            ok: 0,
            text: 0,
            sum: 0,
        }
    }

    /// Counts an answer.
    pub fn count_answer(&mut self, kind: AnswerKind)
        ensures counts { (line id : ℕ) → (bytes : List ℕ) → Counts (record { line = line; id = id; answer = answer_of bytes kind } ∷ []) [] self.old self.new }
        ensures requests { self.new.requests ≡ self.old.requests }
    {
        self.answers = self.answers.saturating_add(1);
        self.ok = self.ok.saturating_add(u64::from(is_ok(kind)));
    }

    /// Counts a piece of the answer text.
    pub fn count_text(&mut self, text: &[u8])
        ensures counts { Counts [] text.now self.old self.new }
        ensures requests { self.new.requests ≡ self.old.requests }
    {
        self.text = self.text.saturating_add(text.len() as u64);
        self.sum = self.sum.wrapping_add(sum_of(text));
    }
}
