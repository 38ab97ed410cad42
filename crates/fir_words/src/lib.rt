// What a function for C answers: a 64-bit word, and the result in lent memory.
#![tactic(auto)]

ghost use Rattle.std.specs.Prelude.{◌≡◌, ◌+◌, ◌*◌, ◌^◌};
ghost use Rattle.refusal.specs.Table.{number_of, place_of};
ghost use Rattle.refusal.specs.Answer.{answer_of, stored};
ghost use Rattle.fir_words.specs.Words.{refusal_word_of};

use refusal::Refusal;

// The refusal number in the upper half, the place in the lower.
// Stays: no From, since `u64::from(refusal)` would not say that number and place are packed.
pub fn refusal_word(refusal: Refusal) -> u64
    ensures { result ≡ number_of refusal * 2 ^ 32 + place_of refusal }
{
    (refusal::number(refusal) as u64) * 0x1_0000_0000 + (refusal::place(refusal) as u64)
}

// 0, or the word of a refusal.
pub fn answer_word(answer: Result<(), Refusal>) -> u64
    ensures { result ≡ refusal_word_of (answer_of answer) }
{
    match answer {
        Ok(()) => 0,
        Err(refusal) => refusal_word(refusal),
    }
}

// The same of an answer that has a result, which is stored where C lent memory for it.
pub fn store<T: Copy>(answer: Result<T, Refusal>, lent: &mut T) -> u64
    ensures word { result ≡ refusal_word_of (answer_of answer) }
    ensures lent { lent.new ≡ stored (answer_of answer) (λ a. a) lent.old }
{
    match answer {
        Ok(value) => {
            *lent = value;
            0
        }
        Err(refusal) => refusal_word(refusal),
    }
}
