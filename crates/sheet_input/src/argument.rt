// F from the first argument.
ghost use Rattle.std.specs.Prelude.{◌≡◌, ◌-◌, true, false, MatchResult};
ghost use Rattle.text.specs.Numbers.{is_digit};
ghost use Rattle.sheet_input.specs.Argument.{text as bytes, fraction_bits_of};
ghost use Rattle.refusal.specs.Answer.{answer_of};
ghost use Rattle.refusal.specs.declared.Refusal.TheVariants.{FractionBits};

use refusal::Refusal;

// The most fraction bits.
const MOST: u32 = 31;

// The value of a digit.
// Stays: a range where std has `to_digit`, since an edit falls at its lower end.
fn digit(b: u8) -> Result<u32, Refusal>
    ensures { MatchResult result (λ d. (is_digit b ≡ true) × (d ≡ b - 48)) (λ r. (is_digit b ≡ false) × (r ≡ FractionBits)) }
{
    match b {
        b'0'..=b'9' => Ok((b - b'0') as u32),
        _ => Err(Refusal::FractionBits),
    }
}

// The number of an argument of any length: what is above 31 stays so with every digit more.
pub fn bits_of(text: &[u8]) -> Result<u32, Refusal>
    ensures { answer_of result ≡ fraction_bits_of (bytes text.now) }
{
    if text.is_empty() {
        return Err(Refusal::FractionBits);
    }
    let mut f: u32 = 0;
    for b in text {
        f = 10 * f + digit(*b)?;
        if f > MOST {
            return Err(Refusal::FractionBits);
        }
    }
    Ok(f)
}
