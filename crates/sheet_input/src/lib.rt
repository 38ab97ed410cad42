// What the program reads: F from its argument, and taps from bytes.
#![tactic(auto)]

mod argument;
mod taps;

ghost use Rattle.std.specs.Prelude.{◌≡◌};
ghost use Rattle.sheet_input.specs.Argument.{argument_of};
ghost use Rattle.sheet_input.specs.Input.{input_answer};
ghost use Rattle.refusal.specs.Answer.{answer_of};

use refusal::Refusal;
pub use taps::read_taps;

// F, where neither the input's length nor the argument is turned down.
pub fn fraction_bits(input: &[u8], argument: Option<&[u8]>) -> Result<u32, Refusal>
    ensures { answer_of result ≡ input_answer input.now (argument_of argument.entry) }
{
    let whole = input.len() / 8;
    if whole == 0 {
        return Err(Refusal::NoTaps);
    }
    if whole > 256 {
        return Err(Refusal::TooManyTaps);
    }
    if input.len() % 8 != 0 {
        return Err(Refusal::CutTap);
    }
    match argument {
        None => Ok(15),
        Some(text) => argument::bits_of(text),
    }
}
