// A form as two masks: its value, its weight, and the canonical form of a coefficient.
#![tactic(auto)]

ghost use Rattle.std.specs.Prelude.{◌≡◌, ◌≤◌, ◌^◌, MatchResult};
ghost use Rattle.std.specs.Int.Bits.{bit_and};
ghost use Rattle.std.specs.Int.Count as Count;
ghost use Rattle.refusal.specs.Answer.{answer_of};
ghost use Rattle.signed_digit.specs.CanonicalForm.{canonical_nat};
ghost use Rattle.form_masks.specs.Form.{form_of, InCanonicalForm};
ghost use Rattle.form_masks.specs.Inner.{OverlapTold};
ghost use Rattle.form_masks.specs.Value as Value;
ghost use Rattle.form_masks.specs.Weight as Weight;

use refusal::Refusal;

// The places holding 1 and the places holding -1.
#[derive(Clone, Copy)]
pub struct Form {
    pub plus: u32,
    pub minus: u32,
}

// The number of ones in x. Every weight is counted here.
// Stays: docs/STATEMENTS.md and docs/DECISIONS.md name it as the one weight.
pub fn ones(x: u32) -> u32
    ensures { result ≡ Count.ones x }
{
    x.count_ones()
}

// Turned down at the lowest place that is in both masks.
fn disjoint(form: Form) -> Result<(), Refusal>
    ensures { MatchResult result (λ _. bit_and form.plus form.minus ≡ 0) (λ refusal. OverlapTold form refusal) }
{
    let both = form.plus & form.minus;
    if both != 0 {
        return Err(Refusal::MasksOverlap(both.trailing_zeros()));
    }
    Ok(())
}

// The first mask minus the second.
pub fn value(form: Form) -> Result<i64, Refusal>
    ensures { Value.FormValued form (answer_of result) }
{
    disjoint(form)?;
    Ok((form.plus as i64) - (form.minus as i64))
}

// The number of nonzero digits.
pub fn weight(form: Form) -> Result<u32, Refusal>
    ensures { Weight.FormWeighed form (answer_of result) }
{
    disjoint(form)?;
    Ok(ones(form.plus | form.minus))
}

// The canonical form of m: its nonzero digits stand one place below the ones of 3m xor m, and its
// masks differ by m.
fn canonical_of(m: u64) -> Form
    requires { m ≤ 2 ^ 31 }
    ensures { result ≡ form_of (canonical_nat 32 m) }
{
    let nonzero = ((3 * m) ^ m) / 2;
    let plus = (nonzero + m) / 2;
    Form {
        plus: plus as u32,
        minus: (nonzero - plus) as u32,
    }
}

// The canonical form of a coefficient. The form of a negative one is that of its magnitude with the
// masks exchanged.
pub fn canonical(n: i32) -> Form
    ensures { InCanonicalForm n result }
{
    let form = canonical_of(n.unsigned_abs() as u64);
    if n < 0 {
        return Form {
            plus: form.minus,
            minus: form.plus,
        };
    }
    form
}
