// Minimal signed-digit forms and reduction: functions for C, declared in include/fir.h.
#![tactic(auto)]

ghost use Rattle.fir_forms.specs.Form.{FormValuedWord, FormWeighedWord, InCanonicalFormWord};
ghost use Rattle.fir_forms.specs.Listing.{FormsListedWord, FormsCountedWord};

mod reduction;

use fir_words::store;
use form_masks::Form;
pub use reduction::{fir_reduce, fir_trimmed};

// The value of a form.
#[unsafe(no_mangle)]
pub extern "C" fn fir_form_value(plus: u32, minus: u32, value: &mut i64) -> u64
    ensures { FormValuedWord plus minus value.old result value.new }
{
    store(form_masks::value(Form { plus, minus }), value)
}

// The weight of a form.
#[unsafe(no_mangle)]
pub extern "C" fn fir_form_weight(plus: u32, minus: u32, weight: &mut u32) -> u64
    ensures { FormWeighedWord plus minus weight.old result weight.new }
{
    store(form_masks::weight(Form { plus, minus }), weight)
}

// The canonical form of a coefficient.
#[unsafe(no_mangle)]
pub extern "C" fn fir_canonical(n: i32, plus: &mut u32, minus: &mut u32) -> u64
    ensures { InCanonicalFormWord n result plus.new minus.new }
{
    let form = form_masks::canonical(n);
    *plus = form.plus;
    *minus = form.minus;
    0
}

// Every minimal form of a coefficient, in order.
#[unsafe(no_mangle)]
pub extern "C" fn fir_minimal_forms(
    n: i32,
    plus: &mut [u32],
    minus: &mut [u32],
    count: &mut u32,
) -> u64
    ensures { FormsListedWord n plus.old minus.old count.old result
        plus.new minus.new count.new }
{
    store(form_listing::minimal_forms(n, plus, minus), count)
}

// The number of minimal forms of a coefficient.
#[unsafe(no_mangle)]
pub extern "C" fn fir_form_count(n: i32, count: &mut u32) -> u64
    ensures { FormsCountedWord n result count.new }
{
    *count = form_listing::form_count(n);
    0
}
