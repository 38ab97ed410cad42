// Every minimal form of a coefficient, in order, and their number.
#![tactic(auto)]

ghost use Rattle.std.specs.Prelude.{◌≡◌, ◌+◌, ◌-◌, ◌/◌, ◌%◌, ◌^◌, ◌<◌, ◌≤◌, ◌++◌, map, length, drop};
ghost use Rattle.signed_digit.specs.Masks.{plus_mask, minus_mask};
ghost use Rattle.signed_digit.specs.Forms.{listing};
ghost use Rattle.signed_digit.specs.Listed.{FormsListed, FormsCounted};
ghost use Rattle.form_links.specs.Inner.{grown};
ghost use Rattle.form_walk.specs.Inner.{offset_of};
ghost use Rattle.refusal.specs.Answer.{answer_of};

use form_walk::Walk;
use refusal::Refusal;

// No coefficient has more.
const MOST_FORMS: usize = 1597;

// Copies the first n elements, each with the offset, to the places from `at` on. The last comes first,
// since the places may begin among these n.
fn grow(table: &mut [u32], at: usize, n: usize, offset: u32)
    requires { at + n ≤ length table.old }
    ensures { table.new ≡ grown table.old at n offset }
{
    for i in (0..n).rev() {
        table[at + i] = table[i].wrapping_add(offset);
    }
}

// At a link the forms that take it follow those that do not. Their masks are those of the forms in
// front less the bit of the lower digit: the same in both tables.
fn widen(plus: &mut [u32], minus: &mut [u32], w: Walk)
    requires { (w.forms + w.moved ≤ length plus.old) × (w.forms + w.moved ≤ length minus.old) × (w.bit ≤ 2 ^ 33) }
    ensures plus { plus.new ≡ grown plus.old w.forms w.moved (offset_of w) }
    ensures minus { minus.new ≡ grown minus.old w.forms w.moved (offset_of w) }
{
    grow(plus, w.forms, w.moved, w.offset());
    grow(minus, w.forms, w.moved, w.offset());
}

// The number of minimal forms of n.
// Stays: this loop and that of `list` differ between skip and next; a closure there would state the invariant.
pub fn form_count(n: i32) -> u32
    ensures { FormsCounted n result }
{
    let mut w = Walk::start(form_masks::canonical(n));
    while w.links != 0 {
        w = w.skip().next();
    }
    w.forms as u32
}

// Lists the forms of n, and returns their number. The canonical form comes first; every copy has the
// digits that are still to come, so that each is a whole form. Nothing past the last is ever written,
// since each copy is in some form.
fn list(n: i32, plus: &mut [u32], minus: &mut [u32]) -> usize
    requires { (1597 ≤ length plus.old) × (1597 ≤ length minus.old) }
    ensures count { result ≡ length (listing 32 n) }
    ensures plus { plus.new ≡ map plus_mask (listing 32 n) ++ drop (length (listing 32 n)) plus.old }
    ensures minus { minus.new ≡ map minus_mask (listing 32 n) ++ drop (length (listing 32 n)) minus.old }
{
    let first = form_masks::canonical(n);
    plus[0] = first.plus;
    minus[0] = first.minus;
    let mut walk = Walk::start(first);
    while walk.links != 0 {
        let link = walk.skip();
        widen(plus, minus, link);
        walk = link.next();
    }
    walk.forms
}

// The minimal forms of n, in order, in the front of the two tables.
// Stays: the masks are in two tables and not in one of forms, since C lends two.
pub fn minimal_forms(n: i32, plus: &mut [u32], minus: &mut [u32]) -> Result<u32, Refusal>
    ensures { FormsListed n plus.old minus.old (answer_of result) plus.new minus.new }
{
    if plus.len() < MOST_FORMS || minus.len() < MOST_FORMS {
        return Err(Refusal::ShortTable);
    }
    Ok(list(n, plus, minus) as u32)
}
