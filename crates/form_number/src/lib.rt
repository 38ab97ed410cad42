// A form by its number in the listing of a coefficient, without the listing.
#![tactic(auto)]

ghost use Rattle.std.specs.Prelude.{◌≡◌, ◌%◌, ◌^◌, ◌<◌, ◌≤◌, [], length, reverse, slice_index_or};
ghost use Rattle.signed_digit.specs.Forms.{listing};
ghost use Rattle.form_masks.specs.Form.{form_of};
ghost use Rattle.form_number.specs.Inner.{AllNoted, offset_at_of};

use form_masks::Form;
use form_walk::Walk;

// A link of a walk: the number of forms in front of those that take it, and what the masks of these
// have more than those of the forms that they are copies of.
#[derive(Clone, Copy, Default)]
struct Link {
    front: u32,
    offset: u32,
}

// Notes the links of the walk of n, and returns their number.
// Stays: no heap, so a list that grows has k beside it; a closure between skip and next would state the invariant.
fn note_links(n: i32, links: &mut [Link]) -> usize
    requires { 17 ≤ length links.old }
    ensures { AllNoted n links.new result }
{
    let mut walk = Walk::start(form_masks::canonical(n));
    let mut k: usize = 0;
    while walk.links != 0 {
        let link = walk.skip();
        links[k] = Link {
            front: link.forms as u32,
            offset: link.offset(),
        };
        k += 1;
        walk = link.next();
    }
    k
}

// The sum of the offsets of the links that a form takes. The last link comes first: at or past the
// forms in front, the form takes it, and is the copy of an earlier one.
fn offset_at(links: &[Link], number: u32) -> u32
    ensures { result ≡ offset_at_of (reverse links.now) number % 2 ^ 32 }
{
    let mut i = number;
    let mut sum: u32 = 0;
    for link in links.iter().rev() {
        if link.front <= i {
            i -= link.front;
            sum = sum.wrapping_add(link.offset);
        }
    }
    sum
}

// The form of this number in the listing of n, by its links. A coefficient has at most 17.
fn by_links(n: i32, number: u32) -> Form
    requires { number < length (listing 32 n) }
    ensures { result ≡ form_of (slice_index_or (listing 32 n) number []) }
{
    let mut links = [Link::default(); 17];
    let count = note_links(n, &mut links);
    let offset = offset_at(&links[..count], number);
    let first = form_masks::canonical(n);
    Form {
        plus: first.plus.wrapping_add(offset),
        minus: first.minus.wrapping_add(offset),
    }
}

// The form of this number in the listing of n. The canonical form is the first, and is had without a
// walk over the links.
pub fn form_at(n: i32, number: u32) -> Form
    requires { number < length (listing 32 n) }
    ensures { result ≡ form_of (slice_index_or (listing 32 n) number []) }
{
    if number == 0 {
        return form_masks::canonical(n);
    }
    by_links(n, number)
}
