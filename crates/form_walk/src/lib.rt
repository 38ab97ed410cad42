// The walk over the links of a coefficient.
#![tactic(auto)]

ghost use Rattle.std.specs.Prelude.{◌≡◌, ◌≢◌, ◌*◌, ◌≤◌, ◌<◌, ◌^◌};
ghost use Rattle.form_walk.specs.Inner.{ahead_of, IsTaken, IsStart, skip_of, next_of, offset_of};

use form_masks::Form;
use word::choose;

// Two canonical digits that stand two places apart are linked. A form takes a link by moving its
// upper digit one place down and turning the sign of its lower digit, as 1 0 -1 becomes 0 1 1. A
// link between opposite digits can be taken where the link just above is not, one between equal
// digits where it is.
//
// The walk goes over the links that some form takes, from the low end. links and opposite have those
// still to come, all of them and those between opposite digits; the link in the lowest bit has its
// upper digit at bit. forms is the number of forms of the digits passed, and moved is the number of
// forms in which a link comes next that touches the last one and is taken.
#[derive(Clone, Copy)]
pub struct Walk {
    pub links: usize,
    pub opposite: usize,
    pub bit: usize,
    pub forms: usize,
    pub moved: usize,
}

// The links known to be taken by some form, and those that are taken where the link at the distance
// looked ahead is.
#[derive(Clone, Copy)]
struct Chains {
    taken: u32,
    chained: u32,
}

impl Chains {
    fn ahead(self, distance: u32) -> Chains
        requires { distance < 32 }
        ensures { result ≡ ahead_of distance self }
    {
        Chains {
            taken: self.taken | (self.chained & (self.taken >> distance)),
            chained: self.chained & (self.chained >> distance),
        }
    }
}

// The links that some form takes: those between opposite digits, and those between equal digits with
// one that is taken just above. No other mask is so.
fn taken(opposite: u32, equal: u32) -> u32
    ensures { IsTaken opposite equal result }
{
    let links = Chains {
        taken: opposite,
        chained: equal,
    };
    links.ahead(2).ahead(4).ahead(8).ahead(16).taken
}

impl Walk {
    // The walk over the links of a canonical form.
    pub fn start(form: Form) -> Walk
        ensures { IsStart form result }
    {
        let opposite = (form.plus & (form.minus / 4)) | (form.minus & (form.plus / 4));
        let equal = (form.plus & (form.plus / 4)) | (form.minus & (form.minus / 4));
        Walk {
            links: (taken(opposite, equal) as usize) * 4,
            opposite: (opposite as usize) * 4,
            bit: 1,
            forms: 1,
            moved: 0,
        }
    }

    // Up to the next link. Where it does not touch the last one, nothing binds it.
    pub fn skip(self) -> Walk
        requires { (self.links ≢ 0) × (self.links ≤ 2 ^ 35) × (self.bit * self.links ≤ 2 ^ 35) }
        ensures { result ≡ skip_of self }
    {
        let places = self.links.trailing_zeros();
        Walk {
            links: self.links >> places,
            opposite: self.opposite >> places,
            bit: self.bit << places,
            forms: self.forms,
            moved: choose(places == 0, self.moved, self.forms),
        }
    }

    // Past the next link. Its kind is not to be guessed, so numbers are chosen and no branch is taken.
    pub fn next(self) -> Walk
        requires { (self.forms ≤ 2 ^ 34) × (self.moved ≤ 2 ^ 34) × (self.bit ≤ 2 ^ 33) }
        ensures { result ≡ next_of self }
    {
        let opposite = self.opposite % 2 == 1;
        let both = self.forms + self.moved;
        Walk {
            links: self.links / 4,
            opposite: self.opposite / 4,
            bit: self.bit * 4,
            forms: choose(opposite, both, self.forms),
            moved: choose(opposite, self.forms, both),
        }
    }

    // What the masks of a form that takes the next link have less than those of the form that it is a
    // copy of, as a number that is added: the bit of the lower digit is taken away.
    pub fn offset(self) -> u32
        requires { self.bit ≤ 2 ^ 33 }
        ensures { result ≡ offset_of self }
    {
        ((self.bit / 4) as u32).wrapping_neg()
    }
}
