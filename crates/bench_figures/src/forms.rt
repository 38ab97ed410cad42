// Figures on forms: how many minimal forms a coefficient has, by the count and by the listing, and
// their weight.
use crate::shown::{Pieces, Shown, Whole};
use std::fmt::Write;

fn figure(rt: &impl Print, n: i32) {
    let count = form_listing::form_count(n);
    let mut plus = [0u32; 1597];
    let mut minus = [0u32; 1597];
    let listed = form_listing::minimal_forms(n, &mut plus, &mut minus);
    let weight = form_masks::weight(form_masks::canonical(n));
    let second = bench_second::form::least(n.unsigned_abs());
    let _ = writeln!(
        Pieces(rt),
        "forms of {}: {count} listed {} weight {} | {} weight {}",
        Whole(i64::from(n)),
        Shown(listed.map_err(|r| r.into())),
        Shown(weight.map_err(|r| r.into())),
        second.count,
        second.weight
    );
}

pub(crate) fn counts(rt: &impl Print) {
    let coefficients = [
        0,
        1,
        3,
        11,
        13,
        45,
        180,
        -45,
        2147483647,
        -2147483648,
        1431655765,
        858993459,
        -858993459,
    ];
    for n in coefficients {
        figure(rt, n);
    }
}
