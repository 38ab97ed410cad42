// Figures on taps.
ghost use Rattle.std.specs.Prelude.{◌≤◌, ◌^◌, length};

use crate::shown::{Digits, Pieces, Shown, TurnedDown, Whole};
use bench_second::tap::{SetRefusal, TapRefusal};
use std::fmt;
use std::fmt::Write;
use tap::RoundedTap;

// A coefficient, with the leftover of one that is not exact.
#[derive(Clone, Copy)]
struct Coefficient {
    n: i64,
    leftover: Option<f64>,
}

impl fmt::Display for Coefficient {
    fn fmt<W: fmt::Write>(&self, f: &mut fmt::Formatter<W>) -> fmt::Result {
        match self.leftover {
            None => write!(f, "{} exact", Whole(self.n)),
            Some(leftover) => write!(f, "{} leftover {}", Whole(self.n), Digits(leftover)),
        }
    }
}

fn core_tap(tap: f64, f: u32) -> Result<Coefficient, TurnedDown> {
    match tap::round_tap(tap, f) {
        RoundedTap::Exact(n) => Ok(Coefficient {
            n: i64::from(n),
            leftover: None,
        }),
        RoundedTap::Rounded(n, leftover) => Ok(Coefficient {
            n: i64::from(n),
            leftover: Some(leftover),
        }),
        RoundedTap::Refused(r) => Err(r.into()),
    }
}

impl From<TapRefusal> for TurnedDown {
    fn from(refusal: TapRefusal) -> TurnedDown {
        TurnedDown {
            number: refusal.number(),
            place: 0,
        }
    }
}

// N of the second implementation, which holds it as its sign and its magnitude.
fn signed(tap: bench_second::tap::Rounded) -> i64
    requires { tap.size ≤ 2 ^ 31 }
{
    if tap.negative {
        -(tap.size as i64)
    } else {
        tap.size as i64
    }
}

fn second_tap(tap: f64, f: u32) -> Result<Coefficient, TurnedDown> {
    let rounded = bench_second::tap::round(tap, f)?;
    let leftover = if rounded.leftover == 0.0 {
        None
    } else {
        Some(rounded.leftover)
    };
    Ok(Coefficient {
        n: signed(rounded),
        leftover,
    })
}

fn figure(rt: &impl Print, tap: f64, f: u32) {
    let _ = writeln!(
        Pieces(rt),
        "tap {} at {f}: {} | {}",
        Digits(tap),
        Shown(core_tap(tap, f)),
        Shown(second_tap(tap, f))
    );
}

pub(crate) fn one_by_one(rt: &impl Print) {
    let figures = [
        (0.625, 2),
        (-0.625, 2),
        (0.5, 2),
        (0.5, 0),
        (-0.5, 0),
        (1.5, 0),
        (-1.5, 0),
        (-1.0, 31),
        (1.0, 31),
        (0.99999999999999988897769753748, 31),
        (-0.0, 31),
        (0.49999999999999994448884876874, 0),
        (-2147483648.25, 0),
        (-2147483648.5, 0),
        (2147483647.5, 0),
        (f64::NAN, 3),
        (f64::NEG_INFINITY, 3),
        (0.625, 32),
    ];
    for (tap, f) in figures {
        figure(rt, tap, f);
    }
}

// The coefficients of a set, each a T.
#[derive(Clone, Copy)]
struct Set<'a, T> {
    divisor: f64,
    leftover: f64,
    coefficients: &'a [T],
}

impl<'a, T: Copy + Into<i64>> fmt::Display for Set<'a, T> {
    fn fmt<W: fmt::Write>(&self, f: &mut fmt::Formatter<W>) -> fmt::Result {
        write!(
            f,
            "divisor {} leftover {} coefficients",
            Digits(self.divisor),
            Digits(self.leftover)
        )?;
        for n in self.coefficients {
            write!(f, " {}", Whole((*n).into()))?;
        }
        Ok(())
    }
}

fn core_set<'a>(
    taps: &[f64],
    f: u32,
    normalised: bool,
    table: &'a mut [i32],
) -> Result<Set<'a, i32>, TurnedDown> {
    let report = tap_set::round_taps(taps, f, normalised, table)?;
    Ok(Set {
        divisor: report.divisor,
        leftover: report.leftover,
        coefficients: table,
    })
}

impl From<SetRefusal> for TurnedDown {
    fn from(refusal: SetRefusal) -> TurnedDown {
        TurnedDown {
            number: refusal.number(),
            place: refusal.place(),
        }
    }
}

fn second_set<'a>(
    taps: &[f64],
    f: u32,
    normalised: bool,
    table: &'a mut [i64],
) -> Result<Set<'a, i64>, TurnedDown> {
    let set = bench_second::tap::judge(taps, f, normalised)?;
    for (n, tap) in table.iter_mut().zip(taps) {
        *n = signed(set.round(*tap)?);
    }
    Ok(Set {
        divisor: set.divisor,
        leftover: set.largest_leftover(),
        coefficients: table,
    })
}

// The taps of a set, each with a blank after it.
#[derive(Clone, Copy)]
struct Taps<'a>(&'a [f64]);

impl<'a> fmt::Display for Taps<'a> {
    fn fmt<W: fmt::Write>(&self, f: &mut fmt::Formatter<W>) -> fmt::Result {
        for tap in self.0 {
            write!(f, "{} ", Digits(*tap))?;
        }
        Ok(())
    }
}

// Of up to 4 taps.
fn figure_of_set(rt: &impl Print, taps: &[f64], f: u32, normalised: bool)
    requires { length taps.now ≤ 4 }
{
    let n = taps.len();
    let mut table = [0i32; 4];
    let mut second = [0i64; 4];
    let _ = writeln!(
        Pieces(rt),
        "set {}{}at {f}: {} | {}",
        if normalised { "normalised " } else { "" },
        Taps(taps),
        Shown(core_set(taps, f, normalised, &mut table[..n])),
        Shown(second_set(taps, f, normalised, &mut second[..n]))
    );
}

pub(crate) fn sets(rt: &impl Print) {
    figure_of_set(rt, &[1.0, 1.0, 1.0, 1.0], 2, true);
    figure_of_set(rt, &[1.0, -1.0], 2, true);
    figure_of_set(rt, &[], 2, true);
    figure_of_set(rt, &[0.0625, -0.625, 0.625], 2, false);
    figure_of_set(rt, &[0.0625, -0.375, 0.625], 2, false);
    figure_of_set(rt, &[1.0, 2.0, 4.0], 5, true);
    figure_of_set(rt, &[3.0, f64::NAN, f64::INFINITY], 2, false);
    figure_of_set(rt, &[1.0, -1.0, 4.9e-324], 2, true);
    figure_of_set(rt, &[1.0, 3.0, 4.0], 31, false);
}
