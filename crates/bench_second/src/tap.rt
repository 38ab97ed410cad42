// Rounding a tap digit by digit, by exact sums and differences of floats.
ghost use Rattle.std.specs.Prelude.{◌≡◌, ◌-◌, ◌^◌, ◌≤◌, ◌<◌, false, length, IfSome, IfOk};
ghost use Rattle.std.specs.Float.{binary64};
ghost use Rattle.std.specs.Float.Ieee.{div};
ghost use Rattle.bench_second.specs.Inner.{RoundedByDigits, Summed, set_divisor, LargestFound, SetJudged, Judged, tap_number_of, number_of, place_of};

// Why a tap is turned down.
#[derive(Clone, Copy, PartialEq, Eq)]
pub enum TapRefusal {
    FractionBits,
    NotFinite,
    OutOfBounds,
}

impl TapRefusal {
    // The number in the table.
    pub fn number(self) -> u32
        ensures { result ≡ tap_number_of self }
    {
        match self {
            TapRefusal::FractionBits => 4,
            TapRefusal::NotFinite => 5,
            TapRefusal::OutOfBounds => 6,
        }
    }
}

// The sign and the magnitude of N, and the leftover.
#[derive(Clone, Copy)]
pub struct Rounded {
    pub negative: bool,
    pub size: u64,
    pub leftover: f64,
}

// x doubled f times.
fn doubled(x: f64, f: u32) -> f64 {
    let mut y = x;
    for _ in 0..f {
        y += y;
    }
    y
}

// A whole number and the rest of what it was taken from.
#[derive(Clone, Copy)]
pub struct Parts {
    pub whole: u32,
    pub rest: f64,
}

// The powers of two from 2^31 down to 1, each taken off where it can be.
fn whole_part(x: f64) -> Parts {
    let mut whole = 0;
    let mut rest = x;
    for place in (0..32u32).rev() {
        let power = 1u32 << place;
        if rest >= f64::from(power) {
            rest -= f64::from(power);
            whole |= power;
        }
    }
    Parts { whole, rest }
}

// Whether a whole number and the rest go up: past a half, and at a half from an odd number.
fn goes_up(parts: Parts) -> bool {
    if parts.rest == 0.5 {
        parts.whole % 2 == 1
    } else {
        parts.rest > 0.5
    }
}

fn most(negative: bool) -> u64
    ensures { (result ≤ 2 ^ 31) × (negative ≡ false → result ≤ 2 ^ 31 - 1) }
{
    if negative { 2147483648 } else { 2147483647 }
}

// N and the leftover of a tap.
pub fn round(tap: f64, f: u32) -> Result<Rounded, TapRefusal>
    ensures { RoundedByDigits tap f result }
{
    if f > 31 {
        return Err(TapRefusal::FractionBits);
    }
    if !tap.is_finite() {
        return Err(TapRefusal::NotFinite);
    }
    let negative = tap < 0.0;
    let scaled = doubled(tap.abs(), f);
    if scaled >= 4294967296.0 {
        return Err(TapRefusal::OutOfBounds);
    }
    let parts = whole_part(scaled);
    let up = goes_up(parts);
    let size = u64::from(parts.whole) + u64::from(up);
    if size > most(negative) {
        return Err(TapRefusal::OutOfBounds);
    }
    let rest = if up { parts.rest - 1.0 } else { parts.rest };
    let leftover = if negative { -rest } else { rest };
    Ok(Rounded {
        negative,
        size,
        leftover,
    })
}

// The taps added in order.
pub fn sum(taps: &[f64]) -> f64
    ensures { Summed taps.now result }
{
    taps.iter().fold(0.0, |s, t| s + *t)
}

// Why a set is turned down, with the place of the tap where there is one.
#[derive(Clone, Copy)]
pub enum SetRefusal {
    NoTaps,
    TooManyTaps,
    FractionBits,
    NotFinite(usize),
    OutOfBounds(usize),
    NotNormalisable(usize),
}

impl SetRefusal {
    // The number in the table.
    pub fn number(self) -> u32
        ensures { result ≡ number_of self }
    {
        match self {
            SetRefusal::NoTaps => 1,
            SetRefusal::TooManyTaps => 2,
            SetRefusal::FractionBits => 4,
            SetRefusal::NotFinite(_) => 5,
            SetRefusal::OutOfBounds(_) => 6,
            SetRefusal::NotNormalisable(_) => 7,
        }
    }

    // The place, counted from 0.
    pub fn place(self) -> usize
        ensures { result ≡ place_of self }
    {
        match self {
            SetRefusal::NotFinite(tap)
            | SetRefusal::OutOfBounds(tap)
            | SetRefusal::NotNormalisable(tap) => tap,
            SetRefusal::NoTaps | SetRefusal::TooManyTaps | SetRefusal::FractionBits => 0,
        }
    }
}

// A set of taps, and what each is divided by before it is rounded.
#[derive(Clone, Copy)]
pub struct TapSet<'a> {
    pub taps: &'a [f64],
    pub divisor: f64,
    pub f: u32,
}

impl<'a> TapSet<'a> {
    // N and the leftover of one of the taps.
    pub fn round(self, tap: f64) -> Result<Rounded, TapRefusal>
        ensures { RoundedByDigits (div binary64 tap self.entry.divisor) self.entry.f result }
    {
        round(tap / self.divisor, self.f)
    }

    // The first tap that is turned down so.
    fn first_refused(self, refusal: TapRefusal) -> Option<usize>
        ensures { IfSome result (λ k. k < length self.entry.taps.now) }
    {
        self.taps
            .iter()
            .position(|tap| self.round(*tap).err() == Some(refusal))
    }

    // The leftover that is largest in size, and the earliest of equals.
    pub fn largest_leftover(self) -> f64
        ensures { LargestFound self.entry.taps.now result }
    {
        let mut largest: f64 = 0.0;
        for tap in self.taps {
            if let Ok(n) = self.round(*tap)
                && n.leftover.abs() > largest.abs()
            {
                largest = n.leftover;
            }
        }
        largest
    }

    // Whether each of the taps, which are finite, is a coefficient.
    fn check(self) -> Result<(), SetRefusal>
        ensures { Judged (length self.entry.taps.now) result }
    {
        if let Some(tap) = self.first_refused(TapRefusal::NotFinite) {
            return Err(SetRefusal::NotNormalisable(tap));
        }
        if let Some(tap) = self.first_refused(TapRefusal::OutOfBounds) {
            return Err(SetRefusal::OutOfBounds(tap));
        }
        Ok(())
    }
}

// What each tap of a set is divided by, whose coefficients have room.
pub fn judge(taps: &[f64], f: u32, normalised: bool) -> Result<TapSet<'_>, SetRefusal>
    ensures judged { SetJudged (length taps.now) f result }
    ensures given { IfOk result (λ s. (s.taps.now ≡ taps.now) × (s.f ≡ f) × (s.divisor ≡ set_divisor normalised taps.now)) }
{
    if taps.is_empty() {
        return Err(SetRefusal::NoTaps);
    }
    if taps.len() > 256 {
        return Err(SetRefusal::TooManyTaps);
    }
    if f > 31 {
        return Err(SetRefusal::FractionBits);
    }
    let given = TapSet {
        taps,
        divisor: 1.0,
        f,
    };
    if let Some(tap) = given.first_refused(TapRefusal::NotFinite) {
        return Err(SetRefusal::NotFinite(tap));
    }
    let divisor = if normalised { sum(taps) } else { 1.0 };
    if !divisor.is_finite() || divisor == 0.0 {
        return Err(SetRefusal::NotNormalisable(0));
    }
    let set = TapSet { taps, divisor, f };
    set.check()?;
    Ok(set)
}
