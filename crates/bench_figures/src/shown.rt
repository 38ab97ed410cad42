// How the figures are written: low numbers in decimal, a float as its 16 hexadecimal digits.
use refusal::Refusal;
use std::fmt;

// Where a line goes: each piece of it by a write of its own, and one that cannot be written keeps none
// after it back.
#[derive(Clone, Copy)]
pub(crate) struct Pieces<'a, P: Print>(pub &'a P);

impl<'a, P: Print> fmt::Write for Pieces<'a, P> {
    fn write_str(&mut self, piece: &str) -> fmt::Result {
        let _ = self.0.write_all(piece.as_bytes());
        Ok(())
    }
}

// A whole number, its sign as a piece of its own.
#[derive(Clone, Copy)]
pub(crate) struct Whole(pub i64);

impl fmt::Display for Whole {
    fn fmt<W: fmt::Write>(&self, f: &mut fmt::Formatter<W>) -> fmt::Result {
        if self.0 < 0 {
            f.write_str("-")?;
        }
        write!(f, "{}", self.0.unsigned_abs())
    }
}

#[derive(Clone, Copy)]
pub(crate) struct Digits(pub f64);

impl fmt::Display for Digits {
    fn fmt<W: fmt::Write>(&self, f: &mut fmt::Formatter<W>) -> fmt::Result {
        if self.0.is_nan() {
            return f.write_str("nan");
        }
        let mut digits = [0u8; 16];
        let mut rest = self.0.to_bits();
        for digit in digits.iter_mut().rev() {
            *digit = b"0123456789abcdef"[(rest % 16) as usize];
            rest /= 16;
        }
        let Ok(piece) = str::from_utf8(&digits) else {
            return Err(fmt::Error);
        };
        f.write_str(piece)
    }
}

// A refusal's number in the table and its place.
#[derive(Clone, Copy)]
pub(crate) struct TurnedDown {
    pub number: u32,
    pub place: usize,
}

impl From<Refusal> for TurnedDown {
    fn from(refusal: Refusal) -> TurnedDown {
        TurnedDown {
            number: refusal::number(refusal),
            place: refusal::place(refusal) as usize,
        }
    }
}

// A figure, or why there is none.
#[derive(Clone, Copy)]
pub(crate) struct Shown<T>(pub Result<T, TurnedDown>);

impl<T: fmt::Display> fmt::Display for Shown<T> {
    fn fmt<W: fmt::Write>(&self, f: &mut fmt::Formatter<W>) -> fmt::Result {
        match &self.0 {
            Ok(figure) => write!(f, "{figure}"),
            Err(r) => write!(f, "refusal {} place {}", r.number, r.place),
        }
    }
}
