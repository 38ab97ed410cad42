// Why an entry turned its input down: one case for each number of document 01's table "Turned down", and for 13
// and 14, which document 02 adds.
#![tactic(auto)]

ghost use Rattle.std.specs.Prelude.{◌≡◌};
ghost use Rattle.refusal.specs.Table.{number_of, place_of};

// A case holds its place where the table has one other than 0. That of overlapping masks is a digit, or a cell
// where planes are read; that of a missing form is a tap, or a cell where planes are written.
#[derive(Clone, Copy)]
pub enum Refusal {
    NoTaps,
    TooManyTaps,
    ShortTable,
    FractionBits,
    TapNotFinite(u32),
    NotNormalisable(u32),
    OutOfBounds(u32),
    MasksOverlap(u32),
    NoSuchForm(u32),
    RowRule(u32),
    TapRowRule(u32),
    CutTap,
    TextTooLong,
    GridSides,
}

// The table's number.
pub fn number(refusal: Refusal) -> u32
    ensures { result ≡ number_of refusal }
{
    match refusal {
        Refusal::NoTaps => 1,
        Refusal::TooManyTaps => 2,
        Refusal::ShortTable => 3,
        Refusal::FractionBits => 4,
        Refusal::TapNotFinite(_) => 5,
        Refusal::OutOfBounds(_) => 6,
        Refusal::NotNormalisable(_) => 7,
        Refusal::MasksOverlap(_) => 8,
        Refusal::NoSuchForm(_) => 9,
        Refusal::RowRule(_) => 10,
        Refusal::TapRowRule(_) => 11,
        Refusal::CutTap => 12,
        Refusal::TextTooLong => 13,
        Refusal::GridSides => 14,
    }
}

// The table's place, counted from 0.
pub fn place(refusal: Refusal) -> u32
    ensures { result ≡ place_of refusal }
{
    match refusal {
        Refusal::TapNotFinite(place)
        | Refusal::OutOfBounds(place)
        | Refusal::NotNormalisable(place)
        | Refusal::MasksOverlap(place)
        | Refusal::NoSuchForm(place)
        | Refusal::RowRule(place)
        | Refusal::TapRowRule(place) => place,
        Refusal::NoTaps
        | Refusal::TooManyTaps
        | Refusal::ShortTable
        | Refusal::FractionBits
        | Refusal::CutTap
        | Refusal::TextTooLong
        | Refusal::GridSides => 0,
    }
}
