// A tap row in a table of words, read and written.
ghost use Rattle.std.specs.Prelude.{◌≡◌, ◌+◌, ◌*◌, ◌≤◌, length};
ghost use Rattle.std.proofs.lemmas.List.Edits.{sets};
ghost use Rattle.network.specs.Rows.{tap_words, tap_row_at, words_of_tap_row};

use crate::TapRow;

// The words of a tap row.
const TAP_WORDS: usize = 3;

// Tap row j.
pub fn read_tap_row(taps: &[u32], j: usize) -> TapRow
    requires { tap_words * j + tap_words ≤ length taps.now }
    ensures { result ≡ tap_row_at taps.now j }
{
    let at = TAP_WORDS * j;
    TapRow {
        sign: taps[at],
        row: taps[at + 1],
        shift: taps[at + 2],
    }
}

// Tap row j becomes this one.
pub fn write_tap_row(taps: &mut [u32], j: usize, tap: TapRow)
    requires { tap_words * j + tap_words ≤ length taps.old }
    ensures { taps.new ≡ sets taps.old (tap_words * j) (words_of_tap_row tap) }
{
    let at = TAP_WORDS * j;
    taps[at..at + TAP_WORDS].copy_from_slice(&[tap.sign, tap.row, tap.shift]);
}
