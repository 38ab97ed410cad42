// A row in a table of words, read and written.
ghost use Rattle.std.specs.Prelude.{◌≡◌, ◌+◌, ◌*◌, ◌≤◌, length};
ghost use Rattle.std.proofs.lemmas.List.Edits.{sets};
ghost use Rattle.network.specs.Rows.{row_words, row_at, words_of_row};

use crate::Row;

// The words of a row.
const ROW_WORDS: usize = 5;

// Row i.
pub fn read_row(rows: &[u32], i: usize) -> Row
    requires { row_words * i + row_words ≤ length rows.now }
    ensures { result ≡ row_at rows.now i }
{
    let at = ROW_WORDS * i;
    Row {
        left: rows[at],
        right: rows[at + 1],
        shift: rows[at + 2],
        sign: rows[at + 3],
        value: rows[at + 4],
    }
}

// The value of row i.
pub fn read_value(rows: &[u32], i: usize) -> u32
    requires { row_words * i + row_words ≤ length rows.now }
    ensures { result ≡ (row_at rows.now i).value }
{
    rows[ROW_WORDS * i + 4]
}

// Row i becomes this one.
pub fn write_row(rows: &mut [u32], i: usize, row: Row)
    requires { row_words * i + row_words ≤ length rows.old }
    ensures { rows.new ≡ sets rows.old (row_words * i) (words_of_row row) }
{
    let at = ROW_WORDS * i;
    let words = [row.left, row.right, row.shift, row.sign, row.value];
    rows[at..at + ROW_WORDS].copy_from_slice(&words);
}
