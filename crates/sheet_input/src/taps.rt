// Taps from bytes.
ghost use Rattle.std.specs.Prelude.{◌≡◌, ◌≤◌, length};
ghost use Rattle.sequence.specs.Inner.{front};
ghost use Rattle.sheet_input.specs.Taps.{tap_at_of, whole_taps};

// The whole taps of the input, at the start of the table.
pub fn read_taps(input: &[u8], taps: &mut [f64])
    requires { whole_taps input.now ≤ length taps.old }
    ensures { taps.new ≡ front (tap_at_of input.now) taps.old (whole_taps input.now) }
{
    let (words, _) = input.as_chunks::<8>();
    for (i, word) in words.iter().enumerate() {
        taps[i] = tap::pattern::of_bits(u64::from_le_bytes(*word));
    }
}
