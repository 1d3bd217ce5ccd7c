//! Words of 64 bits.
ghost use Rattle.std.specs.Prelude.{◌≡◌, ◌≢◌, ◌==◌, ℕ, ◌^◌, ◌<◌, count_ones, sum_by};
ghost use Rattle.std.specs.Int.{bit_at};

// The word with bit `place` set to `on`, and its other bits as they were.
pub(crate) fn with_bit(word: u64, place: u32, on: bool) -> u64
    requires { place < 64 }
    ensures written { (bit_at result place == 1) ≡ on }
    ensures others { (k : ℕ) → k < 64 → k ≢ place → bit_at result k ≡ bit_at word k }
{
    if on {
        word | (1 << place)
    } else {
        word & !(1 << place)
    }
}

// How many bits of the words are set.
pub(crate) fn total_ones(words: &[u64]) -> u32
    requires { sum_by count_ones words.now < 2 ^ 32 }
    ensures { result ≡ sum_by count_ones words.now }
{
    words.iter().map(|word| word.count_ones()).sum()
}
