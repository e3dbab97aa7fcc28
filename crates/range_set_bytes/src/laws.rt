//! Laws on the bytes of sets.

ghost use Rattle.std.specs.Prelude.{◌≡◌, ℕ, ◌++◌, ◌<◌, ◌≤◌, ◌^◌, List};
ghost use Rattle.rsb_integer.specs.Runs.{Interval};
ghost use Rattle.range_set_bytes.specs.Format.{bit_count, bytes_of, IsWritable};

/// Different sets of a type have different bytes. Equal sets have equal bytes, since `bytes_of` is
/// a function.
pub fn bytes_determine_set()
    ensures { (n : ℕ) (runs others : List Interval) → IsWritable n runs → IsWritable n others
        → bytes_of n runs ≡ bytes_of n others → runs ≡ others }
{}

/// The number of bits suffices for each rank of a type, and no smaller one does.
pub fn bits_suffice()
    ensures suffice { (n rank : ℕ) → 2 ≤ n → n ≤ 2 ^ 128 → rank < n → rank < 2 ^ bit_count n }
    ensures least { (n bits : ℕ) → 2 ≤ n → n ≤ 2 ^ 128 → n ≤ 2 ^ bits → bit_count n ≤ bits }
{}

/// The bytes of no set begin with those of another set of the type. So sets whose bytes follow one
/// another can be told apart.
pub fn bytes_show_their_end()
    ensures { (n : ℕ) (runs others : List Interval) (x y : List ℕ) → IsWritable n runs
        → IsWritable n others → bytes_of n runs ++ x ≡ bytes_of n others ++ y → runs ≡ others }
{}
