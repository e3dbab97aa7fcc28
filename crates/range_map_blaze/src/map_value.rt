//! The trait of values of maps.

ghost use Rattle.std.specs.Prelude.{◌≡◌, ◌↔◌, true};
ghost use Rattle.std.proofs.Common.{ap, refl};
ghost use Rattle.range_map_blaze.specs.laws.Text.{placeless, placeless-same, string-exact};
ghost use Rattle.range_map_blaze.specs.laws.Value.{
  bool-exact,
  pair-exact,
  pair-shown,
  reference-exact,
  reference-settled,
  signed-exact,
  text-exact,
  unit-exact,
  unplaced,
  unsigned-exact,
};

use std::fmt::Debug;

/// A type of values: `==` returns true exactly for equal values, and a clone is equal to its source.
///
/// An implementation for your own type proves these two laws, and a third on what contracts see. If
/// `==` does not compare all of a value, such as where a reference points, the implementation also
/// states what contracts see of a value. It is a value itself, the same one for all that are equal.
pub trait MapValue: Clone + Eq {
    // What contracts see of a value (docs/DECISIONS.md, values-as-seen).
    ghost seen: { Self → Self } = { λ value. value };

    // `==` returns true exactly for values that are seen as the same.
    ghost exact: { (left right : Self) → (Self.eq left right ≡ true) ↔ (seen left ≡ seen right) };

    // A clone is seen as its source is.
    ghost cloned: { (source copy : Self) → Self.is_clone source copy → seen copy ≡ seen source };

    // What is seen of a value is seen as itself.
    ghost settled: { (value : Self) → seen (seen value) ≡ seen value };
}

impl MapValue for u8 {
    ghost exact = { unsigned-exact };

    ghost cloned = { λ source copy same. same };

    ghost settled = { λ value. refl };
}

impl MapValue for u16 {
    ghost exact = { unsigned-exact };

    ghost cloned = { λ source copy same. same };

    ghost settled = { λ value. refl };
}

impl MapValue for u32 {
    ghost exact = { unsigned-exact };

    ghost cloned = { λ source copy same. same };

    ghost settled = { λ value. refl };
}

impl MapValue for u64 {
    ghost exact = { unsigned-exact };

    ghost cloned = { λ source copy same. same };

    ghost settled = { λ value. refl };
}

impl MapValue for u128 {
    ghost exact = { unsigned-exact };

    ghost cloned = { λ source copy same. same };

    ghost settled = { λ value. refl };
}

impl MapValue for usize {
    ghost exact = { unsigned-exact };

    ghost cloned = { λ source copy same. same };

    ghost settled = { λ value. refl };
}

impl MapValue for char {
    ghost exact = { unsigned-exact };

    ghost cloned = { λ source copy same. same };

    ghost settled = { λ value. refl };
}

impl MapValue for i8 {
    ghost exact = { signed-exact };

    ghost cloned = { λ source copy same. same };

    ghost settled = { λ value. refl };
}

impl MapValue for i16 {
    ghost exact = { signed-exact };

    ghost cloned = { λ source copy same. same };

    ghost settled = { λ value. refl };
}

impl MapValue for i32 {
    ghost exact = { signed-exact };

    ghost cloned = { λ source copy same. same };

    ghost settled = { λ value. refl };
}

impl MapValue for i64 {
    ghost exact = { signed-exact };

    ghost cloned = { λ source copy same. same };

    ghost settled = { λ value. refl };
}

impl MapValue for i128 {
    ghost exact = { signed-exact };

    ghost cloned = { λ source copy same. same };

    ghost settled = { λ value. refl };
}

impl MapValue for isize {
    ghost exact = { signed-exact };

    ghost cloned = { λ source copy same. same };

    ghost settled = { λ value. refl };
}

impl MapValue for bool {
    ghost exact = { bool-exact };

    ghost cloned = { λ source copy same. same };

    ghost settled = { λ value. refl };
}

impl MapValue for () {
    ghost exact = { unit-exact };

    ghost cloned = { λ source copy same. same };

    ghost settled = { λ value. refl };
}

impl<L: MapValue, R: MapValue> MapValue for (L, R) {
    ghost seen = { λ pair. (L.seen pair.0, R.seen pair.1) };

    ghost exact = { λ left right. pair-exact _ _ (L.exact left.0 right.0) (R.exact left.1 right.1) };

    ghost cloned = { λ source copy same i.
        (L.cloned source.0 copy.0 same.0 i, R.cloned source.1 copy.1 same.1 i) };

    ghost settled = { λ pair i. (L.settled pair.0 i, R.settled pair.1 i) };
}

// A reference is seen as what it points to.
impl<'a, V: MapValue> MapValue for &'a V {
    ghost seen = { unplaced V.seen };

    ghost exact = { λ left right. reference-exact V.seen V.eq V.exact left right };

    ghost cloned = { λ source copy same. ap (unplaced V.seen) same };

    ghost settled = { λ value. reference-settled V.seen V.settled value };
}

impl<'a> MapValue for &'a str {
    ghost seen = { unplaced (λ text. text) };

    ghost exact = { λ left right. text-exact left right };

    ghost cloned = { λ source copy same. ap (unplaced (λ text. text)) same };

    ghost settled = { λ value. refl };
}

// A `String` is seen as its text, without where that is and how much room it has.
impl MapValue for String {
    ghost seen = { placeless };

    ghost exact = { λ left right. string-exact left right };

    ghost cloned = { λ source copy same. placeless-same copy source same };

    ghost settled = { λ value. placeless-same (placeless value) value refl };
}

/// A type of values whose text, by `Debug`, depends only on what contracts see of a value.
///
/// A map can be written if its values have this trait. An implementation for your own type is a line,
/// if `==` compares all of it.
pub trait ShownValue: MapValue + Debug {
    // The text of what is seen of a value is that of the value.
    ghost shown: { (value : Self) → Self.debug_output (Self.seen value) ≡ Self.debug_output value };
}

impl ShownValue for u8 {
    ghost shown = { λ value. refl };
}

impl ShownValue for u16 {
    ghost shown = { λ value. refl };
}

impl ShownValue for u32 {
    ghost shown = { λ value. refl };
}

impl ShownValue for u64 {
    ghost shown = { λ value. refl };
}

impl ShownValue for u128 {
    ghost shown = { λ value. refl };
}

impl ShownValue for usize {
    ghost shown = { λ value. refl };
}

impl ShownValue for char {
    ghost shown = { λ value. refl };
}

impl ShownValue for i8 {
    ghost shown = { λ value. refl };
}

impl ShownValue for i16 {
    ghost shown = { λ value. refl };
}

impl ShownValue for i32 {
    ghost shown = { λ value. refl };
}

impl ShownValue for i64 {
    ghost shown = { λ value. refl };
}

impl ShownValue for i128 {
    ghost shown = { λ value. refl };
}

impl ShownValue for isize {
    ghost shown = { λ value. refl };
}

impl ShownValue for bool {
    ghost shown = { λ value. refl };
}

impl ShownValue for () {
    ghost shown = { λ value. refl };
}

impl<L: ShownValue, R: ShownValue> ShownValue for (L, R) {
    ghost shown = { λ pair. pair-shown L.debug_output R.debug_output (L.shown pair.0)
        (R.shown pair.1) };
}

impl<'a, V: ShownValue> ShownValue for &'a V {
    ghost shown = { λ value. V.shown value.now };
}

impl<'a> ShownValue for &'a str {
    ghost shown = { λ value. refl };
}

impl ShownValue for String {
    ghost shown = { λ value. refl };
}
