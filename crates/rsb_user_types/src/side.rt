//! An example of an element type with two values.

ghost use Rattle.std.specs.Prelude.{◌≡◌, ◌==◌, ◌<◌, cond, zero, suc};
ghost use Rattle.std.specs.Ordering.{nat_cmp};
ghost use Rattle.std.specs.declared.cmp.Ordering.TheVariants.{Equal};
ghost use Rattle.std.proofs.Common.{arith, lit<, lit≤, refl};
ghost use Rattle.range_set_blaze.specs.Room.{have_room};
ghost use Rattle.rsb_user_types.specs.declared.side.Side.{Side};
ghost use Rattle.rsb_user_types.specs.declared.side.Side.TheVariants.{Lo, Hi};

use range_set_blaze::Integer;
use std::ops::RangeInclusive;

/// One of two sides. No element type may have fewer values. Not in range-set-blaze.
#[derive(Clone, Copy, Debug, PartialEq, Eq, PartialOrd, Ord, Hash)]
pub enum Side {
    /// The lesser value.
    Lo,
    /// The greater value.
    Hi,
}

impl Integer for Side {
    type SafeLen = u16;

    ghost rank = { λ side. elim side [ Lo ↦ 0 | Hi ↦ 1 ] };

    ghost value_count = { 2 };

    ghost value_at = { λ n. cond (n == 0) Lo Hi };

    fn checked_add_one(self) -> Option<Side> {
        match self {
            Side::Lo => Some(Side::Hi),
            Side::Hi => None,
        }
    }

    fn add_one(self) -> Side {
        Side::Hi
    }

    fn sub_one(self) -> Side {
        Side::Lo
    }

    fn min_value() -> Side {
        Side::Lo
    }

    fn max_value() -> Side {
        Side::Hi
    }

    fn safe_len(range: &RangeInclusive<Side>) -> u16 {
        if range.start() == range.end() { 1 } else { 2 }
    }

    fn inclusive_end_from_start(self, b: u16) -> Side {
        if b == 1 { self } else { Side::Hi }
    }

    fn start_from_inclusive_end(self, b: u16) -> Side {
        if b == 1 { self } else { Side::Lo }
    }

    ghost ranks = { λ place.
        elim place as (λ place. place < 2 → Self.rank (Self.value_at place) ≡ place) [
          | zero ↦ λ below. refl
          | suc more ↦ elim more as (λ more.
              suc more < 2 → Self.rank (Self.value_at (suc more)) ≡ suc more) [
                | zero ↦ λ below. refl
                | suc past ↦ λ below. Prim.absurd (Prim.omega (arith, below))
              ]
        ] };

    ghost exact = { λ x y.
        elim x as (λ x. Self.cmp x y ≡ Equal → x ≡ y) [
          | Lo ↦ elim y as (λ y. Self.cmp Lo y ≡ Equal → Lo ≡ y) [
            | Lo ↦ λ same. refl
            | Hi ↦ λ same. Prim.absurd (Prim.cc)
          ]
          | Hi ↦ elim y as (λ y. Self.cmp Hi y ≡ Equal → Hi ≡ y) [
            | Lo ↦ λ same. Prim.absurd (Prim.cc)
            | Hi ↦ λ same. refl
          ]
        ] };

    ghost in_order = { λ x y left right.
        elim x as (λ x. Self.cmp x y ≡ nat_cmp (Self.rank x) (Self.rank y)) [
          | Lo ↦ elim y as (λ y. Self.cmp Lo y ≡ nat_cmp 0 (Self.rank y)) [ Lo ↦ refl | Hi ↦ refl ]
          | Hi ↦ elim y as (λ y. Self.cmp Hi y ≡ nat_cmp 1 (Self.rank y)) [ Lo ↦ refl | Hi ↦ refl ]
        ] };

    ghost some_values = { lit≤ tt };

    ghost countable = { lit≤ tt };

    ghost lengths_suffice = { lit≤ tt };

    ghost two_ends_fit = { λ end. have_room _ (lit< tt) };
}
