//! Numbers in LEB128.

ghost use Rattle.std.specs.Prelude.{
  ◌≡◌,
  ◌++◌,
  ◌∷◌,
  ◌≤◌,
  ℕ,
  List,
  IfErr,
  IfOk,
  IfSome,
  IsNone,
  OnOk,
};
ghost use Rattle.range_set_bytes.specs.BadNumber.{bad_at, IsBadNumber};
ghost use Rattle.range_set_bytes.specs.Leb128.{leb128};

use std::alloc::{AllocError, Allocator};

/// Appends a number.
pub fn push_number<A: Allocator>(bytes: &mut Vec<u8, A>, number: u128) -> Result<(), AllocError>
    ensures ok { OnOk result (bytes.new.items ≡ bytes.old.items ++ leb128 number) }
{
    let mut rest = number;
    while rest >= 128 {
        bytes.push((128 + rest % 128) as u8)?;
        rest /= 128;
    }
    bytes.push(rest as u8)?;
    Ok(())
}

/// What is wrong with a byte of a number.
#[derive(Clone, Copy)]
pub enum Wrong {
    /// There is none: the bytes end before the number does.
    Ended,
    /// It is 0, but the number is to be at least 1, or has a shorter form.
    Zero,
    /// It makes the number too large.
    Large,
}

/// The first byte that cannot come next in a number.
#[derive(Clone, Copy)]
pub struct BadNumber {
    /// How many bytes of the number come before it.
    pub taken: usize,
    /// What is wrong with it.
    pub wrong: Wrong,
}

/// Returns the number at the start of bytes, and the bytes that follow it. The number is to be from
/// `least`, which is 0 or 1, to `most`.
pub fn read_number(bytes: &[u8], least: u128, most: u128) -> Result<(u128, &[u8]), BadNumber>
    requires low { least ≤ 1 }
    requires some { least ≤ most }
    ensures value { IfOk result (λ read. (least ≤ read.0) × (read.0 ≤ most)) }
    ensures read { IfOk result (λ read. bytes.now ≡ leb128 read.0 ++ read.1.now) }
    ensures bad { IfErr result (IsBadNumber least most bytes.now) }
{
    let Some((first, after)) = bytes.split_first() else {
        return Err(BadNumber {
            taken: 0,
            wrong: Wrong::Ended,
        });
    };
    let byte = u128::from(*first);
    if let Some(wrong) = wrong_byte(*first, least, most) {
        return Err(BadNumber { taken: 0, wrong });
    }
    if byte < 128 {
        return Ok((byte, after));
    }
    let low = byte - 128;
    match read_number(after, 1, (most - low) / 128) {
        Ok((high, rest)) => Ok((low + 128 * high, rest)),
        Err(bad) => Err(BadNumber {
            taken: bad.taken + 1,
            wrong: bad.wrong,
        }),
    }
}

/// Returns what is wrong with the first byte of a number, or `None` if one may begin with it. The
/// number is to be from `least`, which is 0 or 1, to `most`.
pub fn wrong_byte(byte: u8, least: u128, most: u128) -> Option<Wrong>
    requires low { least ≤ 1 }
    requires some { least ≤ most }
    ensures wrong { IfSome result (λ wrong. (after : List ℕ)
        → IsBadNumber least most (byte ∷ after) (bad_at 0 wrong)) }
    ensures none { IsNone result → (least ≤ byte) × (byte ≤ most) }
{
    let byte = u128::from(byte);
    if byte > most {
        return Some(Wrong::Large);
    }
    if byte < least {
        return Some(Wrong::Zero);
    }
    None
}
