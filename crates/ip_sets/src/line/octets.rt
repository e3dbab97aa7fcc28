//! Decimal numbers at the start of bytes, read without a branch on how many digits they have.

ghost use Rattle.std.specs.Prelude.{
  ◌≡◌,
  ℕ,
  ◌+◌,
  ◌<◌,
  ◌≤◌,
  ◌++◌,
  ◌∷◌,
  IfSome,
  List,
  cond,
  decimal,
  drop,
  length,
};

/// Reads `byte` at the start of the bytes. Returns the bytes after it, or `None` if they start with
/// another byte or are empty.
#[inline(always)]
pub(crate) fn after(bytes: &[u8], byte: u8) -> Option<&[u8]>
    ensures { IfSome result (λ rest. bytes.now ≡ byte ∷ rest.now) }
{
    match bytes {
        [first, rest @ ..] if *first == byte => Some(rest),
        _ => None,
    }
}

/// Returns the place after a byte at a place, or `None` if there is another byte.
#[inline(always)]
pub(crate) fn after_at(bytes: &[u8], at: usize, byte: u8) -> Option<usize>
    requires { at < length bytes.now }
    ensures place { IfSome result (λ next. next ≡ at + 1) }
    ensures front { IfSome result (λ next. drop at bytes.now ≡ byte ∷ drop next bytes.now) }
{
    if bytes[at] != byte {
        return None;
    }
    Some(at + 1)
}

/// Reads a number below 256 in decimal, without a leading zero, at the start of the bytes. Returns
/// the number and the bytes after it. `None` may also mean that there are fewer than three bytes.
#[inline(always)]
pub(crate) fn octet(bytes: &[u8]) -> Option<(u8, &[u8])>
    ensures fits { IfSome result (λ read. read.0 < 256) }
    ensures front { IfSome result (λ read. bytes.now ≡ decimal read.0 ++ read.1.now) }
{
    if bytes.len() < 3 {
        return None;
    }
    let (number, end) = octet_at(bytes, 0)?;
    Some((number, &bytes[end..]))
}

/// Reads a number below 256 in decimal, without a leading zero, starting at a place. Returns the
/// number and the place after it.
#[inline(always)]
pub(crate) fn octet_at(bytes: &[u8], start: usize) -> Option<(u8, usize)>
    requires { start + 3 ≤ length bytes.now }
    ensures fits { IfSome result (λ read. read.0 < 256) }
    ensures end { IfSome result (λ read. read.1 ≤ start + 3) }
    ensures front { IfSome result (λ read.
        drop start bytes.now ≡ decimal read.0 ++ drop read.1 bytes.now) }
{
    let (number, count) = octet_of_three(bytes[start], bytes[start + 1], bytes[start + 2])?;
    Some((number, start + count))
}

// Reads a number below 256 at the start of three bytes. Returns the number and how many digits it
// has. No branch depends on the number of digits, which a processor cannot predict.
#[inline(always)]
fn octet_of_three(first: u8, second: u8, third: u8) -> Option<(u8, usize)>
    ensures fits { IfSome result (λ read. read.0 < 256) }
    ensures within { IfSome result (λ read. read.1 ≤ 3) }
    ensures front { (rest : List ℕ) → IfSome result (λ read. first ∷ second ∷ third ∷ rest
        ≡ decimal read.0 ++ drop read.1 (first ∷ second ∷ third ∷ rest)) }
{
    let one = digit(first);
    let next = digit(second);
    let last = digit(third);
    if one > 9 {
        return None;
    }
    let two = one * 10 + next;
    let three = two * 10 + last;
    let has_two = next < 10;
    let has_three = has_two & (last < 10);
    let number = either(has_three, three, either(has_two, two, one));
    if number > 255 {
        return None;
    }
    if has_two & (one == 0) {
        return None;
    }
    let count = 1 + usize::from(has_two) + usize::from(has_three);
    Some((number as u8, count))
}

// Returns the value of a decimal digit, or more than 9 for another byte.
#[inline(always)]
fn digit(byte: u8) -> u32
    ensures fits { result < 256 }
    ensures value { result < 10 → byte ≡ 48 + result }
{
    u32::from(byte ^ b'0')
}

// Returns one of two numbers.
#[inline(always)]
fn either(takes_first: bool, first: u32, second: u32) -> u32
    ensures { result ≡ cond takes_first first second }
{
    if takes_first { first } else { second }
}
