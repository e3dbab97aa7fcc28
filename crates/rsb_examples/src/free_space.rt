//! A table of taken pages: the first gap that is long enough, and what a failed allocation leaves.

ghost use Rattle.std.specs.Prelude.{
  ◌≡◌,
  ℕ,
  nat_le,
  nat_lt,
  ◌&&◌,
  ◌+◌,
  ◌^◌,
  ◌<◌,
  ◌≤◌,
  IfOk,
  IfSome,
  IsNone,
  OnErr,
  OnOk,
};
ghost use Rattle.range_set_blaze.specs.FirstFit.{IsFree};
ghost use Rattle.range_set_blaze.specs.Set.{Adds, Removes};

use range_set_blaze::RangeSetBlaze;
use std::alloc::{AllocError, Global};
use std::io;

/// Takes blocks from the first gap that has room for them.
pub fn show(alloc: Global, rt: &impl Print) -> io::Result<()> {
    let mut taken = RangeSetBlaze::<u16>::new(alloc);
    taken.ranges_insert(0..=9)?;
    taken.ranges_insert(12..=19)?;
    taken.ranges_insert(40..=65_535)?;
    for pages in [3, 2, 20] {
        show_block(&mut taken, pages, rt)?;
    }
    give_back(&mut taken, 12, 3)?;
    println!(rt; "12 to 14 are given back; taken: {taken}")
}

// Takes a block if there is room for it, and prints where it starts.
fn show_block(taken: &mut RangeSetBlaze<u16>, pages: u16, rt: &impl Print) -> io::Result<()>
    requires { 0 < pages }
{
    match take_block(taken, pages)? {
        Some(start) => println!(rt; "{pages} pages from {start} on; taken: {taken}"),
        None => println!(rt; "no room for {pages} pages; taken: {taken}"),
    }
}

/// Takes the first free block of the given number of pages, and returns where it starts, or `None`
/// if there is none. If allocation fails, the table is unchanged.
pub fn take_block(taken: &mut RangeSetBlaze<u16>, pages: u16) -> Result<Option<u16>, AllocError>
    requires { 0 < pages }
    ensures free { IfOk result (λ found. IfSome found (λ start.
        IsFree (2 ^ 16) taken.old start pages)) }
    ensures taken { IfOk result (λ found. IfSome found (λ start.
        Adds taken.old taken.new (λ page. nat_le start page && nat_lt page (start + pages)))) }
    ensures lowest { IfOk result (λ found. IfSome found (λ start. (lower : ℕ) → lower < start
        → ¬ (IsFree (2 ^ 16) taken.old lower pages))) }
    ensures full { IfOk result (λ found. IsNone found
        → (start : ℕ) → ¬ (IsFree (2 ^ 16) taken.old start pages)) }
    ensures unchanged { IfOk result (λ found. IsNone found → taken.new ≡ taken.old) }
    ensures err { OnErr result (taken.new ≡ taken.old) }
{
    let Some(start) = first_fit(&*taken, pages) else {
        return Ok(None);
    };
    taken.ranges_insert(start..=start + (pages - 1))?;
    Ok(Some(start))
}

/// Gives a block of pages back, and returns whether one of them was taken. If allocation fails, the
/// table is unchanged.
pub fn give_back(taken: &mut RangeSetBlaze<u16>, start: u16, pages: u16) -> Result<bool, AllocError>
    requires some { 0 < pages }
    requires within { start + pages ≤ 2 ^ 16 }
    ensures given { OnOk result (Removes taken.old taken.new
        (λ page. nat_le start page && nat_lt page (start + pages))) }
    ensures err { OnErr result (taken.new ≡ taken.old) }
{
    let was_taken = taken.ranges_remove(start..=start + (pages - 1))?;
    Ok(was_taken)
}

/// Where the first free block of the given number of pages starts, or `None` if there is none.
pub fn first_fit(taken: &RangeSetBlaze<u16>, pages: u16) -> Option<u16>
    requires { 0 < pages }
    ensures fits { IfSome result (λ start. IsFree (2 ^ 16) taken.now start pages) }
    ensures first { IfSome result (λ start. (lower : ℕ) → lower < start
        → ¬ (IsFree (2 ^ 16) taken.now lower pages)) }
    ensures none { IsNone result → (start : ℕ) → ¬ (IsFree (2 ^ 16) taken.now start pages) }
{
    let gap = taken.first_gap(u32::from(pages))?;
    Some(*gap.start())
}
