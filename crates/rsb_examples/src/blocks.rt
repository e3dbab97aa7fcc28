//! A table of free blocks of a disk: blocks are taken and given back, and none is taken twice.

ghost use Rattle.std.specs.Prelude.{
  ◌≡◌,
  ◌↔◌,
  ℕ,
  nat_le,
  nat_lt,
  ◌&&◌,
  ◌+◌,
  ◌^◌,
  ◌<◌,
  ◌≤◌,
  List,
  IfOk,
  IfSome,
  IsFalse,
  IsNone,
  IsTrue,
  OnErr,
  OnOk,
};
ghost use Rattle.range_set_blaze.specs.FirstFit.{AllShorter};
ghost use Rattle.range_set_blaze.specs.Runs.{members, Interval};
ghost use Rattle.range_set_blaze.specs.Set.{only, Adds, Removes};

use range_set_blaze::RangeSetBlaze;
use std::alloc::{AllocError, Global};
use std::io;
use std::marker::Model;

/// The blocks of a disk that are free. Contracts see them as a set.
#[derive(Drop)]
pub struct FreeBlocks {
    free: RangeSetBlaze<u16>,
}

impl Model for FreeBlocks {
    ghost Value = { List Interval };

    ghost view = { λ table. table.free };
}

impl FreeBlocks {
    /// Returns a table in which the first blocks of a disk are free.
    pub fn new(alloc: Global, blocks: u16) -> Result<FreeBlocks, AllocError>
        ensures { IfOk result (λ table. (block : ℕ) → members table block ≡ nat_lt block blocks) }
    {
        let mut free = RangeSetBlaze::new(alloc);
        free.ranges_insert(..blocks)?;
        Ok(FreeBlocks { free })
    }

    /// Takes the given number of free blocks that follow each other. Returns the first of them, or
    /// `None` if there are not so many in a row.
    pub fn allocate(&mut self, blocks: u16) -> Result<Option<u16>, AllocError>
        requires { 0 < blocks }
        ensures free { IfOk result (λ found. IfSome found (λ first. (block : ℕ)
            → first ≤ block → block < first + blocks → IsTrue (members self.old block))) }
        ensures taken { IfOk result (λ found. IfSome found (λ first. Removes self.old self.new
            (λ block. nat_le first block && nat_lt block (first + blocks)))) }
        ensures full { IfOk result (λ found. IsNone found
            → AllShorter (2 ^ 16) (members self.old) blocks) }
        ensures refused { IfOk result (λ found. IsNone found → self.new ≡ self.old) }
        ensures err { OnErr result (self.new ≡ self.old) }
    {
        let Some(run) = self.free.first_run(u32::from(blocks)) else {
            return Ok(None);
        };
        let first = *run.start();
        self.free.ranges_remove(first..=first + (blocks - 1))?;
        Ok(Some(first))
    }

    /// Takes one block, and returns whether it was free. If not, the table is unchanged.
    pub fn take(&mut self, block: u16) -> Result<bool, AllocError>
        ensures taken { OnOk result (Removes self.old self.new (only block)) }
        ensures free { IfOk result (λ done. IsTrue done ↔ IsTrue (members self.old block)) }
        ensures refused { IfOk result (λ done. IsFalse done → self.new ≡ self.old) }
    {
        self.free.remove(block)
    }

    /// Gives blocks back, and returns whether any of them was taken. If not, the table is
    /// unchanged.
    pub fn give_back(&mut self, first: u16, blocks: u16) -> Result<bool, AllocError>
        requires some { 0 < blocks }
        requires within { first + blocks ≤ 2 ^ 16 }
        ensures given { OnOk result (Adds self.old self.new
            (λ block. nat_le first block && nat_lt block (first + blocks))) }
        ensures refused { IfOk result (λ done. IsFalse done → self.new ≡ self.old) }
        ensures err { OnErr result (self.new ≡ self.old) }
    {
        let was_taken = self.free.ranges_insert(first..=first + (blocks - 1))?;
        Ok(was_taken)
    }
}

/// Takes blocks until there is no room, and gives some of them back twice.
pub fn show(alloc: Global, rt: &impl Print) -> io::Result<()> {
    let mut table = FreeBlocks::new(alloc, 100)?;
    println!(rt; "block 7: {}", table.take(7)?)?;
    for blocks in [5, 90, 5] {
        show_allocated(&mut table, blocks, rt)?;
    }
    show_given_back(&mut table, rt)?;
    show_given_back(&mut table, rt)
}

// Takes blocks, and prints which is the first of them.
fn show_allocated(table: &mut FreeBlocks, blocks: u16, rt: &impl Print) -> io::Result<()>
    requires { 0 < blocks }
{
    match table.allocate(blocks)? {
        Some(first) => println!(rt; "{blocks} blocks from {first} on"),
        None => println!(rt; "no room for {blocks} blocks"),
    }
}

// Gives ten blocks back, and prints whether any of them was taken.
fn show_given_back(table: &mut FreeBlocks, rt: &impl Print) -> io::Result<()> {
    let given = table.give_back(20, 10)?;
    println!(rt; "20 to 29 are given back: {given}; free: {}", table.free)
}
