//! An allocator that counts its calls, and that can fail from a given call onwards. A heap of
//! bounded size can do neither.

use range_set_blaze::RangeSetBlaze;
use std::alloc::{AllocError, Allocator, Global};
use std::cell::Cell;

/// A heap over ample memory, which counts its calls.
pub type Heap = Counting<Global>;

/// A set in such a heap.
pub type HeapSet<'a> = RangeSetBlaze<i32, &'a Heap>;

/// What an allocator was asked for, and how many more allocations it grants.
#[derive(Drop)]
struct Counts {
    allocations: Cell<usize>,
    frees: Cell<usize>,
    bytes: Cell<usize>,
    left: Cell<usize>,
}

/// Counts an allocation, and returns whether it fails.
fn is_refused(counts: &Counts, size: usize) -> bool {
    counts
        .allocations
        .set(counts.allocations.get().saturating_add(1));
    let left = counts.left.get();
    counts.left.set(left.saturating_sub(1));
    if left > 0 {
        counts.bytes.set(counts.bytes.get().wrapping_add(size));
    }
    left == 0
}

/// Counts a freed block.
fn note_free(counts: &Counts, size: usize) {
    counts.frees.set(counts.frees.get().saturating_add(1));
    counts.bytes.set(counts.bytes.get().wrapping_sub(size));
}

/// An allocator on top of another one. The inner allocator should never fail, because `bytes`
/// includes what it refuses.
#[derive(Drop)]
pub struct Counting<B: Allocator> {
    inner: B,
    counts: Counts,
}

impl<B: Allocator> Counting<B> {
    /// Returns an allocator that has counted nothing, and grants every allocation.
    pub fn new(inner: B) -> Counting<B> {
        let counts = Counts {
            allocations: Cell::new(0),
            frees: Cell::new(0),
            bytes: Cell::new(0),
            left: Cell::new(usize::MAX),
        };
        Counting { inner, counts }
    }

    /// Returns the number of requested allocations, including those that failed.
    pub fn allocations(&self) -> usize {
        self.counts.allocations.get()
    }

    /// Returns the number of calls: allocations and frees.
    pub fn calls(&self) -> usize {
        self.allocations().saturating_add(self.counts.frees.get())
    }

    /// Returns the number of bytes that are allocated now.
    pub fn bytes(&self) -> usize {
        self.counts.bytes.get()
    }

    /// Grants the given number of further allocations, and fails all later ones.
    pub fn fail_after(&self, allocations: usize) {
        self.counts.left.set(allocations);
    }

    /// Grants every allocation from now on.
    pub fn fail_never(&self) {
        self.fail_after(usize::MAX);
    }
}

unsafe impl<B: Allocator> Allocator for Counting<B> {
    ghost dealloc_token = { λ heap ty ptr. B.dealloc_token heap.inner ty ptr };

    fn allocate(&self, size: usize, align: usize) -> Result<*mut u8, AllocError> {
        if is_refused(&self.counts, size) {
            return Err(AllocError);
        }
        self.inner.allocate(size, align)
    }

    unsafe fn deallocate(&self, ptr: *mut u8, size: usize, align: usize) {
        note_free(&self.counts, size);
        self.inner.deallocate(ptr, size, align);
    }
}
