//! How heads move to where they belong in a binary heap.

ghost use Rattle.std.specs.Prelude.{◌≡◌, ◌+◌, ◌*◌, ◌<◌, ◌≤◌, length, All, IsPermutation};
ghost use Rattle.std.specs.Vec.{vec_capacity};
ghost use Rattle.rsb_many.specs.Heads.{binary_digits, HasValues};
ghost use Rattle.rsb_many.specs.HeapOrder.{IsHeap, IsHeapButFirst, IsHeapButLast, IsLesserChild};

use crate::heads::compared::ComparedHeads;
use rsb_integer::Integer;
use std::alloc::Allocator;

impl<T: Integer, A: Allocator> ComparedHeads<T, A> {
    /// Returns the place of a child of the given place. If there are two children, the other one
    /// does not come before the one returned. There must be a child.
    #[inline(always)]
    fn lesser_child(&mut self, place: usize) -> usize
        requires some { 2 * place + 1 < length self.old.heads.items }
        requires values { All (HasValues T.rank T.value_count) self.old.heads.items }
        ensures child { IsLesserChild T.rank self.old.heads.items place result }
        ensures heads { self.new.heads ≡ self.old.heads }
        ensures compared { self.new.comparisons.made ≤ self.old.comparisons.made + 1 }
        ensures counted { self.old.comparisons.made ≤ self.new.comparisons.made }
    {
        let left = 2 * place + 1;
        let right = left + 1;
        if right >= self.heads.len() {
            return left;
        }
        let left_head = self.heads[left];
        if self.comes_first(right, &left_head) {
            right
        } else {
            left
        }
    }

    /// Moves the last head up to where it belongs, among heads that are a heap except for it.
    pub(super) fn sift_up(&mut self)
        requires some { 0 < length self.old.heads.items }
        requires values { All (HasValues T.rank T.value_count) self.old.heads.items }
        requires order { IsHeapButLast T.rank self.old.heads.items }
        ensures kept { IsPermutation self.old.heads.items self.new.heads.items }
        ensures order { IsHeap T.rank self.new.heads.items }
        ensures room { vec_capacity self.new.heads ≡ vec_capacity self.old.heads }
        ensures compared { self.new.comparisons.made
            ≤ self.old.comparisons.made + binary_digits (length self.new.heads.items) }
        ensures counted { self.old.comparisons.made ≤ self.new.comparisons.made }
    {
        let mut place = self.heads.len() - 1;
        while place > 0 {
            let parent = (place - 1) / 2;
            let parent_head = self.heads[parent];
            if !self.comes_first(place, &parent_head) {
                return;
            }
            self.heads.swap(place, parent);
            place = parent;
        }
    }

    /// Moves the first head down to where it belongs, among heads that are a heap except for it. It
    /// is written to the list only after its place has been found.
    pub(super) fn sift_down(&mut self)
        requires values { All (HasValues T.rank T.value_count) self.old.heads.items }
        requires order { IsHeapButFirst T.rank self.old.heads.items }
        ensures kept { IsPermutation self.old.heads.items self.new.heads.items }
        ensures order { IsHeap T.rank self.new.heads.items }
        ensures room { vec_capacity self.new.heads ≡ vec_capacity self.old.heads }
        ensures compared { self.new.comparisons.made
            ≤ self.old.comparisons.made + 2 * binary_digits (length self.new.heads.items) }
        ensures counted { self.old.comparisons.made ≤ self.new.comparisons.made }
    {
        if self.heads.is_empty() {
            return;
        }
        let head = self.heads[0];
        let mut place = 0;
        while place < self.heads.len() / 2 {
            let child = self.lesser_child(place);
            if !self.comes_first(child, &head) {
                self.heads[place] = head;
                return;
            }
            self.heads[place] = self.heads[child];
            place = child;
        }
        self.heads[place] = head;
    }
}
