//! Callers that pass on whether a set has changed. Each states that its own set is unchanged if
//! nothing was added or removed, and none needs a proof file.

ghost use Rattle.std.specs.Prelude.{◌≡◌, List, IfOk, IsFalse, IsNone, IsSome};
ghost use Rattle.range_set_blaze.specs.Runs.{Interval};

use range_set_blaze::{Integer, RangeSetBlaze};
use std::alloc::{AllocError, Allocator};
use std::marker::Model;
use std::test::*;
use test_support::{has, set_of, slot, slots};

/// A table of free values, as a struct without a model.
#[derive(Drop)]
struct Pool<T: Integer, A: Allocator> {
    free: RangeSetBlaze<T, A>,
}

impl<T: Integer, A: Allocator + Clone> Pool<T, A> {
    /// Frees a value, and returns whether it was taken.
    fn put(&mut self, value: T) -> Result<bool, AllocError>
        ensures refused { IfOk result (λ done. IsFalse done → self.new.free ≡ self.old.free) }
    {
        self.free.insert(value)
    }

    /// Frees the values between two, and returns whether any of them was taken.
    fn put_all(&mut self, first: T, last: T) -> Result<bool, AllocError>
        ensures refused { IfOk result (λ done. IsFalse done → self.new.free ≡ self.old.free) }
    {
        self.free.ranges_insert(first..=last)
    }

    /// Frees a value, and returns it if it was free.
    fn put_again(&mut self, value: T) -> Result<Option<T>, AllocError>
        ensures refused { IfOk result (λ found. IsSome found → self.new.free ≡ self.old.free) }
    {
        self.free.replace(value)
    }

    /// Takes a value, and returns whether it was free.
    fn take(&mut self, value: T) -> Result<bool, AllocError>
        ensures refused { IfOk result (λ done. IsFalse done → self.new.free ≡ self.old.free) }
    {
        self.free.remove(value)
    }

    /// Takes the values below another, and returns whether any of them was free.
    fn take_below(&mut self, end: T) -> Result<bool, AllocError>
        ensures refused { IfOk result (λ done. IsFalse done → self.new.free ≡ self.old.free) }
    {
        self.free.ranges_remove(..end)
    }

    /// Takes a value, and returns it if it was free.
    fn take_one(&mut self, value: T) -> Result<Option<T>, AllocError>
        ensures refused { IfOk result (λ found. IsNone found → self.new.free ≡ self.old.free) }
    {
        self.free.take(value)
    }
}

/// A table of free ports, which contracts see as the set of them. It counts its changes.
#[derive(Drop)]
struct Ports {
    free: RangeSetBlaze<u16>,
    changes: u64,
}

impl Model for Ports {
    ghost Value = { List Interval };

    ghost view = { λ ports. ports.free };
}

impl Ports {
    /// Takes a port, and returns whether it was free.
    fn claim(&mut self, port: u16) -> Result<bool, AllocError>
        ensures refused { IfOk result (λ done. IsFalse done → self.new ≡ self.old) }
    {
        let done = self.free.remove(port)?;
        if done {
            self.changes = self.changes.saturating_add(1);
        }
        Ok(done)
    }

    /// Frees a port, and returns whether it was taken.
    fn release(&mut self, port: u16) -> Result<bool, AllocError>
        ensures refused { IfOk result (λ done. IsFalse done → self.new ≡ self.old) }
    {
        if !self.free.insert(port)? {
            return Ok(false);
        }
        self.changes = self.changes.saturating_add(1);
        Ok(true)
    }

    /// Frees the ports between two, and returns whether any of them was taken.
    fn release_all(&mut self, first: u16, last: u16) -> Result<bool, AllocError>
        ensures refused { IfOk result (λ done. IsFalse done → self.new ≡ self.old) }
    {
        self.free.ranges_insert(first..=last)
    }

    /// Takes a port, and returns it if it was free.
    fn claim_one(&mut self, port: u16) -> Result<Option<u16>, AllocError>
        ensures refused { IfOk result (λ found. IsNone found → self.new ≡ self.old) }
    {
        self.free.take(port)
    }
}

#[test]
fn a_pool_tells_what_it_did(rt: HostRuntime) -> Result<(), Fail> {
    let mut pool = Pool {
        free: set_of(rt.alloc(), &[(1, 3)])?,
    };
    assert!(rt; !pool.put(3)? && !pool.put_all(1, 2)? && pool.put_again(2)? == Some(2));
    assert!(rt; !pool.take(7)? && !pool.take_below(1)? && pool.take_one(4)? == None);
    assert!(rt; has(&pool.free, &[(1, 3)]));
    assert!(rt; pool.put(4)? && pool.put_all(9, 10)? && pool.put_again(11)? == None);
    assert!(rt; pool.take(1)? && pool.take_below(3)? && pool.take_one(10)? == Some(10));
    assert!(rt; has(&pool.free, &[(3, 4), (9, 9), (11, 11)]));
    Ok(())
}

#[test]
fn a_pool_of_quarter_hours_tells_it_too(rt: HostRuntime) -> Result<(), Fail> {
    let mut pool = Pool {
        free: RangeSetBlaze::from(rt.alloc(), slots(4, 7))?,
    };
    assert!(rt; !pool.put(slot(4))? && pool.take(slot(4))? && !pool.take(slot(4))?);
    Ok(())
}

#[test]
fn ports_count_only_changes(rt: HostRuntime) -> Result<(), Fail> {
    let mut ports = Ports {
        free: RangeSetBlaze::from(rt.alloc(), 8000..=8003)?,
        changes: 0,
    };
    assert!(rt; ports.claim(8001)? && !ports.claim(8001)? && ports.release(8001)?);
    assert!(rt; !ports.release(8001)? && !ports.release_all(8000, 8003)?);
    assert!(rt; ports.claim_one(9000)? == None && ports.claim_one(8003)? == Some(8003));
    assert!(rt; ports.changes == 2 && ports.free.len() == 3);
    Ok(())
}
