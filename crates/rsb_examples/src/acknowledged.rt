//! A tracker of acknowledged packets: which came, and up to which number all came.

ghost use Rattle.std.specs.Prelude.{
  ◌≡◌,
  ◌↔◌,
  ℕ,
  ◌^◌,
  ◌<◌,
  List,
  IfOk,
  IfSome,
  IsFalse,
  IsNone,
  IsTrue,
  OnErr,
  OnOk,
};
ghost use Rattle.range_set_blaze.specs.Runs.{members, Interval};
ghost use Rattle.range_set_blaze.specs.Selection.{IsUniversal};
ghost use Rattle.range_set_blaze.specs.Set.{only, Adds};

use range_set_blaze::RangeSetBlaze;
use std::alloc::{AllocError, Global};
use std::io;
use std::marker::Model;

/// The numbers of the packets that came. Contracts see them as a set.
#[derive(Drop)]
pub struct Tracker {
    came: RangeSetBlaze<u64>,
}

impl Model for Tracker {
    ghost Value = { List Interval };

    ghost view = { λ tracker. tracker.came };
}

impl Tracker {
    /// Returns a tracker to which no packet came.
    pub fn new(alloc: Global) -> Tracker
        ensures { (number : ℕ) → IsFalse (members result number) }
    {
        Tracker {
            came: RangeSetBlaze::new(alloc),
        }
    }

    /// Notes a packet, and returns whether it came for the first time. If it came before, nothing
    /// changes.
    pub fn receive(&mut self, number: u64) -> Result<bool, AllocError>
        ensures noted { OnOk result (Adds self.old self.new (only number)) }
        ensures first { IfOk result (λ is_new. IsTrue is_new ↔ IsFalse (members self.old number)) }
        ensures again { IfOk result (λ is_new. IsFalse is_new → self.new ≡ self.old) }
        ensures err { OnErr result (self.new ≡ self.old) }
    {
        self.came.insert(number)
    }

    /// Returns the first packet that is lacking, or `None` if all came. All before it came.
    pub fn next_lacking(&self) -> Option<u64>
        ensures none { IsNone result ↔ IsUniversal (2 ^ 64) (members self.now) }
        ensures lacking { IfSome result (λ next. IsFalse (members self.now next)) }
        ensures before { IfSome result (λ next. (number : ℕ) → number < next
            → IsTrue (members self.now number)) }
    {
        let gap = self.came.first_gap(1)?;
        Some(*gap.start())
    }
}

/// Packets come out of order, and one of them twice.
pub fn show(alloc: Global, rt: &impl Print) -> io::Result<()> {
    let mut tracker = Tracker::new(alloc);
    for number in [0, 1, 4, 2, 4] {
        let is_new = tracker.receive(number)?;
        println!(rt; "{number} is new: {is_new}")?;
    }
    show_lacking(&tracker, rt)
}

// Prints which packet is lacking first.
fn show_lacking(tracker: &Tracker, rt: &impl Print) -> io::Result<()> {
    match tracker.next_lacking() {
        Some(number) => println!(rt; "all before {number} came"),
        None => println!(rt; "all came"),
    }
}
