//! The values that a rule selects by the number of streams that have them, as pieces that may
//! touch.

ghost use Rattle.std.specs.Iterator.{MakesProgress};
ghost use Rattle.std.specs.Prelude.{◌≡◌, ◌+◌, ◌<◌, false, IfSome, List};
ghost use Rattle.rsb_many.specs.JoinedPieces.{joined_pieces, BeginsJoined};
ghost use Rattle.rsb_many.specs.MultiwaySweep.{BeginsSweep};
ghost use Rattle.rsb_many.specs.Rule.{crosses, depth_after, first_edge, turns_at, CanPass};
ghost use Rattle.rsb_many.specs.Sweep.{event_of};
ghost use Rattle.rsb_many.specs.SweepPieces.{
  edge_of,
  edges_of,
  sweep_pieces,
  IsEventIn,
  PassesEdge,
  PassesEvent,
};
ghost use Rattle.rsb_many.specs.laws.SweepPieces.{sweep_pieces-sorted};

use crate::multiway_sweep::MultiwaySweep;
use crate::sweep_event::SweepEvent;
use rsb_integer::Integer;
use rsb_streams::{Draw, UnionIter};
use std::alloc::{Allocator, Global};
use std::ops::RangeInclusive;

/// In how many streams a value must be.
#[derive(Clone, Copy, Debug)]
pub(crate) enum Rule {
    /// In an odd number of streams.
    Odd,
    /// In at least this many streams.
    AtLeast(usize),
}

impl Rule {
    /// Returns whether a piece begins or ends at an event. `depth` is the greater of the numbers of
    /// ranges that have started and not ended, just before the event and just after it.
    fn turns_at(self, depth: usize) -> bool
        ensures { result ≡ turns_at self depth }
    {
        match self {
            Rule::Odd => true,
            Rule::AtLeast(least) => least == depth,
        }
    }
}

/// The values that a rule selects from the streams of a sweep, as pieces that may touch. A piece
/// begins or ends where the rule says so, by the number of ranges that have started and not ended.
#[derive(Debug, Drop)]
pub(crate) struct SweepPieces<T: Integer, I, A: Allocator = Global> {
    sweep: MultiwaySweep<T, I, A>,
    rule: Rule,
    // The number of ranges that have started and not ended.
    depth: usize,
    // The start of the piece that has begun, if one has.
    start: Option<T>,
    // Whether the sweep has ended.
    done: bool,
}

impl<T: Integer, I: Draw<T>, A: Allocator> SweepPieces<T, I, A> {
    /// Returns the pieces of a sweep, with no event passed. If the rule selects what is in no
    /// stream, a piece begins at the least value. Otherwise none has begun.
    pub(crate) fn over(sweep: MultiwaySweep<T, I, A>, rule: Rule) -> Self
        ensures sweep { result.sweep ≡ sweep }
        ensures rule { result.rule ≡ rule }
        ensures depth { result.depth ≡ 0 }
        ensures start { edges_of T.rank result.start ≡ first_edge rule }
        ensures done { result.done ≡ false }
    {
        let start = match rule {
            Rule::AtLeast(0) => Some(T::min_value()),
            _ => None,
        };
        SweepPieces {
            sweep,
            rule,
            depth: 0,
            start,
            done: false,
        }
    }

    /// Returns the values that the rule selects from the streams of a sweep that was just built. It
    /// draws nothing more.
    pub(crate) fn joined(sweep: MultiwaySweep<T, I, A>, rule: Rule) -> UnionIter<T, Self>
        requires { (streams : List I) × BeginsSweep T.Integer.own I.Draw streams sweep }
        ensures ready { (joined_pieces T.Integer.own I.Draw).can_draw result }
        ensures begun { (streams : List I) → BeginsSweep T.Integer.own I.Draw streams sweep
            → BeginsJoined T.Integer.own I.Draw rule streams result }
    {
        UnionIter::new(SweepPieces::over(sweep, rule))
    }

    /// Returns the next of the joined pieces, if there is one. It neither overlaps nor touches the
    /// one before it.
    pub(crate) fn next_joined(joined: &mut UnionIter<T, Self>) -> Option<RangeInclusive<T>>
        requires { (joined_pieces T.Integer.own I.Draw).can_draw joined.old }
        ensures steps { (joined_pieces T.Integer.own I.Draw).draw_gives joined.old result
            joined.new }
        ensures goes { MakesProgress (joined_pieces T.Integer.own I.Draw).can_draw
            (joined_pieces T.Integer.own I.Draw).draws_left joined.old result joined.new }
    {
        joined.next()
    }
}

/// Counts a range that starts or ends. Returns whether a piece begins or ends there.
fn counts<T: Integer>(rule: Rule, depth: &mut usize, event: &SweepEvent<T>) -> bool
    requires { CanPass depth.old (event_of T.rank event.now) }
    ensures depth { depth.new ≡ depth_after depth.old (event_of T.rank event.now) }
    ensures crosses { result ≡ crosses rule depth.old (event_of T.rank event.now) }
{
    match event {
        SweepEvent::Start { .. } => {
            *depth += 1;
            rule.turns_at(*depth)
        }
        SweepEvent::End { .. } => {
            let before = *depth;
            *depth -= 1;
            rule.turns_at(before)
        }
    }
}

/// Passes the start of a range. A piece that has begun ends just before it, and is returned unless
/// it is empty. If none has begun, one begins there.
fn pass_start<T: Integer>(start: &mut Option<T>, next: T) -> Option<RangeInclusive<T>>
    requires start { IfSome start.old (λ value. T.rank value < T.value_count) }
    requires next { T.rank next < T.value_count }
    ensures { PassesEdge T.rank T.value_count (T.rank next) start.old result start.new }
{
    let Some(begun) = start.take() else {
        *start = Some(next);
        return None;
    };
    if begun < next {
        Some(begun..=next.sub_one())
    } else {
        None
    }
}

/// Passes the end of a range. A piece that has begun ends there, and is returned unless it is
/// empty. If none has begun, one begins just past it, unless there is no value past it.
fn pass_end<T: Integer>(start: &mut Option<T>, last: T) -> Option<RangeInclusive<T>>
    requires start { IfSome start.old (λ value. T.rank value < T.value_count) }
    requires last { T.rank last < T.value_count }
    ensures { PassesEdge T.rank T.value_count (T.rank last + 1) start.old result start.new }
{
    let Some(begun) = start.take() else {
        *start = last.checked_add_one();
        return None;
    };
    if begun <= last {
        Some(begun..=last)
    } else {
        None
    }
}

/// Passes the edge of an event and returns the piece that ends there, if one does.
fn pass_edge<T: Integer>(start: &mut Option<T>, event: SweepEvent<T>) -> Option<RangeInclusive<T>>
    requires start { IfSome start.old (λ value. T.rank value < T.value_count) }
    requires event { IsEventIn T.value_count (event_of T.rank event) }
    ensures { PassesEdge T.rank T.value_count (edge_of (event_of T.rank event)) start.old result
        start.new }
{
    match event {
        SweepEvent::Start { range, .. } => pass_start(start, *range.start()),
        SweepEvent::End { at, .. } => pass_end(start, at),
    }
}

/// Passes an event and returns the piece that ends there, if one does.
fn pass<T: Integer>(
    rule: Rule,
    depth: &mut usize,
    start: &mut Option<T>,
    event: SweepEvent<T>,
) -> Option<RangeInclusive<T>>
    requires depth { CanPass depth.old (event_of T.rank event) }
    requires start { IfSome start.old (λ value. T.rank value < T.value_count) }
    requires event { IsEventIn T.value_count (event_of T.rank event) }
    ensures { PassesEvent T.rank T.value_count rule depth.old (event_of T.rank event) start.old
        result depth.new start.new }
{
    if counts(rule, depth, &event) {
        pass_edge(start, event)
    } else {
        None
    }
}

impl<T: Integer, I: Draw<T>, A: Allocator> Draw<T> for SweepPieces<T, I, A> {
    ghost can_draw = { (sweep_pieces T.Integer.own I.Draw).can_draw };

    ghost draw_gives = { (sweep_pieces T.Integer.own I.Draw).draw_gives };

    ghost draws_left = { (sweep_pieces T.Integer.own I.Draw).draws_left };

    ghost may_give = { (sweep_pieces T.Integer.own I.Draw).may_give };

    fn draw(&mut self) -> Option<RangeInclusive<T>> {
        if self.done {
            return None;
        }
        while let Some(event) = self.sweep.next() {
            if let Some(piece) = pass(self.rule, &mut self.depth, &mut self.start, event) {
                return Some(piece);
            }
        }
        self.done = true;
        let start = self.start.take()?;
        Some(start..=T::max_value())
    }

    ghost answers = { λ s t item gives. gives.answers };

    ghost sorted = { sweep_pieces-sorted T.Integer.own ⟦<I as Draw<T>>⟧ };
}
