//! Sets of addresses as the fewest possible blocks.

ghost use Rattle.std.specs.Prelude.{All, List, IfOk, MatchOption};
ghost use Rattle.range_set_blaze.specs.Runs.{members, Interval};
ghost use Rattle.ip_sets.specs.Blocks.{AreBlocks, AreFewest, AreMaximalBlocks, Ascends};
ghost use Rattle.ip_sets.specs.BlocksLeft.{
  block_runs,
  blocks_left,
  blocks_may_give,
  BlocksReady,
  GivesBlock,
  GivesBlocks,
  IsAligned,
  TakesNone,
  TakesSpan,
};

mod address;
mod block;
mod laws;
pub(crate) mod numbers;
mod span;

pub use address::Address;
pub use block::Block;
pub use laws::maximal_blocks_are_fewest;
use range_set_blaze::{Draw, DrawDisjoint, RangeSetBlaze};
use span::Span;
use std::alloc::{AllocError, Allocator};

/// The fewest possible blocks of a stream of addresses, in ascending order. They are computed one
/// by one, and nothing is allocated. After `None`, the iterator must not be called.
#[derive(Clone, Debug, Drop)]
pub struct Blocks<T, I> {
    ranges: I,
    // What is left of the range that was drawn last.
    rest: Option<Span<T>>,
}

impl<T: Address, I: DrawDisjoint<T>> Blocks<T, I> {
    /// Returns the blocks of a ready stream. Draws nothing yet.
    pub fn new(ranges: I) -> Self
        requires { I.can_draw ranges }
        ensures ready { ⟦<Blocks<T, I> as Iterator>⟧.can_next result }
        ensures gives { GivesBlocks (I.may_give ranges)
            (blocks_may_give T.rank I.may_give result) }
    {
        Blocks { ranges, rest: None }
    }
}

impl<T: Address, I: Draw<T>> Blocks<T, I> {
    // Returns what is left of the range drawn last, or else the next range of the stream.
    fn next_span(&mut self) -> Option<Span<T>>
        requires { BlocksReady T.rank T.value_count I.can_draw I.may_give self.old }
        ensures { MatchOption result
            (TakesNone T.rank T.value_count I.can_draw I.may_give I.draws_left self.old self.new)
            (λ span. TakesSpan T.rank T.value_count I.can_draw I.may_give I.draws_left
            self.old span self.new) }
    {
        if let Some(span) = self.rest.take() {
            return Some(span);
        }
        let range = self.ranges.draw()?;
        let (first, last) = range.into_inner();
        Some(Span { first, last })
    }
}

impl<T: Address, I: Draw<T>> Iterator for Blocks<T, I> {
    type Item = Block<T>;

    ghost can_next = { BlocksReady T.rank T.value_count I.can_draw I.may_give };

    ghost next_gives = { GivesBlock T.rank T.width I.may_give };

    ghost remaining = { blocks_left T.rank T.value_count I.draws_left };

    fn next(&mut self) -> Option<Block<T>> {
        let span = self.next_span()?;
        let (block, rest) = span.split();
        self.rest = rest;
        Some(block)
    }
}

/// Streams of addresses as blocks. A file must import this trait to call its method.
pub trait IntoBlocks<T: Address>: DrawDisjoint<T> {
    /// Returns the blocks of a ready stream. Draws nothing yet, and does not allocate.
    final fn blocks(self) -> Blocks<T, Self>
    where
        Self: Sized,
        requires { Self.can_draw self }
        ensures ready { ⟦<Blocks<T, Self> as Iterator>⟧.can_next result }
        ensures gives { GivesBlocks (Self.may_give self)
            (blocks_may_give T.rank Self.may_give result) }
    {
        Blocks::new(self)
    }
}

impl<T: Address, I: DrawDisjoint<T>> IntoBlocks<T> for I {}

/// Returns the list of the blocks of a ready stream. If allocation fails, the stream is dropped.
pub fn blocks_of<T: Address, I: DrawDisjoint<T>, A: Allocator>(
    alloc: A,
    ranges: I,
) -> Result<Vec<Block<T>, A>, AllocError>
    requires { I.can_draw ranges }
    ensures blocks { IfOk result (λ blocks. (runs : List Interval) × I.may_give ranges runs
        × AreMaximalBlocks (members runs) (block_runs T.rank T.width blocks.items)) }
    ensures aligned { IfOk result (λ blocks. All (IsAligned T.rank T.width) blocks.items) }
{
    let mut blocks = Vec::new(alloc);
    for block in Blocks::new(ranges) {
        blocks.push(block)?;
    }
    Ok(blocks)
}

/// Returns the list of the fewest possible blocks with exactly the addresses of a set: aligned and
/// ascending. If allocation fails, no list is made.
pub fn set_blocks<T: Address + 'static, A: Allocator, B: Allocator>(
    alloc: A,
    set: &RangeSetBlaze<T, B>,
) -> Result<Vec<Block<T>, A>, AllocError>
    ensures aligned { IfOk result (λ blocks. All (IsAligned T.rank T.width) blocks.items) }
    ensures exact { IfOk result (λ blocks.
        AreBlocks (members set.now) (block_runs T.rank T.width blocks.items)) }
    ensures ascending { IfOk result (λ blocks. Ascends (block_runs T.rank T.width blocks.items)) }
    ensures fewest { IfOk result (λ blocks.
        AreFewest (members set.now) (block_runs T.rank T.width blocks.items)) }
{
    blocks_of(alloc, set.ranges())
}
