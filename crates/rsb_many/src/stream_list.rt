//! Streams of one type, added one after another and then combined.

ghost use Rattle.std.specs.Prelude.{◌≡◌, ◌↔◌, [], ◌∷◌, ◌++◌, length, All, IsTrue, OnErr, OnOk};
ghost use Rattle.rsb_many.specs.StreamList.{GivesStreams};

use rsb_integer::Integer;
use rsb_streams::Draw;
use std::alloc::{AllocError, Allocator, Global};
use std::marker::{Model, PhantomData};
use std::vec::IntoIter;

/// Ready streams of one type, in the order in which they were added. A loop that fills it needs no
/// invariant. Every operation on many streams takes it by value, for example
/// `streams.union(alloc)?` or `MultiwaySweep::new(alloc, streams)?`. Contracts see it as the list
/// of its streams. Not in range-set-blaze.
#[derive(Drop)]
pub struct Streams<T: Integer, I: Draw<T>, A: Allocator = Global> {
    list: Vec<I, A>,
    of: PhantomData<T>,
}

impl<T: Integer, I: Draw<T>, A: Allocator> Model for Streams<T, I, A> {
    ghost use Rattle.std.specs.Prelude.{All, List};

    ghost Value = { List I };

    ghost view = { λ streams. streams.list.items };

    ghost invariant = { λ streams. All I.can_draw streams.list.items };
}

impl<T: Integer, I: Draw<T>, A: Allocator> Streams<T, I, A> {
    /// Returns an empty list of streams. It does not allocate. Not in range-set-blaze.
    pub fn new(alloc: A) -> Self
        ensures { result ≡ [] }
    {
        Streams {
            list: Vec::new(alloc),
            of: PhantomData,
        }
    }

    /// Adds a stream, which must be ready, at the end. If allocation fails, the list is unchanged
    /// and the stream is dropped. Not in range-set-blaze.
    pub fn push(&mut self, stream: I) -> Result<(), AllocError>
        requires { I.can_draw stream }
        ensures added { OnOk result (self.new ≡ self.old ++ stream ∷ []) }
        ensures err { OnErr result (self.new ≡ self.old) }
    {
        self.list.push(stream)?;
        Ok(())
    }

    /// Returns the number of streams. Not in range-set-blaze.
    pub fn len(&self) -> usize
        ensures length { result ≡ length self.now }
        ensures ready { All I.can_draw self.now }
    {
        self.list.len()
    }

    /// Returns whether there are no streams. Not in range-set-blaze.
    pub fn is_empty(&self) -> bool
        ensures { IsTrue result ↔ (self.now ≡ []) }
    {
        self.list.is_empty()
    }
}

impl<T: Integer, I: Draw<T>, A: Allocator> IntoIterator for Streams<T, I, A> {
    type Item = I;

    type IntoIter = IntoIter<I, A>;

    ghost into_iter_gives = { GivesStreams I.can_draw };

    fn into_iter(self) -> IntoIter<I, A> {
        self.list.into_iter()
    }
}
