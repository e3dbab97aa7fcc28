//! A source to which one range may be put back.

ghost use Rattle.std.specs.Prelude.{◌≡◌};
ghost use Rattle.rsb_streams.specs.PutBack.{put_back, HasRoom, IsFresh, IsPutBack};
ghost use Rattle.rsb_streams.specs.laws.PutBack.{put_back-answered, put_back-sorted};

use crate::draw::Draw;
use rsb_integer::Integer;
use std::ops::RangeInclusive;

/// A source to which one range may be put back. It draws a range only if it holds none.
#[derive(Clone, Debug, Drop)]
pub(crate) struct PutBack<T, I> {
    held: Option<RangeInclusive<T>>,
    iter: I,
    // Whether the source has ended. After that, it is not drawn from again.
    done: bool,
}

impl<T, I> PutBack<T, I> {
    /// Returns the source with no range put back. Draws nothing yet.
    pub(crate) fn new(iter: I) -> Self
        ensures { IsFresh iter result }
    {
        PutBack {
            held: None,
            iter,
            done: false,
        }
    }

    /// Returns the source that it draws from.
    pub(crate) fn source(&self) -> &I
        ensures { result.now ≡ self.now.iter }
    {
        &self.iter
    }
}

impl<T: Copy, I> PutBack<T, I> {
    /// Puts a range back, to be drawn before everything that is still to come. Requires that no
    /// range is held.
    pub(crate) fn put_back(&mut self, range: RangeInclusive<T>)
        requires { HasRoom self.old }
        ensures { IsPutBack range self.old self.new }
    {
        self.held = Some(range);
    }
}

impl<T: Integer, I: Draw<T>> Draw<T> for PutBack<T, I> {
    ghost can_draw = { (put_back T.Integer.own I.Draw).can_draw };

    ghost draw_gives = { (put_back T.Integer.own I.Draw).draw_gives };

    ghost draws_left = { (put_back T.Integer.own I.Draw).draws_left };

    ghost may_give = { (put_back T.Integer.own I.Draw).may_give };

    #[inline(always)]
    fn draw(&mut self) -> Option<RangeInclusive<T>> {
        if let Some(range) = self.held.take() {
            return Some(range);
        }
        if self.done {
            return None;
        }
        let range = self.iter.draw();
        self.done = range.is_none();
        range
    }

    ghost answers = { put_back-answered T.Integer.own ⟦<I as Draw<T>>⟧ I.answers };

    ghost sorted = { put_back-sorted T.Integer.own ⟦<I as Draw<T>>⟧ I.sorted };
}
