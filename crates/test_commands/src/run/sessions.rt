//! Sessions worked by hand: lines, the text of the replies, and what the replies are.

use std::cmp::Ordering;

/// A session of the basic commands.
pub(crate) const SESSION: &[u8] =
    b"add 0 1 2\nadd 0 4 5\nadd 0 3 3\nadd 0 2 4\nhas 0 3\nlen 0\nshow 0\n";

/// The replies to that session.
pub(crate) const REPLIES: &[u8] = b"true\ntrue\ntrue\nfalse\ntrue\n5\n1..=5\n";

/// A session of all commands.
pub(crate) const ALL_COMMANDS: &[u8] =
    b"add 0 1 5\nadd 0 6 9\ndel 0 3\nshow 0\nlen 0\ngap 0 3\nadd 1 4 4\n\
sub 2 0 1\nshow 2\nxor 3 2 1\nshow 3\nnot 4 0\nshow 4\ncmp 0 1\nhas 0 4\nadd 0 9 8\nshow 5\n";

/// The replies to that session.
pub(crate) const ALL_REPLIES: &[u8] = b"true\ntrue\ntrue\n1..=2, 4..=9\n8\n3..=3 false\ntrue\n\
2\n1..=2, 5..=9\n2\n1..=2, 4..=9\n3\n-2147483648..=0, 3..=3, 10..=2147483647\nless\ntrue\nfalse\n\n";

/// A session of `most`, also with a set that is named twice.
pub(crate) const MOST: &[u8] =
    b"add 0 1 5\nadd 1 3 8\nadd 2 5 6\nmost 3 0 1 2\nshow 3\nmost 3 3 3 4\nshow 3\n";

/// The replies to that session.
pub(crate) const MOST_REPLIES: &[u8] = b"true\ntrue\ntrue\n1\n3..=6\n1\n3..=6\n";

/// An expected reply.
#[derive(Clone, Copy)]
pub(crate) enum Told {
    Flag(bool),
    Piece(i32, i32, bool),
    Count(u64),
    Ranges(&'static [(i32, i32)]),
    Runs(usize),
    Order(Ordering),
}

/// The expected replies to the first session.
pub(crate) static TOLD: [Told; 7] = [
    Told::Flag(true),
    Told::Flag(true),
    Told::Flag(true),
    Told::Flag(false),
    Told::Flag(true),
    Told::Count(5),
    Told::Ranges(&[(1, 5)]),
];

/// The expected replies to the session of all commands.
pub(crate) static ALL_TOLD: [Told; 17] = [
    Told::Flag(true),
    Told::Flag(true),
    Told::Flag(true),
    Told::Ranges(&[(1, 2), (4, 9)]),
    Told::Count(8),
    Told::Piece(3, 3, false),
    Told::Flag(true),
    Told::Runs(2),
    Told::Ranges(&[(1, 2), (5, 9)]),
    Told::Runs(2),
    Told::Ranges(&[(1, 2), (4, 9)]),
    Told::Runs(3),
    Told::Ranges(&[(i32::MIN, 0), (3, 3), (10, i32::MAX)]),
    Told::Order(Ordering::Less),
    Told::Flag(true),
    Told::Flag(false),
    Told::Ranges(&[]),
];

/// The expected replies to the session of `most`.
pub(crate) static MOST_TOLD: [Told; 7] = [
    Told::Flag(true),
    Told::Flag(true),
    Told::Flag(true),
    Told::Runs(1),
    Told::Ranges(&[(3, 6)]),
    Told::Runs(1),
    Told::Ranges(&[(3, 6)]),
];
