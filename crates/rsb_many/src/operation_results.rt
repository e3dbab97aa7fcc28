//! Named results of operations on any number of streams.

pub mod multiway_intersection;
pub mod multiway_union;

pub use multiway_intersection::MultiwayIntersection;
pub use multiway_union::MultiwayUnion;
