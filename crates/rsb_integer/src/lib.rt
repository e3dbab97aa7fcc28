//! Element types: finitely many values in a fixed order, with their ranks, steps and lengths.
#![tactic(auto)]

pub mod element;
pub mod enumerated;
mod impls;
pub mod integer;
pub mod laws;

pub use element::Element;
pub use enumerated::Enumerated;
pub use integer::Integer;
