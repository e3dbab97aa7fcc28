//! Tests of lengths, element types and streams, through the public names of the libraries.
#![tactic(auto)]

#[cfg(test)]
mod integer;
#[cfg(test)]
mod length;
#[cfg(test)]
mod streams;
