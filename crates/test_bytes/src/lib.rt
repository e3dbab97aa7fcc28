//! Tests of sets as bytes, by the public names of the libraries.
#![tactic(auto)]

#[cfg(test)]
mod bytes;
