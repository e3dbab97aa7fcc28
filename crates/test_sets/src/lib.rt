//! Tests of the set, by the public names of the libraries.
#![tactic(auto)]

#[cfg(test)]
mod set;
