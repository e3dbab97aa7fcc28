//! Tests of operations on many streams and on many sets, with only the public names of the
//! libraries.
#![tactic(auto)]

#[cfg(test)]
mod many;
