//! Tests of the lines of a text that have an address of lists, with only the public names of the
//! library.
#![tactic(auto)]

#[cfg(test)]
mod lines;
