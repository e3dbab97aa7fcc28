//! Tests of commands and of the program, with only the public names of the libraries.
#![tactic(auto)]

#[cfg(test)]
mod run;
