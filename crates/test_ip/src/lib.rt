//! Tests of lists of IP addresses, and of the commands on them, with only the public names of the
//! libraries.
#![tactic(auto)]

#[cfg(test)]
mod commands;
#[cfg(test)]
mod sets;
