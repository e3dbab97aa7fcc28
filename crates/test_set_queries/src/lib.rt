//! Tests of queries of sets, their iterators, their text and std's traits, by the public names of the
//! libraries. `test_sets` has those of changes and of new sets.
#![tactic(auto)]

#[cfg(test)]
mod set;
