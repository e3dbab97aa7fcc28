//! Tests of maps, by the public names of the library.
#![tactic(auto)]

#[cfg(test)]
mod built;
#[cfg(test)]
mod changes;
#[cfg(test)]
mod compared;
#[cfg(test)]
mod costly;
#[cfg(test)]
mod keys;
#[cfg(test)]
mod many_calls;
#[cfg(test)]
mod many_keys;
#[cfg(test)]
mod many_ranges;
#[cfg(test)]
mod refusals;
#[cfg(test)]
mod rows;
#[cfg(test)]
mod slots;
#[cfg(test)]
mod texts;
