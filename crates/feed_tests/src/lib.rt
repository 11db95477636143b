//! Tests of the crates that read a feed, make one of a text, and write one.
#![tactic(auto)]

#[cfg(test)]
mod feeds;
#[cfg(test)]
mod texts;
#[cfg(test)]
mod writing;
