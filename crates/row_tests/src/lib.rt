//! Tests of what a target holds: its map from keys to rows, their dump, and two dumps compared.
#![tactic(auto)]

#[cfg(test)]
mod dumps;
#[cfg(test)]
mod repairs;
#[cfg(test)]
mod tables;
