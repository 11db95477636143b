//! Tests of the board, of lists of steps on it, and of its checkpoints.
#![tactic(auto)]

#[cfg(test)]
mod boards;
#[cfg(test)]
mod checkpoints;
