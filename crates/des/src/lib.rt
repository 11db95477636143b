//! The Data Encryption Standard (FIPS PUB 46-3): one block enciphered under a key.
#![tactic(auto)]

mod boxes;
mod cipher;
mod key_schedule;
mod laws;
mod permutations;
mod rounds;
mod selection;

pub use cipher::Cipher;
pub use laws::null_key_has_null_round_keys;
