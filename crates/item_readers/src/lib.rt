//! What any reader gives: items one after another, and then the end or one fault. A crate of laws: it has
//! definitions and their lemmas alone.
#![tactic(auto)]
