//! What crates of every kind cite: the words in which a specification says what a step gives and why it is refused, and
//! laws of lists, options, results and truths. A crate of laws: it has no code.
#![tactic(auto)]
