//! Laws of what `serde_json` reads of a text. A crate of laws: it has no code and no definition.
#![tactic(auto)]
