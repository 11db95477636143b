//! What changed in a target's rows since they were told: the keys that the streams' groups have touched since, and
//! what stands at them now. A crate of definitions and laws: beside a type it has no code.
#![tactic(auto)]

mod changed_keys;
mod laws;

pub use changed_keys::ChangedKeys;
pub use laws::{changes_lead_on, streams_go_on, untouched_keys_stand};
