//! What other languages call: readers and judges as functions of C (include/vrepl.h says the same to a caller).
//!
//! A call reads what is lent to it for as long as it runs, writes where the caller says, and keeps nothing: no
//! memory that it takes outlives it. It answers 0, or the number of a refusal (docs/FORMATS.md, "Numbers").
#![tactic(auto)]

mod checked;
mod compare;
mod differences;
mod dumping;
mod encoded;
mod groups;
mod keys;
mod message;
mod plan;
mod position;
mod ranges;
mod room;
mod text;
mod vindex_id;
mod words;
mod workflow;
