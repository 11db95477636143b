//! Tests of a session over feeds that come in parts.

mod coming;
mod feeds;
mod refusals;
mod worked;
