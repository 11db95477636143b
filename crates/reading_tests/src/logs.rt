//! Tests of the crates that read a server's binary log, over logs and values of a server.

mod course;
mod events;
mod feed;
mod groups;
mod rows;
mod samples;
mod sets;
mod tables;
mod transcribe;
mod values;
mod waiting;
mod xa;
