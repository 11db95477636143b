//! Tests of the crates that read and write bytes and texts: fields, rows, events and positions.
//! Most are tables, walked by one helper; a row's comment begins with the name of its case.

mod events;
mod fields;
mod marks;
mod positions;
mod responses;
mod rows;
mod samples;
mod texts;
mod writing;
mod written_events;
