//! Tests of rows by key: their dump, written and read, and the comparison of two.

mod comparing;
mod dumps;
mod reading;
mod tables;
mod two_tables;
