//! Tests of the differences of two sets of rows: their statements, and their lines.

mod both;
mod setup;
