//! Tests of what a target holds: keys, copy marks, and the staged map from keys to rows.

mod groups_of_touches;
mod kept_rows;
mod keys;
mod lastpk;
mod marks;
mod rows;
mod tables;
mod touching;
