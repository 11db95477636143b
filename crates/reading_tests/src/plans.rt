//! Tests of the crates that read a workflow: key ranges, ids and plans.
//! Most are tables, walked by one helper; a row's comment begins with the name of its case.

mod added;
mod faults;
mod files;
mod filters;
mod further;
mod limits;
mod lists;
mod places;
mod ranges;
mod workflows;
