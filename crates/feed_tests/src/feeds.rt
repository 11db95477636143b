//! Tests of the crates that read a feed: groups, what is prepared of them, and the image of their rows.

mod ends;
mod feeds;
mod fitting;
mod groups;
mod growing;
mod image;
mod opening;
mod pieces;
mod prepared;
mod random;
mod refusals;
mod slow;
