//! What the words of a command choose between, each choice by a name: how feeds are given and up to where they are read,
//! how streams run, how a report is printed. It has types alone.
#![tactic(auto)]

mod feed_form;
mod report_form;
mod threading;
mod until;

pub use feed_form::FeedForm;
pub use report_form::ReportForm;
pub use threading::Threading;
pub use until::Until;
