//! What `check` is given, each by its name.

use vrepl_choices::{FeedForm, ReportForm};

/// What is checked, and how it is told.
#[derive(Drop)]
pub struct CheckInputs<'n, 'w> {
    /// How the report is printed.
    pub report_form: ReportForm,
    /// Whether notes are as warnings.
    pub strict: bool,
    /// How the feeds are given.
    pub feed_form: FeedForm,
    /// The workflow's file.
    pub workflow: Vec<u8>,
    /// The names of the feeds' files.
    pub files: &'n [&'w str],
    /// The feeds, one in the order of the streams each.
    pub feeds: Vec<Vec<u8>>,
}
