//! How a report is printed.

/// How a report is printed.
#[derive(Clone, Copy)]
pub enum ReportForm {
    /// In lines of text.
    Lines,
    /// As one object of JSON, on one line.
    Json,
}
