//! What the flags of a subcommand choose: each flag that stands for one of several ways is read here, and nowhere else.

ghost use Rattle.std.specs.Prelude.{◌≡◌};
ghost use Rattle.clap.specs.Words.{found_of, rows_of};
ghost use Rattle.vrepl_words.specs.Choices.{feed_form_given, report_form_given, telling_given, threading_given};

use crate::given::has_flag;
use clap::ArgMatches;
use vrepl_choices::{FeedForm, ReportForm, Threading};

/// Whether a command tells on its way, on standard error, how far it is.
#[derive(Clone, Copy, Debug, PartialEq, Eq)]
pub enum Telling {
    /// Where that is a terminal.
    OnTerminal,
    /// Wherever it goes.
    Always,
    /// Never.
    Never,
}

/// How feeds are given: as hexadecimal text with `--hex`.
pub(crate) fn feed_form_given(given: &ArgMatches<'_>) -> FeedForm
    ensures { result ≡ feed_form_given (rows_of (found_of given.now)) }
{
    if has_flag(given, "hex") {
        FeedForm::Hex
    } else {
        FeedForm::Bytes
    }
}

/// How streams run: one after another with `--alone`.
pub(crate) fn threading_given(given: &ArgMatches<'_>) -> Threading
    ensures { result ≡ threading_given (rows_of (found_of given.now)) }
{
    if has_flag(given, "alone") {
        Threading::Alone
    } else {
        Threading::Parallel
    }
}

/// How a report is printed: as JSON with `--json`.
pub(crate) fn report_form_given(given: &ArgMatches<'_>) -> ReportForm
    ensures { result ≡ report_form_given (rows_of (found_of given.now)) }
{
    if has_flag(given, "json") {
        ReportForm::Json
    } else {
        ReportForm::Lines
    }
}

/// Whether a command tells how far it is: never with `--quiet`, always with `--progress`.
pub(crate) fn telling_given(given: &ArgMatches<'_>) -> Telling
    ensures { result ≡ telling_given (rows_of (found_of given.now)) }
{
    if has_flag(given, "quiet") {
        Telling::Never
    } else if has_flag(given, "progress") {
        Telling::Always
    } else {
        Telling::OnTerminal
    }
}
