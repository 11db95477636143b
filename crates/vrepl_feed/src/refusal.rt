//! Why a text is no feed's, and the line that says so.

ghost use Rattle.std.specs.Prelude.{◌≡◌, ◌++◌, ◌∷◌, [], codes, decimal};
ghost use Rattle.feed_text.specs.declared.fault.TextFault.{TextFault};
ghost use Rattle.printing.specs.Printing.{Adds};
ghost use Rattle.vrepl_main.specs.Printing.{PrintsOrBreaks};
ghost use Rattle.vrepl_feed.specs.Refusals.{text_line, unfed_line};

use feed_text::{FeedTextError, TextFault};
use filter_rule::PlanFault;
use printing::{Gathered, Out, OutFailed};
use std::alloc::AllocError;
use vrepl_main::{CommandRefusal, refuse};

/// Why a text is no feed's.
#[derive(Drop)]
pub enum Unfed {
    /// What stands in the workflow, want of memory, or that the feed can't be written.
    Given(CommandRefusal<'static>),
    /// 133: a line isn't as `show` prints it.
    Text(TextFault),
}

impl From<CommandRefusal<'static>> for Unfed {
    fn from(refusal: CommandRefusal<'static>) -> Unfed {
        Unfed::Given(refusal)
    }
}

impl From<PlanFault> for Unfed {
    fn from(fault: PlanFault) -> Unfed {
        Unfed::Given(CommandRefusal::from(fault))
    }
}

impl From<FeedTextError> for Unfed {
    fn from(error: FeedTextError) -> Unfed {
        match error {
            FeedTextError::Memory => Unfed::from(AllocError),
            FeedTextError::Fault(fault) => Unfed::Text(fault),
        }
    }
}

impl From<AllocError> for Unfed {
    fn from(_: AllocError) -> Unfed {
        Unfed::Given(CommandRefusal::Memory)
    }
}

/// Adds a number behind a word.
fn add_named<E: Out>(
    err: &mut E,
    text: &mut Gathered,
    word: &str,
    number: u64,
) -> Result<(), OutFailed>
    ensures { Adds result (E.written err.old) text.old (E.written err.new) text.new (word.now ++ decimal number) }
{
    let mut digits = itoa::Buffer::new();
    text.put(err, word.as_bytes())?;
    text.put(err, digits.format(number).as_bytes())
}

/// Adds the line of a text that is no feed's.
fn add_text_line<E: Out>(
    err: &mut E,
    text: &mut Gathered,
    fault: TextFault,
) -> Result<(), OutFailed>
    ensures { Adds result (E.written err.old) text.old (E.written err.new) text.new (text_line fault) }
{
    add_named(err, text, "refused 133 line ", fault.line)?;
    add_named(err, text, " column ", fault.column)?;
    text.put(err, b"\n")
}

/// Prints the line of a text that is no feed's.
fn print_text<E: Out>(err: &mut E, fault: TextFault) -> Result<(), OutFailed>
    ensures { PrintsOrBreaks (E.written err.old) (E.written err.new) (text_line fault) }
{
    let mut text = Gathered::new();
    add_text_line(err, &mut text, fault)?;
    text.finish(err)
}

/// The status 1, behind that line.
fn refuse_text<E: Out>(err: &mut E, fault: TextFault) -> u8
    ensures status { result ≡ 1 }
    ensures line { PrintsOrBreaks (E.written err.old) (E.written err.new) (text_line fault) }
{
    let _printed = print_text(err, fault);
    1
}

/// Prints the line of a refusal, whole unless `err` fails, and answers the status 1.
pub fn refuse_unfed<E: Out>(err: &mut E, unfed: Unfed) -> u8
    ensures status { result ≡ 1 }
    ensures line { PrintsOrBreaks (E.written err.old) (E.written err.new) (unfed_line unfed) }
{
    match unfed {
        Unfed::Given(refusal) => refuse(err, &refusal),
        Unfed::Text(fault) => refuse_text(err, fault),
    }
}
