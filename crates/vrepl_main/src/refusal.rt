//! What the program refuses, and the line that says so.

ghost use Rattle.std.specs.Prelude.{◌≡◌, ◌++◌, codes};
ghost use Rattle.vrepl_main.specs.Refusals.{cause_text, column_text, feed_details, feed_place, number_of, refusal_line, rule_text, workflow_details};
ghost use Rattle.vrepl_main.specs.Adding.{AddsText, at};
ghost use Rattle.vrepl_main.specs.Printing.{PrintsOrBreaks};

use crate::hex_text::HexFault;
use crate::output::{put_all, put_named, put_str};
use crate::refusal_line::{Telling, refuse_by};
use dump::DumpFault;
use feed_ends::EndFault;
use filter_rule::{PlanFault, Table};
use printing::{Gathered, Out, OutFailed};
use source_feed::FeedFault;
use std::alloc::AllocError;
use vevent::EventFault;

/// Why the program ends with status 1. Its line on standard error is `refused`, the number, and for
/// some numbers details.
#[derive(Drop)]
pub enum CommandRefusal<'w> {
    /// 72: a growth of memory was refused.
    Memory,
    /// 51 to 56: the workflow file is refused.
    Workflow(PlanFault),
    /// 115: a stream that is named isn't one of the workflow's.
    NoStream,
    /// 119: there aren't as many feeds as streams.
    FeedCount,
    /// 128: the feed of a stream, from 0, doesn't reach the position up to which it is to be read.
    NotReached { stream: usize },
    /// The feed is refused, by its own number.
    Feed(FeedFault),
    /// 93: a feed that is to be hexadecimal text is not.
    BadHex,
    /// 120: a line of a script, from 1, is no step.
    BadScript { line: usize },
    /// 121: a line of a dump, from 1, can't stand there, or is missing where the text ends.
    BadDump { line: usize },
    /// 129: a file that was to be replaced changed meanwhile.
    Changed { file: &'w str },
    /// 131: a file, or standard input as `-`, can't be read to its end.
    CannotRead { file: &'w str },
    /// 132: a file, or standard output as `-`, can't be written.
    CannotWrite { file: &'w str },
}

impl CommandRefusal<'_> {
    /// The number of the refusal.
    pub fn number(&self) -> u8
        ensures { result ≡ number_of self.now }
    {
        match self {
            CommandRefusal::Memory => 72,
            CommandRefusal::Workflow(fault) => fault.number(),
            CommandRefusal::NoStream => 115,
            CommandRefusal::FeedCount => 119,
            CommandRefusal::NotReached { .. } => 128,
            CommandRefusal::Feed(fault) => fault.number(),
            CommandRefusal::BadHex => 93,
            CommandRefusal::BadScript { .. } => 120,
            CommandRefusal::BadDump { .. } => 121,
            CommandRefusal::Changed { .. } => 129,
            CommandRefusal::CannotRead { .. } => 131,
            CommandRefusal::CannotWrite { .. } => 132,
        }
    }
}

impl<'w> From<AllocError> for CommandRefusal<'w> {
    ghost use Rattle.std.specs.Prelude.{◌≡◌};
    ghost use Rattle.vrepl_main.specs.declared.refusal.CommandRefusal.TheVariants.{Memory};

    ghost from_gives = { λ _ refusal. refusal ≡ Memory };

    fn from(_: AllocError) -> CommandRefusal<'w> {
        CommandRefusal::Memory
    }
}

impl<'w> From<FeedFault> for CommandRefusal<'w> {
    ghost use Rattle.std.specs.Prelude.{◌≡◌};
    ghost use Rattle.vrepl_main.specs.RefusalOf.{refusal_of_feed};

    ghost from_gives = { λ fault refusal. refusal ≡ refusal_of_feed fault };

    fn from(fault: FeedFault) -> CommandRefusal<'w> {
        match fault {
            FeedFault::Memory => CommandRefusal::Memory,
            fault => CommandRefusal::Feed(fault),
        }
    }
}

impl<'w> From<EndFault> for CommandRefusal<'w> {
    ghost use Rattle.std.specs.Prelude.{◌≡◌};
    ghost use Rattle.vrepl_main.specs.RefusalOf.{refusal_of_end};

    ghost from_gives = { λ fault refusal. refusal ≡ refusal_of_end fault };

    fn from(fault: EndFault) -> CommandRefusal<'w> {
        match fault {
            EndFault::Memory => CommandRefusal::Memory,
            EndFault::NoStream => CommandRefusal::NoStream,
            EndFault::BadPosition(cause) => CommandRefusal::Feed(FeedFault::BadPosition(cause)),
            EndFault::NotReached { stream } => CommandRefusal::NotReached { stream },
        }
    }
}

impl<'w> From<PlanFault> for CommandRefusal<'w> {
    ghost use Rattle.std.specs.Prelude.{◌≡◌};
    ghost use Rattle.vrepl_main.specs.RefusalOf.{refusal_of_workflow};

    ghost from_gives = { λ fault refusal. refusal ≡ refusal_of_workflow fault };

    fn from(fault: PlanFault) -> CommandRefusal<'w> {
        match fault {
            PlanFault::Memory => CommandRefusal::Memory,
            fault => CommandRefusal::Workflow(fault),
        }
    }
}

impl<'w> From<HexFault> for CommandRefusal<'w> {
    ghost use Rattle.std.specs.Prelude.{◌≡◌};
    ghost use Rattle.vrepl_main.specs.RefusalOf.{refusal_of_hex};

    ghost from_gives = { λ fault refusal. refusal ≡ refusal_of_hex fault };

    fn from(fault: HexFault) -> CommandRefusal<'w> {
        match fault {
            HexFault::BadHex => CommandRefusal::BadHex,
            HexFault::Memory => CommandRefusal::Memory,
        }
    }
}

impl<'w> From<DumpFault> for CommandRefusal<'w> {
    ghost use Rattle.std.specs.Prelude.{◌≡◌};
    ghost use Rattle.vrepl_main.specs.RefusalOf.{refusal_of_dump};

    ghost from_gives = { λ fault refusal. refusal ≡ refusal_of_dump fault };

    fn from(fault: DumpFault) -> CommandRefusal<'w> {
        match fault {
            DumpFault::BadDump { line } => CommandRefusal::BadDump { line },
            DumpFault::Memory => CommandRefusal::Memory,
        }
    }
}

/// All that commands print goes to standard output.
impl<'w> From<OutFailed> for CommandRefusal<'w> {
    ghost use Rattle.vrepl_main.specs.Command.{IsUnwritten};

    ghost from_gives = { λ _ refusal. IsUnwritten refusal };

    fn from(_: OutFailed) -> CommandRefusal<'w> {
        CommandRefusal::CannotWrite { file: "-" }
    }
}

/// Prints the number of a fault's cause, where it has one. Takes no memory.
pub(crate) fn print_cause<E: Out>(
    err: &mut E,
    text: &mut Gathered,
    cause: Option<u8>,
) -> Result<(), OutFailed>
    ensures { AddsText result (at (E.written err.old) text.old) (at (E.written err.new) text.new) (cause_text cause) }
{
    match cause {
        None => Ok(()),
        Some(cause) => put_named(err, text, " cause ", u64::from(cause)),
    }
}

/// Prints what a refused feed's line says behind the cause.
fn print_feed_place<E: Out>(
    err: &mut E,
    text: &mut Gathered,
    fault: &FeedFault,
) -> Result<(), OutFailed>
    ensures { AddsText result (at (E.written err.old) text.old) (at (E.written err.new) text.new) (feed_place fault.now) }
{
    match fault {
        FeedFault::Event(EventFault::BadType(kind)) => put_named(err, text, " type ", *kind),
        FeedFault::Diverged(group) => put_named(err, text, " group ", u64::from(*group)),
        _ => Ok(()),
    }
}

/// Prints what stands behind the number of a refused feed. Takes no memory.
pub(crate) fn print_feed_details<E: Out>(
    err: &mut E,
    text: &mut Gathered,
    fault: &FeedFault,
) -> Result<(), OutFailed>
    ensures { AddsText result (at (E.written err.old) text.old) (at (E.written err.new) text.new) (feed_details fault.now) }
{
    print_cause(err, text, fault.cause())?;
    print_feed_place(err, text, fault)
}

/// Prints which column of which table is at fault.
fn print_column<E: Out>(
    err: &mut E,
    text: &mut Gathered,
    table: &str,
    column: &str,
) -> Result<(), OutFailed>
    ensures { AddsText result (at (E.written err.old) text.old) (at (E.written err.new) text.new) (column_text table.now column.now) }
{
    put_all(err, text, b" table ")?;
    put_str(err, text, table)?;
    put_all(err, text, b" column ")?;
    put_str(err, text, column)
}

/// Prints which table is at fault.
fn print_table<E: Out>(err: &mut E, text: &mut Gathered, table: &str) -> Result<(), OutFailed>
    ensures { AddsText result (at (E.written err.old) text.old) (at (E.written err.new) text.new) (codes " table " ++ table.now) }
{
    put_all(err, text, b" table ")?;
    put_str(err, text, table)
}

/// Prints which rule of which stream is at fault.
fn print_rule<E: Out>(
    err: &mut E,
    text: &mut Gathered,
    stream: usize,
    rule: usize,
) -> Result<(), OutFailed>
    ensures { AddsText result (at (E.written err.old) text.old) (at (E.written err.new) text.new) (rule_text stream rule) }
{
    put_named(err, text, " stream ", stream as u64)?;
    put_named(err, text, " rule ", rule as u64)
}

/// Prints what stands behind the number of a refused workflow.
fn print_workflow_details<E: Out>(
    err: &mut E,
    text: &mut Gathered,
    fault: &PlanFault,
) -> Result<(), OutFailed>
    ensures { AddsText result (at (E.written err.old) text.old) (at (E.written err.new) text.new) (workflow_details fault.now) }
{
    match fault {
        PlanFault::NoSuchColumn { table, column } | PlanFault::KeyType { table, column } => {
            print_column(err, text, table.as_str(), column.as_str())
        }
        PlanFault::BadRule { stream, rule } => print_rule(err, text, *stream, *rule),
        PlanFault::ColumnsDiffer { table } => print_table(err, text, table.as_str()),
        _ => Ok(()),
    }
}

/// Prints the name of a file.
fn print_file<E: Out>(err: &mut E, text: &mut Gathered, file: &str) -> Result<(), OutFailed>
    ensures { AddsText result (at (E.written err.old) text.old) (at (E.written err.new) text.new) (codes " file " ++ file.now) }
{
    put_all(err, text, b" file ")?;
    put_str(err, text, file)
}

impl Telling for CommandRefusal<'_> {
    ghost use Rattle.vrepl_main.specs.Refusals.{details_of, number_of};

    ghost told_number = { number_of };

    ghost told_details = { λ _ refusal. details_of refusal };

    fn told_number(&self) -> u8 {
        self.number()
    }

    /// A table is named by its name in the workflow's file.
    fn tell_details<E: Out>(
        &self,
        err: &mut E,
        text: &mut Gathered,
        _tables: &[Table],
    ) -> Result<(), OutFailed> {
        match self {
            CommandRefusal::Changed { file }
            | CommandRefusal::CannotRead { file }
            | CommandRefusal::CannotWrite { file } => print_file(err, text, file),
            CommandRefusal::Workflow(fault) => print_workflow_details(err, text, fault),
            CommandRefusal::Feed(fault) => print_feed_details(err, text, fault),
            CommandRefusal::BadScript { line } | CommandRefusal::BadDump { line } => {
                put_named(err, text, " line ", *line as u64)
            }
            CommandRefusal::NotReached { stream } => {
                put_named(err, text, " stream ", *stream as u64)
            }
            CommandRefusal::Memory
            | CommandRefusal::NoStream
            | CommandRefusal::FeedCount
            | CommandRefusal::BadHex => Ok(()),
        }
    }
}

/// Prints the line of a refusal in one piece, whole unless `err` fails, and answers the status 1.
pub fn refuse<E: Out>(err: &mut E, refusal: &CommandRefusal<'_>) -> u8
    ensures status { result ≡ 1 }
    ensures line { PrintsOrBreaks (E.written err.old) (E.written err.new) (refusal_line refusal.now) }
{
    refuse_by(err, &[], refusal)
}
