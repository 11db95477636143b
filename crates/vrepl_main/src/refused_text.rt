//! What the lines of refused steps on a board tell.

ghost use Rattle.std.specs.Prelude.{◌≡◌};
ghost use Rattle.filter_rule.specs.PlanTable.{name_of_table};
ghost use Rattle.vrepl_main.specs.RefusedText.{bad_row_text, clash_text, owner_text, unprepared_text};
ghost use Rattle.vrepl_main.specs.Adding.{AddsText, at};

use crate::key_text::print_key;
use crate::output::{put_all, put_between, put_named, put_str};
use crate::refusal::{print_cause, print_feed_details};
use crate::refusal_line::Telling;
use board_laws::{Refusal, StepRefusal};
use filter_rule::Table;
use pk_copy::Key;
use printing::{Gathered, Out, OutFailed};
use source_feed::FeedFault;
use stream_core::CoreRefusal;

impl Telling for StepRefusal {
    ghost use Rattle.board_laws.specs.Refusals.{number_of_step};
    ghost use Rattle.vrepl_main.specs.RefusedText.{step_details};

    ghost told_number = { number_of_step };

    ghost told_details = { step_details };

    fn told_number(&self) -> u8 {
        self.number()
    }

    fn tell_details<W: Out>(
        &self,
        out: &mut W,
        text: &mut Gathered,
        tables: &[Table],
    ) -> Result<(), OutFailed> {
        match self {
            StepRefusal::Unprepared(fault) => print_unprepared(out, text, tables, fault),
            StepRefusal::Refused(Refusal::OwnedByOther { key, owner }) => {
                print_clash(out, text, tables, key, *owner)
            }
            StepRefusal::Refused(Refusal::Core(CoreRefusal::Gap { expected })) => {
                put_named(out, text, " expected ", u64::from(*expected))
            }
            StepRefusal::Refused(_) => Ok(()),
        }
    }
}

/// Adds why a group can't be prepared.
pub(crate) fn print_unprepared<W: Out>(
    out: &mut W,
    text: &mut Gathered,
    tables: &[Table],
    fault: &FeedFault,
) -> Result<(), OutFailed>
    ensures { AddsText result (at (W.written out.old) text.old) (at (W.written out.new) text.new) (unprepared_text tables.now fault.now) }
{
    match fault {
        FeedFault::BadRow {
            group,
            table,
            cause,
        } => print_bad_row(out, text, tables, *group, *table, *cause),
        FeedFault::NoGroup { groups } => put_named(out, text, " groups ", u64::from(*groups)),
        _ => print_feed_details(out, text, fault),
    }
}

/// Adds which row has no key or no answer of the filter.
fn print_bad_row<W: Out>(
    out: &mut W,
    text: &mut Gathered,
    tables: &[Table],
    group: u32,
    table: u8,
    cause: u8,
) -> Result<(), OutFailed>
    ensures { AddsText result (at (W.written out.old) text.old) (at (W.written out.new) text.new) (bad_row_text tables.now group table cause) }
{
    put_between(out, text, " group ", u64::from(group), " table ")?;
    put_str(out, text, name_of_table(tables, table))?;
    print_cause(out, text, Some(cause))
}

/// Adds at which key a row of another stream stands.
pub(crate) fn print_clash<W: Out>(
    out: &mut W,
    text: &mut Gathered,
    tables: &[Table],
    key: &Key,
    owner: u8,
) -> Result<(), OutFailed>
    ensures { AddsText result (at (W.written out.old) text.old) (at (W.written out.new) text.new) (clash_text tables.now key.now owner) }
{
    put_all(out, text, b" table ")?;
    put_str(out, text, name_of_table(tables, key.table()))?;
    put_all(out, text, b" key ")?;
    print_key(out, text, key)?;
    print_owner(out, text, owner)
}

/// Adds whose row it is.
fn print_owner<W: Out>(out: &mut W, text: &mut Gathered, owner: u8) -> Result<(), OutFailed>
    ensures { AddsText result (at (W.written out.old) text.old) (at (W.written out.new) text.new) (owner_text owner) }
{
    put_named(out, text, " owner ", u64::from(owner))
}

/// The name of a table by its number.
pub(crate) fn name_of_table(tables: &[Table], t: u8) -> &str
    ensures { result.now ≡ name_of_table tables.now t }
{
    match tables.get(usize::from(t)) {
        None => "",
        Some(table) => table.name(),
    }
}
