//! The line of a refusal, whatever is refused: `refused`, its number, and what stands behind it.

ghost use Rattle.std.specs.Prelude.{◌≡◌};
ghost use Rattle.vrepl_main.specs.Adding.{AddsText, at};
ghost use Rattle.vrepl_main.specs.Printing.{PrintsOrBreaks};
ghost use Rattle.vrepl_main.specs.RefusalLine.{line_of};

use crate::output::{put_all, put_named};
use filter_rule::{Plan, Table};
use printing::{Gathered, Out, OutFailed};

/// What the line of a refusal tells.
pub(crate) trait Telling {
    ghost use Rattle.std.specs.Prelude.{ℕ, List};
    ghost use Rattle.filter_rule.specs.PlanTable.{TableValue};

    // The number.
    ghost told_number: { Self → ℕ };

    // What stands behind it; tables are named by their numbers in a plan.
    ghost told_details: { List TableValue → Self → List ℕ };

    /// The number.
    fn told_number(&self) -> u8
        ensures { result ≡ told_number self.now };

    /// Adds what stands behind the number, if there is something. Takes no memory.
    fn tell_details<W: Out>(
        &self,
        out: &mut W,
        text: &mut Gathered,
        tables: &[Table],
    ) -> Result<(), OutFailed>
        ensures { AddsText result (at (W.written out.old) text.old) (at (W.written out.new) text.new) (told_details tables.now self.now) };
}

/// Adds the line of a refusal. Tables are named by their numbers in a plan. Takes no memory.
pub(crate) fn print_refused<T: Telling, W: Out>(
    out: &mut W,
    text: &mut Gathered,
    tables: &[Table],
    refusal: &T,
) -> Result<(), OutFailed>
    ensures { AddsText result (at (W.written out.old) text.old) (at (W.written out.new) text.new) (line_of (T.told_number refusal.now) (T.told_details tables.now refusal.now)) }
{
    put_named(out, text, "refused ", u64::from(refusal.told_number()))?;
    refusal.tell_details(out, text, tables)?;
    put_all(out, text, b"\n")
}

/// Prints the line of a refusal that names tables of a plan, in one piece, whole unless `err` fails, and answers the
/// status 1.
pub(crate) fn refuse_over<T: Telling, E: Out>(err: &mut E, plan: &Plan, refusal: &T) -> u8
    ensures status { result ≡ 1 }
    ensures line { PrintsOrBreaks (E.written err.old) (E.written err.new) (line_of (T.told_number refusal.now) (T.told_details plan.now.tables refusal.now)) }
{
    refuse_by(err, plan.tables(), refusal)
}

/// The same by the tables themselves, none for a line that names none.
pub(crate) fn refuse_by<T: Telling, E: Out>(err: &mut E, tables: &[Table], refusal: &T) -> u8
    ensures status { result ≡ 1 }
    ensures line { PrintsOrBreaks (E.written err.old) (E.written err.new) (line_of (T.told_number refusal.now) (T.told_details tables.now refusal.now)) }
{
    let _printed = print_line(err, tables, refusal);
    1
}

/// Prints the line of a refusal.
fn print_line<T: Telling, E: Out>(
    err: &mut E,
    tables: &[Table],
    refusal: &T,
) -> Result<(), OutFailed>
    ensures { PrintsOrBreaks (E.written err.old) (E.written err.new) (line_of (T.told_number refusal.now) (T.told_details tables.now refusal.now)) }
{
    let mut text = Gathered::new();
    print_refused(err, &mut text, tables, refusal)?;
    text.finish(err)
}
