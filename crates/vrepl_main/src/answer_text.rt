//! The replies to steps on a board that are made, as text.

ghost use Rattle.std.specs.Prelude.{◌≡◌};
ghost use Rattle.vrepl_main.specs.AnswerText.{answer_text, copied_text, done_text};
ghost use Rattle.vrepl_main.specs.Adding.{AddsText, at};

use crate::output::{put_all, put_between, put_named, put_str};
use board_laws::{Answer, Copied, Offered};
use printing::{Gathered, Out, OutFailed};

/// Adds the line of what a step answers: `read N`, `repeat N`, `applied N`, `snapshot N`, `copied R`
/// with ` done` behind it where the table is done, `closed`, or `restarted N`. Takes no memory.
pub(crate) fn print_answer<W: Out>(
    out: &mut W,
    text: &mut Gathered,
    answer: Answer,
) -> Result<(), OutFailed>
    ensures { AddsText result (at (W.written out.old) text.old) (at (W.written out.new) text.new) (answer_text answer) }
{
    match answer {
        Answer::Offered(Offered::Read(number)) => {
            put_between(out, text, "read ", u64::from(number), "\n")
        }
        Answer::Offered(Offered::Repeat(number)) => {
            put_between(out, text, "repeat ", u64::from(number), "\n")
        }
        Answer::Applied(number) => put_between(out, text, "applied ", u64::from(number), "\n"),
        Answer::Opened(number) => put_between(out, text, "snapshot ", u64::from(number), "\n"),
        Answer::Copied(copied) => print_copied(out, text, copied),
        Answer::Closed => put_all(out, text, b"closed\n"),
        Answer::Restarted(number) => put_between(out, text, "restarted ", u64::from(number), "\n"),
    }
}

/// Adds the line of rows that were copied.
fn print_copied<W: Out>(out: &mut W, text: &mut Gathered, copied: Copied) -> Result<(), OutFailed>
    ensures { AddsText result (at (W.written out.old) text.old) (at (W.written out.new) text.new) (copied_text copied) }
{
    put_named(out, text, "copied ", u64::from(copied.rows))?;
    put_str(out, text, done_words(copied.done))?;
    put_all(out, text, b"\n")
}

/// What says that a table is done.
fn done_words(done: bool) -> &'static str
    ensures { result.now ≡ done_text done }
{
    if done { " done" } else { "" }
}
