//! The line of an answer, and short answers.

ghost use Rattle.std.specs.Prelude.{List, ℕ, ◌≡◌, ◌++◌, codes};
ghost use Rattle.json_pieces.specs.Telling.{Tells, at, fresh};
ghost use Rattle.printing.specs.Printing.{Prints, Written};
ghost use Rattle.serde_json.specs.Data.{Data};
ghost use Rattle.serde_json.specs.Written.{compact_text};
ghost use Rattle.live_json.specs.Answers.{RefusalValue, nothing_data, ok_line, refusal_data, refused_line, saved_data};

use crate::cells::put_count;
use json_pieces::Line;
use printing::{Out, OutFailed};

/// A line that begins so.
pub(crate) fn begun<O: Out>(out: &mut O, front: &[u8]) -> Line
    ensures { Tells (at (O.written out.old) fresh) (at (O.written out.new) result) front.now }
{
    let mut line = Line::new();
    line.put(out, front);
    line
}

/// Ends the line of an answer or of a refusal.
pub(crate) fn end<O: Out>(out: &mut O, line: Line) -> Result<(), OutFailed>
    ensures ok { (begun : Written) (answer : Data) → Tells (at begun fresh) (at (O.written out.old) line) (codes "{\"ok\":" ++ compact_text answer)
        → Prints result begun (O.written out.new) (ok_line answer) }
    ensures refused { (begun : Written) (refusal : RefusalValue) → Tells (at begun fresh) (at (O.written out.old) line) (codes "{\"refused\":" ++ compact_text (refusal_data refusal))
        → Prints result begun (O.written out.new) (refused_line refusal) }
{
    let mut line = line;
    line.put(out, b"}\n");
    line.finish(out)
}

/// Puts how many bytes were saved.
fn put_saved<O: Out>(out: &mut O, line: &mut Line, bytes: u64)
    ensures { Tells (at (O.written out.old) line.old) (at (O.written out.new) line.new) (compact_text (saved_data bytes)) }
{
    line.put(out, b"{\"bytes\":");
    put_count(out, line, bytes);
    line.put(out, b"}");
}

/// Prints how many bytes were saved. Takes no memory. After a fault what was written is a beginning of it.
pub fn print_saved<O: Out>(out: &mut O, bytes: u64) -> Result<(), OutFailed>
    ensures { Prints result (O.written out.old) (O.written out.new) (ok_line (saved_data bytes)) }
{
    let mut line = begun(out, b"{\"ok\":");
    put_saved(out, &mut line, bytes);
    end(out, line)
}

/// Prints that there is nothing to tell. Takes no memory. After a fault what was written is a beginning of it.
pub fn print_nothing<O: Out>(out: &mut O) -> Result<(), OutFailed>
    ensures { Prints result (O.written out.old) (O.written out.new) (ok_line nothing_data) }
{
    let line = begun(out, b"{\"ok\":{}");
    end(out, line)
}
