//! The subcommand `status`: what is said of checkpoints, printed.

ghost use Rattle.std.specs.Prelude.{◌≡◌, map};
ghost use Rattle.status_said.specs.Printed.{EndsSo, PrintsText};
ghost use Rattle.status_said.specs.Said as said;

use crate::fault::StatusFault;
use crate::said::status_said;
use printing::{Out, put_all};
use std::alloc::Global;
use vrepl_choices::ReportForm;

/// How `status` ends.
#[derive(Clone, Copy, Debug)]
pub enum StatusEnd {
    /// All was printed.
    Printed,
    /// Nothing was printed: a file is no checkpoint.
    Broken {
        /// The number of the file, from 0.
        file: usize,
    },
    /// Nothing was printed: the allocator gave no memory.
    Memory,
    /// A write failed.
    Unwritten,
}

/// Prints a text.
fn print_text<W: Out>(text: &str, out: &mut W) -> StatusEnd
    ensures { PrintsText text.now result (W.written out.old) (W.written out.new) }
{
    match put_all(out, text.as_bytes()) {
        Ok(()) => StatusEnd::Printed,
        Err(_) => StatusEnd::Unwritten,
    }
}

/// Prints what `status_said` says of checkpoints, whose files have these names, or nothing where one of them is no
/// checkpoint, the first of these.
pub fn status<W: Out>(
    alloc: Global,
    form: ReportForm,
    names: &[&str],
    texts: &[Vec<u8>],
    out: &mut W,
) -> StatusEnd
    ensures { EndsSo (said.status_said form (map (λ name. name.now) names.now) (map (λ text. text.items) texts.now)) result (W.written out.old) (W.written out.new) }
{
    match status_said(alloc, form, names, texts) {
        Err(StatusFault::Broken { file }) => StatusEnd::Broken { file },
        Err(StatusFault::Memory) => StatusEnd::Memory,
        Ok(text) => print_text(&text, out),
    }
}
