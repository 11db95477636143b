//! What the lines of checkpoints that aren't resumed tell.

ghost use Rattle.vrepl_main.specs.Adding.{AddsText, at};
ghost use Rattle.vrepl_main.specs.ResumedText.{differs_text};

use crate::key_text::print_key;
use crate::output::{put_all, put_between, put_named, put_str};
use crate::refusal_line::Telling;
use crate::refused_text::{name_of_table, print_clash, print_unprepared};
use apply_core::ResumeFault;
use filter_rule::Table;
use pk_copy::Key;
use printing::{Gathered, Out, OutFailed};

impl Telling for ResumeFault {
    ghost use Rattle.checkpoint_laws.specs.Faults.{number_of};
    ghost use Rattle.vrepl_main.specs.ResumedText.{resume_details};

    ghost told_number = { number_of };

    ghost told_details = { resume_details };

    fn told_number(&self) -> u8 {
        self.number()
    }

    fn tell_details<E: Out>(
        &self,
        err: &mut E,
        text: &mut Gathered,
        tables: &[Table],
    ) -> Result<(), OutFailed> {
        match self {
            ResumeFault::PositionUnknown(stream) => {
                put_named(err, text, " stream ", u64::from(*stream))
            }
            ResumeFault::Unsound(fault) => print_unprepared(err, text, tables, fault),
            ResumeFault::CheckpointDiffers { stream, key } => print_differs(
                err, text, tables, *stream, key,
            ),
            ResumeFault::OwnedByOther { key, owner } => {
                print_clash(err, text, tables, key, *owner)
            }
            ResumeFault::FeedCount
            | ResumeFault::WrongPlan
            | ResumeFault::CheckpointBad
            | ResumeFault::Memory => Ok(()),
        }
    }
}

/// Adds at which key of which stream a row differs.
fn print_differs<E: Out>(
    err: &mut E,
    text: &mut Gathered,
    tables: &[Table],
    stream: u8,
    key: &Key,
) -> Result<(), OutFailed>
    ensures { AddsText result (at (E.written err.old) text.old) (at (E.written err.new) text.new) (differs_text tables.now stream key.now) }
{
    put_between(err, text, " stream ", u64::from(stream), " table ")?;
    put_str(err, text, name_of_table(tables, key.table()))?;
    put_all(err, text, b" key ")?;
    print_key(err, text, key)
}
