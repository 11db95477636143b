//! What the lines of boards that aren't joined tell.

use crate::output::put_named;
use crate::refusal_line::Telling;
use crate::refused_text::print_clash;
use apply_core::JoinFault;
use filter_rule::Table;
use printing::{Gathered, Out, OutFailed};

impl Telling for JoinFault {
    ghost use Rattle.board_laws.specs.JoinFaults.{number_of};
    ghost use Rattle.vrepl_main.specs.JoinedText.{join_details};

    ghost told_number = { number_of };

    ghost told_details = { join_details };

    fn told_number(&self) -> u8 {
        self.number()
    }

    fn tell_details<E: Out>(
        &self,
        err: &mut E,
        text: &mut Gathered,
        tables: &[Table],
    ) -> Result<(), OutFailed> {
        match self {
            JoinFault::HistoriesDiffer(stream) => {
                put_named(err, text, " stream ", u64::from(*stream))
            }
            JoinFault::OwnedByOther { key, owner } => print_clash(err, text, tables, key, *owner),
            JoinFault::WrongPlan | JoinFault::Memory => Ok(()),
        }
    }
}
