//! The words of the command line, read as `clap` takes them.

ghost use Rattle.std.specs.Prelude.{◌≡◌, ◌≢◌, [], IfOk, Some, map, string_bytes};
ghost use Rattle.clap.specs.Words.{FailsBy};
ghost use Rattle.vrepl_words.specs.Built.{HasApp};
ghost use Rattle.vrepl_words.specs.commands.{faults_of, program_app, value_of_words, words_of};

use crate::commands::show::Show;
use crate::commands::{Words, asked, program};
use clap::{Command, Error};
use std::alloc::Global;
use vrepl_choices::{FeedForm, ReportForm};

/// Reads the words that follow the program's name. Without any they are `show --hex -`.
///
/// An error is a fault of usage (its status is 2), a request for help (0), or `OutOfMemory`. Words
/// without a fault are read, unless memory runs out.
pub fn read<'w>(alloc: Global, words: &'w [String]) -> Result<Words<'w>, Error>
    ensures read { IfOk result (λ read. words_of (map string_bytes words.now) ≡ Some (value_of_words read)) }
    ensures refused { FailsBy (faults_of (map string_bytes words.now)) result }
{
    if words.is_empty() {
        return Ok(Words::Show(Show {
            feed_form: FeedForm::Hex,
            report_form: ReportForm::Lines,
            keyspace: "",
            shard: "",
            feed: "-",
        }));
    }
    read_by(alloc, program(alloc)?, words)
}

/// Reads words, of which there are some, by the program's command.
fn read_by<'w>(
    alloc: Global,
    mut command: Command<'w>,
    words: &'w [String],
) -> Result<Words<'w>, Error>
    requires command { HasApp program_app command }
    requires some { words.now ≢ [] }
    ensures read { IfOk result (λ read. words_of (map string_bytes words.now) ≡ Some (value_of_words read)) }
    ensures refused { FailsBy (faults_of (map string_bytes words.now)) result }
{
    let matches = command.try_get_matches_from_mut(words)?;
    asked(alloc, &matches)
}
