//! What a line of a script says.

ghost use Rattle.std.specs.Prelude.{◌≡◌};
ghost use Rattle.step_script.specs.ScriptLines.{bare_step, numbered_step, said_of, script_step_of, said_alone, words_of_line, without_cr, line_of};

use crate::number::number_of;
use crate::script::ScriptStep;
use crate::word::next_word;
use stream_core::Step;

/// What a line of a script is.
#[derive(Clone, Copy)]
pub(crate) enum Line {
    /// An empty line, or one that begins with `#`.
    Skipped,
    Step(ScriptStep),
    /// Anything else.
    Bad,
}

/// The step of a word that stands with its stream alone.
fn bare_step(word: &[u8]) -> Option<Step>
    ensures { result ≡ bare_step word.now }
{
    if word == b"advance".as_slice() {
        return Some(Step::Advance);
    }
    if word == b"close".as_slice() {
        return Some(Step::Close);
    }
    if word == b"restart".as_slice() {
        return Some(Step::Restart);
    }
    None
}

/// The step of a word that stands with its stream and the number of a group or of rows.
fn numbered_step(word: &[u8], number: u32) -> Option<Step>
    ensures { result ≡ numbered_step word.now number }
{
    if word == b"offer".as_slice() {
        return Some(Step::Offer(number));
    }
    if word == b"open".as_slice() {
        return Some(Step::OpenAt(number));
    }
    if word == b"copy".as_slice() {
        return Some(Step::CopyRows(number));
    }
    None
}

/// What is said by one word.
fn said_alone(word: &[u8]) -> Option<ScriptStep>
    ensures { result ≡ said_alone word.now }
{
    if word == b"dump".as_slice() {
        return Some(ScriptStep::Dump);
    }
    None
}

/// What is said of a stream with no further number.
fn said_of(word: &[u8], stream: u32) -> Option<ScriptStep>
    ensures { result ≡ said_of word.now stream }
{
    if word == b"state".as_slice() {
        return Some(ScriptStep::State { stream });
    }
    let step = bare_step(word)?;
    Some(ScriptStep::Take { stream, step })
}

/// What the words of a line say, if they say something. Takes no memory.
fn step_of(text: &[u8]) -> Option<ScriptStep>
    ensures { result ≡ script_step_of (words_of_line text.now) }
{
    let (word, behind) = next_word(text)?;
    let Some((stream, behind)) = next_word(behind) else {
        return said_alone(word);
    };
    let Some((number, behind)) = next_word(behind) else {
        return said_of(word, number_of(stream)?);
    };
    if next_word(behind).is_some() {
        return None;
    }
    let stream = number_of(stream)?;
    let step = numbered_step(word, number_of(number)?)?;
    Some(ScriptStep::Take { stream, step })
}

/// A line without the CR at its end.
pub(crate) fn without_cr(text: &[u8]) -> &[u8]
    ensures { result.now ≡ without_cr text.now }
{
    text.strip_suffix(b"\r".as_slice()).unwrap_or(text)
}

/// What a line is, which has lost its CR. Takes no memory.
pub(crate) fn line_of(text: &[u8]) -> Line
    ensures { result ≡ line_of text.now }
{
    if text.is_empty() || text[0] == b'#' {
        return Line::Skipped;
    }
    match step_of(text) {
        Some(step) => Line::Step(step),
        None => Line::Bad,
    }
}
