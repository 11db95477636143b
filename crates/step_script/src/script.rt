//! Scripts of steps.

ghost use Rattle.std.specs.Prelude.{◌≡◌, ℕ, List, Result, Err, OnOk, IfOk, IfErr, IsOk, Ok};
ghost use Rattle.step_script.specs.ScriptLines.{without_cr, line_of, steps_then, script_steps};
ghost use Rattle.step_script.specs.ScriptRefusal.{RefusesScript};
ghost use Rattle.step_script.specs.Private.{steps_before, is_bad, bad_line_of};
ghost use Rattle.step_script.specs.declared.script.ScriptFault.TheVariants.{Memory};

use crate::line::{Line, line_of, without_cr};
use crate::word::first_line;
use std::alloc::{AllocError, AllocFailed, Global};
use stream_core::Step;
use thiserror::Error;

/// A step of a script. Streams are numbered from 0, groups from 1.
#[derive(Clone, Copy)]
pub enum ScriptStep {
    /// Takes a step on a stream.
    Take { stream: u32, step: Step },
    /// Shows where a stream stands.
    State { stream: u32 },
    /// Shows the rows of the target.
    Dump,
}

/// Why a script isn't read.
#[derive(Clone, Copy, Debug, PartialEq, Eq, Error)]
pub enum ScriptFault {
    /// 120: the line of this number, from 1, is no step; skipped lines count.
    #[error("line {0} is no step")]
    BadLine(usize),
    /// A growth of memory was refused.
    #[error("out of memory")]
    Memory,
}

impl From<AllocError> for ScriptFault {
    ghost from_gives = { λ _ fault. fault ≡ Memory };

    fn from(_fault: AllocError) -> ScriptFault {
        ScriptFault::Memory
    }
}

impl<T: Drop> From<AllocFailed<T>> for ScriptFault {
    ghost from_gives = { λ _ fault. fault ≡ Memory };

    fn from(_fault: AllocFailed<T>) -> ScriptFault {
        ScriptFault::Memory
    }
}

/// Whether a line is no step, and isn't skipped.
fn is_bad(text: &[u8]) -> bool
    ensures { result ≡ is_bad (line_of (without_cr text.now)) }
{
    match line_of(without_cr(text)) {
        Line::Bad => true,
        Line::Skipped => false,
        Line::Step(_) => false,
    }
}

/// The number of the first bad line, from 1, if there is one. Takes no memory.
fn first_bad(script: &[u8]) -> Option<usize>
    ensures { result ≡ bad_line_of (script_steps script.now) }
{
    let mut text = script;
    let mut number = 1;
    loop {
        let (line, rest) = first_line(text);
        if is_bad(line) {
            return Some(number);
        }
        let Some(rest) = rest else {
            return None;
        };
        text = rest;
        number += 1;
    }
}

/// Puts the step of a line behind others, if it has one; the line's number is for its refusal.
fn put_found(steps: &mut Vec<ScriptStep>, found: Line, number: usize) -> Result<(), ScriptFault>
    ensures put { OnOk result ((others : Result (List ScriptStep) ℕ) → steps_before steps.old.items (steps_then number found others) ≡ steps_before steps.new.items others) }
    ensures refused { IfErr result (λ fault. (others : Result (List ScriptStep) ℕ) → RefusesScript fault (steps_before steps.old.items (steps_then number found others))) }
{
    match found {
        Line::Skipped => Ok(()),
        Line::Step(step) => {
            steps.push(step)?;
            Ok(())
        }
        Line::Bad => Err(ScriptFault::BadLine(number)),
    }
}

/// The steps of a script, or its first bad line, unless memory runs out before that.
fn all_steps(alloc: Global, script: &[u8]) -> Result<Vec<ScriptStep>, ScriptFault>
    ensures steps { IfOk result (λ steps. script_steps script.now ≡ Ok steps.items) }
    ensures refused { IfErr result (λ fault. RefusesScript fault (script_steps script.now)) }
{
    let mut steps = Vec::new(alloc);
    let mut text = script;
    let mut number = 1;
    loop {
        let (line, rest) = first_line(text);
        put_found(&mut steps, line_of(without_cr(line)), number)?;
        let Some(rest) = rest else {
            return Ok(steps);
        };
        text = rest;
        number += 1;
    }
}

/// The steps of a script, one a line: `offer S N`, `advance S`, `open S N`, `copy S C`, `close S`,
/// `restart S`, `state S` or `dump`, S a stream, N a group and C how many rows. Words are parted by
/// blanks or tabs, a CR at the end of a line is dropped first, empty lines and those that begin with
/// `#` are skipped, and numbers are digits, at most 2^32 - 1.
///
/// The whole script is read first: of the lines that are none of these the first is refused, whatever
/// memory there is. Any other error is want of memory.
pub fn read_script(alloc: Global, script: &[u8]) -> Result<Vec<ScriptStep>, ScriptFault>
    ensures steps { IfOk result (λ steps. script_steps script.now ≡ Ok steps.items) }
    ensures refused { IfErr result (λ fault. RefusesScript fault (script_steps script.now)) }
    // A bad line is found without memory.
    ensures memory { result ≡ Err ScriptFault.Memory → IsOk (script_steps script.now) }
{
    match first_bad(script) {
        Some(line) => Err(ScriptFault::BadLine(line)),
        None => all_steps(alloc, script),
    }
}
