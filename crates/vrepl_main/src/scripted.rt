//! A workflow with its feeds, and the steps of a script behind them: what `step`, `save` and `resume` begin with.

ghost use Rattle.std.specs.Prelude.{◌≡◌, IfOk, map};
ghost use Rattle.std.specs.Arc.{arc_value};
ghost use Rattle.filter_rule.specs.WellFormed.{ArePlans};
ghost use Rattle.step_script.specs.ScriptLines.{script_steps};
ghost use Rattle.vrepl_main.specs.Given.{given_value};
ghost use Rattle.vrepl_main.specs.HexText.{feed_bytes};
ghost use Rattle.vrepl_main.specs.OpenedFeeds.{scripted_value};
ghost use Rattle.vrepl_main.specs.Reasons.{GivesOfInputs};
ghost use Rattle.vrepl_main.specs.ScriptRun.{said_steps, script_asked};

use crate::given::GivenFeed;
use crate::named_inputs::Inputs;
use crate::opened::{Opened, open_workflow};
use crate::refusal::CommandRefusal;
use std::alloc::Global;
use step_script::{ScriptFault, ScriptStep, read_script};

/// The plans of a workflow with their feeds, and the steps of a script.
#[derive(Drop)]
pub(crate) struct Scripted<'h> {
    pub(crate) opened: Opened<'h>,
    pub(crate) steps: Vec<ScriptStep>,
}

/// Opens the workflow with its feeds, whose bytes are given, and reads the whole script. The faults are found in this
/// order: those of opening, as `open_workflow` finds them, and those of the script.
pub(crate) fn open_scripted<'h>(
    alloc: Global,
    inputs: &Inputs,
    given: &'h [GivenFeed<'_>],
) -> Result<Scripted<'h>, CommandRefusal<'static>>
    requires { map given_value given.now ≡ map (λ feed. feed_bytes inputs.now.feed_form feed.items) inputs.now.feeds.items }
    ensures scripted { GivesOfInputs scripted_value result (script_asked inputs.now) }
    // There are 1 to 64 plans over the same tables.
    ensures plans { IfOk result (λ scripted. ArePlans (map arc_value scripted.opened.plans.items)) }
{
    let opened = open_workflow(alloc, &inputs.workflow, given)?;
    let steps = steps_of(alloc, &inputs.script)?;
    Ok(Scripted { opened, steps })
}

/// The steps of a script.
fn steps_of(alloc: Global, script: &[u8]) -> Result<Vec<ScriptStep>, CommandRefusal<'static>>
    ensures { GivesOfInputs (λ steps. steps.items) result (said_steps (script_steps script.now)) }
{
    match read_script(alloc, script) {
        Ok(steps) => Ok(steps),
        Err(ScriptFault::Memory) => Err(CommandRefusal::Memory),
        Err(ScriptFault::BadLine(line)) => Err(CommandRefusal::BadScript { line }),
    }
}
