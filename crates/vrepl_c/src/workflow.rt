//! Workflows, and what their plans say of rows.

ghost use Rattle.std.specs.Prelude.{◌≡◌, ◌<◌, length, map, IfOk};
ghost use Rattle.std.specs.Arc.{arc_value};
ghost use Rattle.filter_rule.specs.PlanValue.{columns_of};
ghost use Rattle.vrepl_c.specs.Answer.{Answers, Gives};
ghost use Rattle.vrepl_c.specs.Workflows.{all_plans, cells_of, keyed, of_row, passing, plan_of, table_of};

use crate::room::MEMORY;
use crate::text::text_of;
use filter_rule::Plan;
use row_view::RowView;
use std::alloc::Global;
use std::sync::Arc;

/// The number of a stream that the workflow hasn't.
const NO_STREAM: u32 = 115;
/// The number of a table that isn't the workflow's.
const FIELDS_DIFFER: u32 = 85;
/// The number of a row of another width.
const ROW_WIDTH: u32 = 87;

/// The plans of a workflow, one a stream, or the number of its refusal.
#[tactic(auto, using(crate::proofs::Plans::workflow_refused))]
pub(crate) fn all_plans(alloc: Global, workflow: &[u8]) -> Result<Vec<Arc<Plan>>, u32>
    ensures { Gives (λ plans. map arc_value plans.items) result (all_plans workflow.now) }
{
    match Plan::read_all(alloc, workflow) {
        Ok(plans) => Ok(plans),
        Err(fault) => Err(u32::from(fault.number())),
    }
}

/// The plan of a stream, by its number from 0.
#[tactic(auto, using(crate::proofs::Plans::plan_at))]
pub(crate) fn plan_of(alloc: Global, workflow: &[u8], stream: usize) -> Result<Arc<Plan>, u32>
    ensures { Gives arc_value result (plan_of workflow.now stream) }
{
    let plans = all_plans(alloc, workflow)?;
    match plans.get(stream) {
        None => Err(NO_STREAM),
        Some(plan) => match Arc::clone(plan) {
            Ok(plan) => Ok(plan),
            Err(_) => Err(MEMORY),
        },
    }
}

/// The number of a table.
pub(crate) fn table_of(plan: &Plan, name: &[u8]) -> Result<u8, u32>
    ensures number { Gives (λ t. t) result (table_of plan.now name.now) }
    ensures within { IfOk result (λ t. t < length plan.now.tables) }
{
    let Some(name) = text_of(name) else {
        return Err(FIELDS_DIFFER);
    };
    match plan.table(name) {
        Some(t) => Ok(t),
        None => Err(FIELDS_DIFFER),
    }
}

/// A row of a table, which has as many columns as that.
pub(crate) fn row_of<'b>(plan: &Plan, t: u8, message: &'b [u8]) -> Result<RowView<'b>, u32>
    requires { t < length plan.now.tables }
    ensures cells { Gives (λ row. row) result (cells_of plan.now t message.now) }
    ensures width { IfOk result (λ row. length row ≡ length (columns_of plan.now t)) }
{
    match RowView::read(message) {
        Err(fault) => Err(u32::from(fault.number())),
        Ok(row) if row.len() != plan.columns(t).len() => Err(ROW_WIDTH),
        Ok(row) => Ok(row),
    }
}

/// Whether a row of a stream's table passes the stream's filter.
fn passes(
    alloc: Global,
    workflow: &[u8],
    stream: usize,
    table: &[u8],
    message: &[u8],
) -> Result<bool, u32>
    ensures { Gives (λ passes. passes) result (of_row passing workflow.now stream table.now message.now) }
{
    let plan = plan_of(alloc, workflow, stream)?;
    let t = table_of(&plan, table)?;
    let row = row_of(&plan, t, message)?;
    match plan.passes(t, &row.bytes()) {
        Ok(passes) => Ok(passes),
        Err(fault) => Err(u32::from(fault.number())),
    }
}

/// How many streams a workflow has, where it is read.
#[unsafe(no_mangle)]
pub extern "C" fn vrepl_workflow(alloc: Global, workflow: &[u8], streams: &mut usize) -> u32
    ensures { Answers (λ plans. streams.new ≡ length plans) result (all_plans workflow.now) }
{
    match all_plans(alloc, workflow) {
        Ok(plans) => {
            *streams = plans.len();
            0
        }
        Err(number) => number,
    }
}

/// Whether a row of a stream's table, as a Row message, passes the stream's filter.
#[unsafe(no_mangle)]
pub extern "C" fn vrepl_row_passes(
    alloc: Global,
    workflow: &[u8],
    stream: usize,
    table: &[u8],
    row: &[u8],
    passes: &mut bool,
) -> u32
    ensures { Answers (λ is. passes.new ≡ is) result (of_row passing workflow.now stream table.now row.now) }
{
    match self::passes(alloc, workflow, stream, table, row) {
        Ok(is) => {
            *passes = is;
            0
        }
        Err(number) => number,
    }
}
