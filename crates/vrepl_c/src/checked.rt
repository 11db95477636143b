//! What is told of a workflow.

ghost use Rattle.std.specs.Prelude.{◌≡◌, [], ◌++◌, Ok, IfOk, IfSome, codes, decimal, unwrap_or};
ghost use Rattle.workflow_check.specs.Counts.{fault_text};
ghost use Rattle.std.specs.Result.{result_map_both};
ghost use Rattle.std.specs.String.{string_bytes};
ghost use Rattle.filter_rule.specs.Faults.{definition_fault_of};
ghost use Rattle.workflow_check.specs.File.{note_lines, notes_of, rules_text};
ghost use Rattle.vrepl_c.specs.Answer.{Answers, Gives};
ghost use Rattle.vrepl_c.specs.Checked.{column_text, place_of, rule_text, told_of};
ghost use Rattle.vrepl_c.specs.Room.{IsPut};
ghost use Rattle.vrepl_c.specs.Workflows.{all_plans};

use crate::room::{MEMORY, put};
use crate::workflow::all_plans;
use filter_rule::{Plan, PlanFault};
use std::alloc::{AllocError, Global};
use std::marker::Model;
use workflow_check::{fault_text, note_lines, notes_of, rules_of};

/// The number of a refusal, 0 for none, and what is told.
#[derive(Drop)]
struct Told {
    refused: u32,
    text: String,
}

impl Model for Told {
    ghost use Rattle.std.specs.String.{string_bytes};
    ghost use Rattle.vrepl_c.specs.Checked as said;

    ghost Value = { said.Told };

    ghost view = { λ t. record { refused = t.refused; text = string_bytes t.text } };
}

/// A number in decimal digits.
fn number_text(alloc: Global, number: usize) -> Result<String, AllocError>
    ensures { IfOk result (λ text. string_bytes text ≡ decimal number) }
{
    format!(in alloc; "{number}")
}

/// A column of a table.
fn column_text(alloc: Global, table: &str, column: &str) -> Result<String, AllocError>
    ensures { IfOk result (λ text. string_bytes text ≡ column_text table.now column.now) }
{
    let mut text = String::from_str(alloc, "table ")?;
    text.push_str(table)?;
    text.push_str(" column ")?;
    text.push_str(column)?;
    Ok(text)
}

/// A rule of a stream.
fn rule_text(alloc: Global, stream: usize, rule: usize) -> Result<String, AllocError>
    ensures { IfOk result (λ text. string_bytes text ≡ rule_text stream rule) }
{
    let stream = number_text(alloc, stream)?;
    let rule = number_text(alloc, rule)?;
    let mut text = String::from_str(alloc, "stream ")?;
    text.push_str(&stream)?;
    text.push_str(" rule ")?;
    text.push_str(&rule)?;
    Ok(text)
}

/// A table.
fn table_text(alloc: Global, table: &str) -> Result<String, AllocError>
    ensures { IfOk result (λ text. string_bytes text ≡ codes "table " ++ table.now) }
{
    format!(in alloc; "table {table}")
}

/// Where a workflow hasn't the shape of one or is past a limit.
fn shape_text(alloc: Global, workflow: &[u8]) -> Result<String, AllocError>
    ensures { IfOk result (λ text. string_bytes text ≡ unwrap_or (fault_text workflow.now) []) }
{
    match fault_text(alloc, workflow)? {
        Some(text) => Ok(text),
        None => Ok(String::new(alloc)),
    }
}

/// Where a workflow's fault is.
fn place_of(alloc: Global, workflow: &[u8], fault: &PlanFault) -> Result<String, AllocError>
    ensures { IfOk result (λ text. IfSome (definition_fault_of fault.now) (λ is. string_bytes text ≡ place_of workflow.now is)) }
{
    match fault {
        PlanFault::Json | PlanFault::Memory => Ok(String::new(alloc)),
        PlanFault::Shape | PlanFault::Limit => shape_text(alloc, workflow),
        PlanFault::NoSuchColumn { table, column } | PlanFault::KeyType { table, column } => {
            column_text(alloc, table, column)
        }
        PlanFault::BadRule { stream, rule } => rule_text(alloc, *stream, *rule),
        PlanFault::ColumnsDiffer { table } => table_text(alloc, table),
    }
}

/// What is warned of a workflow that is read.
fn warnings(alloc: Global, workflow: &[u8]) -> Result<String, AllocError>
    ensures { IfOk result (λ text. string_bytes text ≡ note_lines (notes_of workflow.now)) }
{
    let notes = notes_of(alloc, workflow)?;
    note_lines(alloc, &notes)
}

/// What is told of a workflow.
#[tactic(auto, using(crate::proofs::Plans::told_by_fault))]
fn told_of(alloc: Global, workflow: &[u8]) -> Result<Told, AllocError>
    ensures { IfOk result (λ told. told ≡ told_of workflow.now) }
{
    match Plan::read_all(alloc, workflow) {
        Ok(_) => {
            let text = warnings(alloc, workflow)?;
            Ok(Told { refused: 0, text })
        }
        Err(fault) => {
            let refused = u32::from(fault.number());
            if refused == MEMORY {
                return Err(AllocError);
            }
            let text = place_of(alloc, workflow, &fault)?;
            Ok(Told { refused, text })
        }
    }
}

/// The rows of each table that each stream passes, in words, or the number of the workflow's refusal.
fn rules_under(alloc: Global, workflow: &[u8]) -> Result<String, u32>
    ensures { Gives string_bytes result (result_map_both (λ plans. rules_text workflow.now) (λ number. number) (all_plans workflow.now)) }
{
    let _plans = all_plans(alloc, workflow)?;
    match rules_of(alloc, workflow) {
        Ok(text) => Ok(text),
        Err(_) => Err(MEMORY),
    }
}

/// Says by which number a workflow is refused, 0 for none, and puts into the room where its fault is, or what is
/// warned of one that is read.
#[unsafe(no_mangle)]
pub extern "C" fn vrepl_workflow_check(
    alloc: Global,
    workflow: &[u8],
    refused: &mut u32,
    room: &mut [u8],
    length: &mut usize,
) -> u32
    ensures number { Answers (λ told. refused.new ≡ told.refused) result (Ok (told_of workflow.now)) }
    ensures text { Answers (λ told. IsPut told.text room.old room.new length.new) result (Ok (told_of workflow.now)) }
{
    match told_of(alloc, workflow) {
        Ok(told) => {
            *refused = told.refused;
            *length = put(told.text.as_bytes(), room);
            0
        }
        Err(_) => MEMORY,
    }
}

/// Puts the rows of each table that each stream passes into the room, in words, a line each.
#[unsafe(no_mangle)]
pub extern "C" fn vrepl_workflow_rules(
    alloc: Global,
    workflow: &[u8],
    room: &mut [u8],
    length: &mut usize,
) -> u32
    ensures { Answers (λ plans. IsPut (rules_text workflow.now) room.old room.new length.new) result (all_plans workflow.now) }
{
    match rules_under(alloc, workflow) {
        Ok(text) => {
            *length = put(text.as_bytes(), room);
            0
        }
        Err(number) => number,
    }
}
