//! Rules of a stream to the decisions of its plan.

ghost use Rattle.std.specs.Prelude.{◌≡◌, length, List, Ok};
ghost use Rattle.filter_rule.specs.Faults.{GivesOrFails};
ghost use Rattle.filter_rule.specs.Reading.{rule_over, undecided, decisions_of};
ghost use Rattle.filter_rule.specs.declared.decision.Decision.{Decision};

use crate::decide::decide_each;
use crate::decision::Decision;
use crate::document::RuleText;
use crate::fault::PlanFault;
use crate::rule::{Place, form_of};
use crate::table::Table;
use std::alloc::Global;

/// No table is decided yet.
fn undecided(alloc: Global, tables: &[Table]) -> Result<Vec<Decision>, PlanFault>
    ensures { GivesOrFails {Y = List Decision} (λ v. v.items) result (Ok (undecided tables.now)) }
{
    let mut decisions = Vec::new(alloc);
    for _table in tables {
        decisions.push(Decision::NoRule)?;
    }
    Ok(decisions)
}

/// One rule of a stream.
fn take_rule(
    alloc: Global,
    place: Place,
    rule: &RuleText<'_>,
    tables: &[Table],
    decisions: &mut [Decision],
) -> Result<(), PlanFault>
    requires { length decisions.old ≡ length tables.now }
    ensures decided { GivesOrFails (λ _. decisions.new) result (rule_over place.stream place.rule tables.now rule.now decisions.old) }
    ensures count { length decisions.new ≡ length decisions.old }
{
    let form = form_of(alloc, place, rule)?;
    decide_each(alloc, place, &form, tables, decisions)
}

/// The decisions of a stream's rules, the first rule that matches a table counting.
pub(crate) fn decisions_of(
    alloc: Global,
    stream: usize,
    tables: &[Table],
    rules: &[RuleText<'_>],
) -> Result<Vec<Decision>, PlanFault>
    ensures { GivesOrFails (λ v. v.items) result (decisions_of stream tables.now rules.now) }
{
    let mut decisions = undecided(alloc, tables)?;
    for n in 0..rules.len() {
        let place = Place { stream, rule: n };
        take_rule(alloc, place, &rules[n], tables, &mut decisions)?;
    }
    Ok(decisions)
}
