//! Filter rules.

ghost use Rattle.std.specs.Prelude.{◌≡◌};
ghost use Rattle.filter_text.specs.FilterText.{filter_of};
ghost use Rattle.filter_text.specs.Views.{meaning, rows_said};
ghost use Rattle.filter_rule.specs.Faults.{GivesOrFails};
ghost use Rattle.filter_rule.specs.Private.RuleViews.{form_seen};
ghost use Rattle.filter_rule.specs.Rules.{or_bad, form_of, may_say};

use crate::document::RuleText;
use crate::fault::PlanFault;
use crate::further::may_name;
use filter_text::{ColumnList, Filter, FilterFault, Rows, Scope};
use std::alloc::Global;

/// Where a rule stands: its stream and its number there, from 0.
#[derive(Clone, Copy, Debug, PartialEq, Eq)]
pub(crate) struct Place {
    pub(crate) stream: usize,
    pub(crate) rule: usize,
}

/// A rule that has a lawful form: the tables that it is for, the columns that its filter lists, `None`
/// where it keeps all, and the rows that it names.
#[derive(Drop)]
pub(crate) struct RuleForm<'v> {
    pub(crate) scope: Scope<'v>,
    pub(crate) columns: Option<ColumnList<'v>>,
    pub(crate) rows: Rows<'v>,
}

impl Place {
    /// The refusal of the rule.
    pub(crate) fn fault(self) -> PlanFault
        ensures { result ≡ PlanFault.BadRule self.stream self.rule }
    {
        PlanFault::BadRule {
            stream: self.stream,
            rule: self.rule,
        }
    }

    fn or_bad<T>(self, found: Option<T>) -> Result<T, PlanFault>
        ensures { GivesOrFails (λ x. x) result (or_bad self.stream self.rule found) }
    {
        match found {
            Some(value) => Ok(value),
            None => Err(self.fault()),
        }
    }

    /// What the rule's filter says.
    fn filter(self, alloc: Global, text: &str) -> Result<Filter<'_>, PlanFault>
        ensures { GivesOrFails meaning result (or_bad self.stream self.rule (filter_of text.now)) }
    {
        match Filter::parse(alloc, text) {
            Ok(filter) => Ok(filter),
            Err(FilterFault::Memory) => Err(PlanFault::Memory),
            Err(FilterFault::BadForm) => Err(self.fault()),
        }
    }
}

/// Whether the rows are under a vindex that may be named, if they are under one that the rule names.
fn may_say(hash: bool, rows: &Rows<'_>) -> bool
    ensures { result ≡ may_say hash (rows_said rows.now) }
{
    match rows {
        Rows::EveryRow | Rows::OwnVindex { .. } => true,
        Rows::Named { vindex, .. } => may_name(hash, *vindex),
    }
}

/// The form of a rule.
#[tactic(auto, unfolding(crate::specs::Rules::form_of))]
pub(crate) fn form_of<'v>(
    alloc: Global,
    place: Place,
    rule: &RuleText<'v>,
) -> Result<RuleForm<'v>, PlanFault>
    ensures { GivesOrFails form_seen result (form_of place.stream place.rule rule.now) }
{
    let scope = place.or_bad(Scope::parse(rule.matches))?;
    let Filter {
        table,
        columns,
        rows,
    } = place.filter(alloc, rule.filter)?;
    if !(scope.agrees(table) && may_say(rule.uses_hash, &rows)) {
        return Err(place.fault());
    }
    Ok(RuleForm {
        scope,
        columns,
        rows,
    })
}
