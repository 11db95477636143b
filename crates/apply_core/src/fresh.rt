//! The streams of a board of which nothing is read.

ghost use Rattle.std.specs.Prelude.{◌≡◌, ◌↔◌, map, IsTrue, IfOk};
ghost use Rattle.std.specs.Arc.{arc_value};
ghost use Rattle.std.specs.List.{AllByRecursion};
ghost use Rattle.filter_rule.specs.WellFormed.{IsPlan};
ghost use Rattle.board_laws.specs.Lawful.{start_of};
ghost use Rattle.apply_core.specs.Fresh.{HaveSameTables};

use crate::stream::Stream;
use filter_rule::Plan;
use std::alloc::{AllocError, Global};
use std::sync::Arc;

/// All plans are well-formed, as each plan is: a fact for contracts. Takes no memory.
pub(crate) fn know_plans(plans: &[Arc<Plan>])
    ensures { AllByRecursion IsPlan (map arc_value plans.now) }
{
    for plan in plans {
        plan.tables();
    }
}

/// Whether all plans have the same tables. Takes no memory.
pub(crate) fn have_same_tables(plans: &[Arc<Plan>]) -> bool
    ensures { IsTrue result ↔ HaveSameTables (map arc_value plans.now) }
{
    let Some(first) = plans.first() else {
        return true;
    };
    for plan in plans {
        if !plan.same_tables(first) {
            return false;
        }
    }
    true
}

/// A stream for each plan.
pub(crate) fn fresh_streams<'h>(
    alloc: Global,
    plans: Vec<Arc<Plan>>,
) -> Result<Vec<Stream<'h>>, AllocError>
    ensures { IfOk result (λ streams. streams.items ≡ map start_of (map arc_value plans.items)) }
{
    let mut streams = Vec::with_capacity(alloc, plans.len())?;
    for plan in plans {
        streams.push(Stream::new(alloc, plan))?;
    }
    Ok(streams)
}
