//! The patch of two sets of rows as statements of SQL.

ghost use Rattle.std.specs.Prelude.{◌≡◌, IfOk};
ghost use Rattle.std.specs.List.{AllByRecursion};
ghost use Rattle.dump.specs.DumpReading.{FitsPlan};
ghost use Rattle.vdiff_patch.specs.Patch.{patch_of};
ghost use Rattle.vdiff_patch.specs.Repair.{IsRepair};
ghost use Rattle.vdiff_sql.specs.Statements.{sql_text};

use crate::statements::push_statement_at;
use dump::DumpRows;
use filter_rule::Plan;
use std::alloc::{AllocError, Global};
use vdiff_patch::{Differences, patches_repair};

/// The statements that make the tables of a schema, which have the target's rows, have the source's: in one transaction
/// and by rising key an UPDATE of the columns that differ, an INSERT or a DELETE for each key at which the two differ.
/// They are the statements of a patch, and the patch, applied to the target's rows, gives the source's. Both are rows of
/// the plan's tables. An error is want of memory.
pub fn repair_text(
    alloc: Global,
    schema: &str,
    plan: &Plan,
    source: &DumpRows,
    target: &DumpRows,
) -> Result<Vec<u8>, AllocError>
    requires source { AllByRecursion (FitsPlan plan.now) source.now }
    requires target { AllByRecursion (FitsPlan plan.now) target.now }
    ensures text { IfOk result (λ text. text.items ≡ sql_text schema.now plan.now.tables (patch_of source.now target.now)) }
    ensures repair { IsRepair source.now target.now (patch_of source.now target.now) }
{
    patches_repair(plan, source, target);
    let mut text = Vec::new(alloc);
    text.extend_from_slice(OPENING)?;
    for found in Differences::new(source, target) {
        push_statement_at(alloc, &mut text, schema, plan.tables(), &found)?;
    }
    text.extend_from_slice(b"COMMIT;\n")?;
    Ok(text)
}

/// What stands before the statements: a session in which values stand as they are, and a transaction's beginning.
const OPENING: &[u8] =
    b"SET NAMES utf8mb4, time_zone='+00:00', sql_mode='NO_AUTO_VALUE_ON_ZERO,ALLOW_INVALID_DATES', foreign_key_checks=0;\nSTART TRANSACTION;\n";
