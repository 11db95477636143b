//! Labels of ENUM and SET.

ghost use Rattle.std.specs.Prelude.{◌≡◌, ◌++◌, [], ◌∷◌, map, OnOk};
ghost use Rattle.list_laws.specs.Outcome.{GivesUnless};
ghost use Rattle.log_tables.specs.Fault.{meant};
ghost use Rattle.log_tables.specs.Extra.{texts_at, labels_at};

use crate::fault::{TableError, TableFault};
use crate::part::{counted_of, packed_of};
use std::alloc::{AllocError, Global};

/// One label more.
fn push_label<'b>(labels: &mut Vec<&'b [u8]>, label: &'b [u8]) -> Result<(), AllocError>
    ensures { OnOk result (map (λ b. b.now) labels.new.items ≡ map (λ b. b.now) labels.old.items ++ label.now ∷ []) }
{
    labels.push(label)?;
    Ok(())
}

/// So many labels, and what stands behind them.
fn texts_of(alloc: Global, count: u64, bytes: &[u8]) -> Result<(Vec<&[u8]>, &[u8]), TableError>
    ensures { GivesUnless meant (λ x. (map (λ b. b.now) x.0.items, x.1.now)) result (texts_at count bytes.now) }
{
    let mut labels = Vec::new(alloc);
    let mut left = bytes;
    for _ in 0..count {
        let (label, rest) = counted_of(left)?;
        push_label(&mut labels, label)?;
        left = rest;
    }
    Ok((labels, left))
}

/// The labels of the first column that has some, and those of the others.
#[tactic(auto, unfolding(crate::specs::Extra::labels_at))]
pub(crate) fn labels_of(alloc: Global, bytes: &[u8]) -> Result<(Vec<&[u8]>, &[u8]), TableError>
    ensures { GivesUnless meant (λ x. (map (λ b. b.now) x.0.items, x.1.now)) result (labels_at bytes.now) }
{
    if bytes.is_empty() {
        return Err(TableError::Fault(TableFault::OtherType));
    }
    match packed_of(bytes) {
        Ok((count, rest)) => texts_of(alloc, count, rest),
        Err(fault) => Err(TableError::Fault(fault)),
    }
}
