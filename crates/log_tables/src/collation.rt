//! Collations of columns of ENUM and of SET.

ghost use Rattle.std.specs.Prelude.{◌≡◌, ◌≤◌, ◌<◌, ◌+◌, ◌^◌, IfOk, Some};
ghost use Rattle.list_laws.specs.Outcome.{Gives};
ghost use Rattle.log_tables.specs.Collation.{collations_value, collations_at, next_of_each, next_of_most, is_labelled, collation_at, comma_told};

use crate::fault::TableFault;
use crate::part::packed_of;
use log_values::{Comma, comma_of};

/// What a table map tells of the collations of the columns of ENUM and of SET that are still to come.
#[derive(Clone, Copy)]
pub(crate) struct Collations<'b> {
    /// the number of the one that most of these columns have, if one is told
    pub(crate) usual: Option<u64>,
    /// of each column that has another one its place among these and its number; or without a usual one the number of each
    pub(crate) others: &'b [u8],
    /// how many of these columns are past
    pub(crate) past: u64,
}

/// The number of a column, if one is told, and what is told of the others.
type Next<'b> = (Option<u64>, Collations<'b>);

/// What is told of the collations of all these columns: the number of each, or the usual one and the others.
#[tactic(auto, unfolding(crate::specs::Collation::collations_at))]
pub(crate) fn collations_of<'b>(
    each: &'b [u8],
    most: &'b [u8],
) -> Result<Collations<'b>, TableFault>
    ensures value { Gives collations_value result (collations_at each.now most.now) }
    ensures first { IfOk result (λ c. c.past ≡ 0) }
{
    if !each.is_empty() || most.is_empty() {
        return Ok(Collations {
            usual: None,
            others: each,
            past: 0,
        });
    }
    let (usual, others) = packed_of(most)?;
    Ok(Collations {
        usual: Some(usual),
        others,
        past: 0,
    })
}

/// The number of the next of these columns, where each is told.
fn next_of_each(others: &[u8], past: u64) -> Result<Next<'_>, TableFault>
    requires { past + 1 < 2 ^ 64 }
    ensures value { Gives (λ x. (x.0, collations_value x.1)) result (next_of_each others.now past) }
    ensures few { IfOk result (λ x. x.1.past ≡ past + 1) }
{
    let past = past + 1;
    if others.is_empty() {
        return Ok((
            None,
            Collations {
                usual: None,
                others,
                past,
            },
        ));
    }
    let (number, others) = packed_of(others)?;
    Ok((
        Some(number),
        Collations {
            usual: None,
            others,
            past,
        },
    ))
}

/// The number of the next of these columns, where most have this one.
fn next_of_most(most: u64, others: &[u8], past: u64) -> Result<Next<'_>, TableFault>
    requires { past + 1 < 2 ^ 64 }
    ensures value { Gives (λ x. (x.0, collations_value x.1)) result (next_of_most most others.now past) }
    ensures few { IfOk result (λ x. x.1.past ≡ past + 1) }
{
    let usual = Some(most);
    let behind = Collations {
        usual,
        others,
        past: past + 1,
    };
    if others.is_empty() {
        return Ok((usual, behind));
    }
    let (place, rest) = packed_of(others)?;
    if place != past {
        return Ok((usual, behind));
    }
    let (number, others) = packed_of(rest)?;
    Ok((Some(number), Collations { others, ..behind }))
}

/// Whether a type with this metadata is ENUM or SET.
pub(crate) fn is_labelled(log_type: u8, meta: u16) -> bool
    ensures { result ≡ is_labelled log_type meta }
{
    log_type == 254 && (meta % 256 == 247 || meta % 256 == 248)
}

/// The number of the next column, if it is one of these and its number is told.
pub(crate) fn collation_of(is_labelled: bool, told: Collations<'_>) -> Result<Next<'_>, TableFault>
    requires { told.past + 1 < 2 ^ 64 }
    ensures value { Gives (λ x. (x.0, collations_value x.1)) result (collation_at is_labelled (collations_value told.entry)) }
    ensures few { IfOk result (λ x. x.1.past ≤ told.entry.past + 1) }
{
    if !is_labelled {
        return Ok((None, told));
    }
    match told.usual {
        None => next_of_each(told.others, told.past),
        Some(most) => next_of_most(most, told.others, told.past),
    }
}

/// The comma of a collation that is told.
pub(crate) fn comma_told(collation: Option<u64>) -> Option<Comma>
    ensures { result ≡ comma_told collation }
{
    comma_of(collation?)
}
