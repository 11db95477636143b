//! The body of a table map.

ghost use Rattle.std.specs.Prelude.{◌≡◌};
ghost use Rattle.list_laws.specs.Outcome.{Gives};
ghost use Rattle.log_tables.specs.TableMap.{name_at, map_at, map_value};

use crate::fault::TableFault;
use crate::part::{counted_of, front_of};
use log_events::{Size, number_at};

/// Which table a number stands for in the events behind it, and what its columns are. Its bytes are slices of
/// the event's body.
#[derive(Clone, Copy, Debug, PartialEq, Eq)]
pub struct TableMap<'b> {
    /// the table's number
    pub table: u64,
    pub schema: &'b [u8],
    pub name: &'b [u8],
    /// the type of each column
    pub types: &'b [u8],
    /// what the types need beside them, one column behind another
    pub metadata: &'b [u8],
    /// what a server may tell beyond it: parts, each with its kind
    pub extra: &'b [u8],
}

/// A name: its size in a byte, the name and 00; and what stands behind it.
#[tactic(auto, unfolding(crate::specs::TableMap::name_at))]
fn name_of(bytes: &[u8]) -> Result<(&[u8], &[u8]), TableFault>
    ensures { Gives (λ x. (x.0.now, x.1.now)) result (name_at bytes.now) }
{
    let (count, behind) = front_of(bytes, 1)?;
    let (name, rest) = front_of(behind, number_at(count, 0, Size::One))?;
    let (end, others) = front_of(rest, 1)?;
    if number_at(end, 0, Size::One) != 0 {
        return Err(TableFault::CutBody);
    }
    Ok((name, others))
}

/// The table map of an event's body. Takes no memory.
#[tactic(auto, unfolding(crate::specs::TableMap::map_at))]
pub fn map_of(body: &[u8]) -> Result<TableMap<'_>, TableFault>
    ensures { Gives map_value result (map_at body.now) }
{
    let (head, behind) = front_of(body, 8)?;
    let (schema, behind_schema) = name_of(behind)?;
    let (name, behind_name) = name_of(behind_schema)?;
    let (types, behind_types) = counted_of(behind_name)?;
    let (metadata, behind_metadata) = counted_of(behind_types)?;
    let nulls = (types.len() as u64).div_ceil(8);
    let (_, extra) = front_of(behind_metadata, nulls)?;
    Ok(TableMap {
        table: number_at(head, 0, Size::Six),
        schema,
        name,
        types,
        metadata,
        extra,
    })
}
