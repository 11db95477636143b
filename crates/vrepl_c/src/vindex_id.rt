//! Keyspace ids of values.

ghost use Rattle.vrepl_c.specs.Answer.{Answers};
ghost use Rattle.vrepl_c.specs.Readers.{id_under, value_of};
ghost use Rattle.vrepl_c.specs.Room.{IsPut};

use crate::room::put;
use crate::text::text_of;
use row_view::Column;
use vindex::Vindex;

/// The number of a name that no vindex has.
const UNKNOWN_VINDEX: u32 = 42;

/// Puts the keyspace id of a value, which is NULL or bytes, into the room: under a vindex by its name. Takes no
/// memory.
#[unsafe(no_mangle)]
pub extern "C" fn vrepl_vindex_id(
    vindex: &[u8],
    is_null: bool,
    value: &[u8],
    room: &mut [u8],
    length: &mut usize,
) -> u32
    ensures { Answers (λ id. IsPut id room.old room.new length.new) result (id_under vindex.now (value_of is_null value.now)) }
{
    let Some(name) = text_of(vindex) else {
        return UNKNOWN_VINDEX;
    };
    let Ok(vindex) = Vindex::parse(name) else {
        return UNKNOWN_VINDEX;
    };
    let column = if is_null {
        Column::Null
    } else {
        Column::Bytes(value)
    };
    match vindex.id(column) {
        Ok(id) => {
            *length = put(id.bytes(), room);
            0
        }
        Err(fault) => u32::from(fault.number()),
    }
}
