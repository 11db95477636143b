//! What the numbers of refusals mean.

ghost use Rattle.std.specs.Prelude.{Some};
ghost use Rattle.refusal_words.specs.Texts.{explained};
ghost use Rattle.vrepl_c.specs.Room.{IsPut};

use crate::room::put;
use refusal_words::texts::explained;

/// Puts what is said of a number into the room: nothing for a number that no refusal has. Takes no memory.
#[unsafe(no_mangle)]
pub extern "C" fn vrepl_explain(number: u64, room: &mut [u8]) -> usize
    ensures { IsPut (explained (Some number)) room.old room.new result }
{
    put(explained(Some(number)).as_bytes(), room)
}
