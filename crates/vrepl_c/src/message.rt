//! The messages of a feed, one at a time.

ghost use Rattle.std.specs.Prelude.{◌≡◌, ◌≢◌, IsErr};
ghost use Rattle.proto_wire.specs.Field.{sized_at};
ghost use Rattle.vrepl_c.specs.Message.{StandsAt};

use proto_wire::varint_of;

/// The number of a message that is cut short, or has no length.
const CUT_MESSAGE: u32 = 81;

/// Where the message at the front of some bytes stands in them, behind its length: its first byte and how many it has.
/// The next one stands behind it. Refused is what is cut short, and so are no bytes. Takes no memory.
#[unsafe(no_mangle)]
#[tactic(auto, using(crate::proofs::Messages::length_before), unfolding(proto_wire::specs::Field::sized_at))]
pub extern "C" fn vrepl_message(bytes: &[u8], start: &mut usize, length: &mut usize) -> u32
    ensures stands { result ≡ 0 → StandsAt bytes.now start.new length.new }
    ensures refused { result ≢ 0 → (result ≡ 81) × IsErr (sized_at bytes.now) }
{
    match varint_of(bytes) {
        Ok((size, after)) if size <= after.len() as u64 => {
            *start = bytes.len() - after.len();
            *length = size as usize;
            0
        }
        _ => CUT_MESSAGE,
    }
}
