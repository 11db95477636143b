//! The room of a caller, into which a text is put.

ghost use Rattle.std.specs.Prelude.{◌≡◌, length};
ghost use Rattle.vrepl_c.specs.Room.{put};

/// The number of the refusal for want of memory.
pub(crate) const MEMORY: u32 = 72;

/// Puts a text at the front of the room, if it fits, and answers its length; the room behind it, and one that is
/// too small, stays as it is.
pub(crate) fn put(text: &[u8], room: &mut [u8]) -> usize
    ensures length { result ≡ length text.now }
    ensures room { room.new ≡ put text.now room.old }
{
    if text.len() <= room.len() {
        let (front, _) = room.split_at_mut(text.len());
        front.copy_from_slice(text);
    }
    text.len()
}
