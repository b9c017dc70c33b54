// Texts written into lent room.
#![tactic(auto)]

ghost use Rattle.std.specs.Prelude.{◌+◌, ◌≤◌, length};
ghost use Rattle.room.specs.Room.{Wrote};

// What stands between words.
pub const BLANK: [u8; 1] = *b" ";

// A text, from a place of the room on; the place behind it. Room and place stay two: a fact beside a `&mut` can be no ghost field.
pub fn put(room: &mut [u8], at: usize, text: &[u8]) -> usize
    requires { at + length text.now ≤ length room.old }
    ensures { Wrote text.now room.old room.new at result }
{
    // No copy_from_slice: it asks for memmove, and the archive needs memcpy and memset alone.
    for (i, byte) in text.iter().enumerate() {
        room[at + i] = *byte;
    }
    at + text.len()
}
