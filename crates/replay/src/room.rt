// Room for an input, or for a memory.
ghost use Rattle.std.specs.Prelude.{◌≡◌, length};
ghost use Rattle.replay.specs.Text.{empty_room};

// Room for more than any job: one has at most 61,440 bytes, and a longer input is refused.
pub const LARGE_BYTES: usize = 65536;

// As a result it has its length by type, and no proof counts it.
#[tactic(auto, unfolding(crate::specs::Text::empty_room))]
pub fn large_buffer() -> [u8; LARGE_BYTES]
    ensures zeros { result ≡ empty_room }
    ensures long { 65536 ≡ length result }
{
    [0; LARGE_BYTES]
}
