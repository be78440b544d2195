// What the types of a device and of lent bytes give, as contracts. Nothing calls these functions at run time.
ghost use Rattle.std.specs.Prelude.{◌≡◌, ℕ, ◌^◌, ◌<◌, get_or};
ghost use Rattle.capi.specs.Image.{ring_words};
ghost use Rattle.capi.specs.Imaged.{Imaged};
ghost use Rattle.capi.specs.Inverse.{OfBytes};

use crate::image::ring_words;
use state::device::{Device, Ring};

// The words of a ring are an array of u32, so each is below 2^32.
fn of_every_ring(ring: Ring) -> [u32; 7]
    ensures { (result ≡ ring_words ring) × ((k : ℕ) → get_or (ring_words ring) k 0 < 2 ^ 32) }
{
    ring_words(ring)
}

// Hands the device back: what its image has, whatever the device is, is this contract.
pub fn of_every_device(d: Device) -> Device
    ensures { (result ≡ d) × Imaged d }
{
    of_every_ring(d.ring(0));
    of_every_ring(d.ring(1));
    of_every_ring(d.ring(2));
    of_every_ring(d.ring(3));
    d.by_type()
}

// The first byte, or 0: that lent bytes are bytes is this contract.
pub fn of_lent_bytes(bytes: &[u8]) -> u8
    ensures { (result ≡ get_or bytes.now 0 0) × OfBytes bytes.now }
{
    bytes.first().copied().unwrap_or(0)
}
