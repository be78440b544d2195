// The address test.
ghost use Rattle.std.specs.Prelude.{◌≡◌, ◌+◌, ◌≤◌, OnOk};
ghost use Rattle.memory.specs.Address.{first_outside, reach_of};

// An access that is not wholly inside, and the first address that is not.
#[derive(Clone, Copy, Debug, PartialEq, Eq)]
pub struct Outside {
    pub first: u32,
}

// The first address that is not inside, of an access that is not wholly so.
#[tactic(auto, unfolding(crate::specs::Address::first_outside))]
fn first_outside(length: usize, address: u32) -> u32
    ensures { result ≡ first_outside length address }
{
    if (address as usize) < length {
        (length % 0x1_0000_0000) as u32
    } else {
        address
    }
}

// Whether `count` bytes from `address` on lie wholly in a window of `length` bytes, or the first address that does not.
#[tactic(auto, using(crate::proofs::Reach::reach_inside, crate::proofs::Reach::reach_outside))]
pub fn test(length: usize, address: u32, count: usize) -> Result<(), Outside>
    ensures reach { result ≡ reach_of length address count }
    ensures inside { OnOk result (address + count ≤ length) }
{
    if count <= length && address as usize <= length - count {
        return Ok(());
    }
    Err(Outside {
        first: first_outside(length, address),
    })
}
