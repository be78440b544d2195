// The products of the lanes of two words, each kept to the lane's width.
ghost use Rattle.std.specs.Prelude.{◌≡◌, ◌/◌, ◌<◌, ◌≤◌};
ghost use Rattle.words.specs.Arithmetic.{product};
ghost use Rattle.words.specs.Lanes.{lane, lanewise};

// The product of the lanes `i`, of `BITS` bits.
fn product_at<const BITS: u32>(a: u32, b: u32, i: u32) -> u32
    requires { (0 < BITS) × (BITS ≤ 16) × (i < 32 / BITS) }
    ensures { result ≡ product BITS (lane BITS i a) (lane BITS i b) }
{
    let size = 1 << BITS;
    let place = BITS * i;
    (a >> place) % size * ((b >> place) % size) % size
}

// The width is fixed at each call, so that the loop is laid out in full.
#[tactic(auto, unfolding(crate::specs::Lanes::lanewise))]
pub fn products<const BITS: u32>(a: u32, b: u32) -> u32
    requires { (0 < BITS) × (BITS ≤ 16) }
    ensures { result ≡ lanewise (product BITS) BITS (32 / BITS) a b }
{
    let mut word = 0;
    for i in 0..32 / BITS {
        word += product_at::<BITS>(a, b, i) << (BITS * i);
    }
    word
}
