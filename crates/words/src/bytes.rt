// Halves and words of little-endian bytes, and a word's bytes.
ghost use Rattle.std.specs.Prelude.{◌≡◌, [], ◌∷◌};
ghost use Rattle.words.specs.Bytes.{half_of, word_of, byte_of};

pub fn half(b0: u8, b1: u8) -> u32
    ensures { result ≡ half_of b0 b1 }
{
    u32::from(u16::from_le_bytes([b0, b1]))
}

pub fn word(b0: u8, b1: u8, b2: u8, b3: u8) -> u32
    ensures { result ≡ word_of b0 b1 b2 b3 }
{
    u32::from_le_bytes([b0, b1, b2, b3])
}

pub fn word_bytes(w: u32) -> [u8; 4]
    ensures { result ≡ byte_of 0 w ∷ byte_of 1 w ∷ byte_of 2 w ∷ byte_of 3 w ∷ [] }
{
    w.to_le_bytes()
}
