// The two halves of a word, and the word of two halves.
ghost use Rattle.std.specs.Prelude.{◌≡◌, [], ◌∷◌};
ghost use Rattle.words.specs.Halves.{word_half, word_of_halves};

pub fn word_of_halves(h0: u16, h1: u16) -> u32
    ensures { result ≡ word_of_halves h0 h1 }
{
    u32::from(h0) + u32::from(h1) * 0x1_0000
}

pub fn word_halves(w: u32) -> [u16; 2]
    ensures { result ≡ word_half 0 w ∷ word_half 1 w ∷ [] }
{
    [(w % 0x1_0000) as u16, (w / 0x1_0000) as u16]
}
