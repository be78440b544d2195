// The protocol's edition, and what is chosen when a device is made.
ghost use Rattle.std.specs.Prelude.{◌≡◌};
ghost use Rattle.state.specs.Edition.{edition_number, edition_of, first_of};

#[derive(Clone, Copy, Debug, PartialEq, Eq)]
pub enum Edition {
    One,
    Two,
}

impl From<Edition> for u32 {
    ghost from_gives = { λ edition n. n ≡ edition_number edition };

    fn from(edition: Edition) -> u32 {
        match edition {
            Edition::One => 1,
            Edition::Two => 2,
        }
    }
}

// Edition 2 comes with one starting number for all slots.
#[derive(Clone, Copy, Debug, PartialEq, Eq)]
pub enum Start {
    Edition1,
    Edition2(u32),
}

impl Start {
    pub fn edition(self) -> Edition
        ensures { result ≡ edition_of self }
    {
        match self {
            Start::Edition1 => Edition::One,
            Start::Edition2(_) => Edition::Two,
        }
    }

    // The number that every slot of a fresh device holds.
    pub fn first(self) -> u32
        ensures { result ≡ first_of self }
    {
        match self {
            Start::Edition1 => 0,
            Start::Edition2(first) => first,
        }
    }
}
