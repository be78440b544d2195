// How many calls of each kind were made again, and how many differ.
ghost use Rattle.std.specs.Prelude.{◌≡◌};
ghost use Rattle.compare.specs.Tally.{tally_of, with_turn, judged, counted, enough_served};

use recorded::call::Seen;
use std::io;
use words::arithmetic::add;

#[derive(Drop)]
pub struct Tally {
    fresh: u32,
    served: u32,
    idle: u32,
    refused: u32,
    differ: u32,
}

impl Tally {
    pub fn none() -> Self
        ensures { result ≡ tally_of 0 0 0 0 0 }
    {
        Tally {
            fresh: 0,
            served: 0,
            idle: 0,
            refused: 0,
            differ: 0,
        }
    }

    #[tactic(auto, unfolding(crate::specs::Tally::judged))]
    fn judged(mut self, is_same: bool) -> Self
        ensures { result ≡ judged self is_same }
    {
        if is_same {
            return self;
        }
        self.differ = add(self.differ, 1);
        self
    }

    #[tactic(auto, unfolding(crate::specs::Tally::with_turn))]
    fn with_turn(mut self, status: u32) -> Self
        ensures { result ≡ with_turn self status }
    {
        match status {
            0 => self.served = add(self.served, 1),
            1 => self.idle = add(self.idle, 1),
            _ => self.refused = add(self.refused, 1),
        }
        self
    }

    #[tactic(auto, unfolding(crate::specs::Tally::counted))]
    pub fn with(mut self, seen: Seen) -> Self
        ensures { result ≡ counted self seen }
    {
        match seen {
            Seen::Fresh(is_same) => {
                self.fresh = add(self.fresh, 1);
                self.judged(is_same)
            }
            Seen::Turn(status, is_same) => self.with_turn(status).judged(is_same),
            Seen::Damaged => self.judged(false),
        }
    }

    // Whether enough turns were served: what serves nothing shows nothing.
    #[tactic(auto, unfolding(crate::specs::Tally::enough_served))]
    fn is_enough(self) -> bool
        ensures { result ≡ enough_served self }
    {
        let served = self.served as u64;
        let turns = served + self.idle as u64 + self.refused as u64;
        (1 <= served) & (turns <= 10 * served)
    }

    pub fn print(self, rt: &impl Print) -> io::Result<()> {
        print_count(rt, self.fresh, b" fresh\n")?;
        print_count(rt, self.served, b" served\n")?;
        print_count(rt, self.idle, b" idle\n")?;
        print_count(rt, self.refused, b" refused\n")?;
        print_count(rt, self.differ, b" differ\n")?;
        if !self.is_enough() {
            rt.write_all(b"too few served\n")?;
        }
        Ok(())
    }
}

fn print_count(rt: &impl Print, count: u32, what: &[u8]) -> io::Result<()> {
    rt.print(count)?;
    rt.write_all(what)
}
