// What the device counts, passed and returned by value.
ghost use Rattle.std.specs.Prelude.{◌≡◌, ◌≤◌, length, sum};
ghost use Rattle.command.specs.Outcome.{outcome_number};
ghost use Rattle.state.specs.Counts.{no_counts, counted, balanced};

use crate::plus_one::plus_one_at;
use command::outcome::{Outcome, number};

#[derive(Clone, Copy)]
pub struct Counts {
    // The commands that each ring has taken.
    pub commands: [u32; 4],
    // The commands that had each outcome.
    pub outcomes: [u32; 15],
}

impl Counts {
    pub fn none() -> Self
        ensures { result ≡ no_counts }
    {
        Counts {
            commands: [0; 4],
            outcomes: [0; 15],
        }
    }

    // A command of ring q has had this outcome.
    #[tactic(auto, unfolding(crate::specs::Counts::counted))]
    pub fn counted(self, q: u32, outcome: Outcome) -> Self
        ensures { result ≡ counted self q (outcome_number outcome) }
    {
        let mut commands = self.commands;
        let mut outcomes = self.outcomes;
        plus_one_at(&mut commands, q as usize);
        plus_one_at(&mut outcomes, number(outcome) as usize);
        Counts { commands, outcomes }
    }

    // Whether the two sums agree modulo 2^32.
    #[tactic(auto, unfolding(crate::specs::Counts::balanced))]
    pub fn balanced(self) -> bool
        ensures { result ≡ balanced self }
    {
        let commands = total(&self.commands);
        let outcomes = total(&self.outcomes);
        commands % 0x1_0000_0000 == outcomes % 0x1_0000_0000
    }
}

// Few enough for 64 bits: at most fifteen.
fn total(counts: &[u32]) -> u64
    requires { length counts.now ≤ 15 }
    ensures { result ≡ sum counts.now }
{
    counts.iter().map(|&n| u64::from(n)).sum()
}
