// Where a dispatch stopped: the four numbers that are reported of a stop.
ghost use Rattle.std.specs.Prelude.{◌≡◌};
ghost use Rattle.kernel.specs.Site.{no_site, address_of, site_of};

use crate::dispatch::ThreadStop;
use crate::step::Stop;

#[derive(Clone, Copy, Debug, PartialEq, Eq)]
pub struct Site {
    // The first address that is not inside the window, of a load or store that reached it; else 0.
    pub address: u32,
    // Where the thread stood, in bytes from the kernel's start.
    pub place: u32,
    pub group: u32,
    pub thread: u32,
}

impl Site {
    pub fn none() -> Self
        ensures { result ≡ no_site }
    {
        Site {
            address: 0,
            place: 0,
            group: 0,
            thread: 0,
        }
    }
}

fn address_of(why: Stop) -> u32
    ensures { result ≡ address_of why }
{
    match why {
        Stop::NotListed => 0,
        Stop::OffTheKernel => 0,
        Stop::OutsideTheWindow(first) => first,
        Stop::OutOfSteps => 0,
    }
}

#[tactic(auto, unfolding(crate::specs::Site::site_of))]
pub fn site_of(ran: Result<(), ThreadStop>) -> Site
    ensures { result ≡ site_of ran }
{
    match ran {
        Ok(()) => Site::none(),
        Err(stop) => Site {
            address: address_of(stop.why),
            place: stop.place,
            group: stop.group,
            thread: stop.thread,
        },
    }
}
