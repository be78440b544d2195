// The device's state.
ghost use Rattle.std.specs.Prelude.{◌≡◌, ◌<◌};
ghost use Rattle.state.specs.Device.{device_of, ByType, fresh_ring, fresh_device, empty_device, ring_of, slot_of, with_ring, with_slots, with_marker, with_counts};

use crate::counts::Counts;
use crate::edition::{Edition, Start};
use command::frame::Frame;

// The limit where none is named.
pub const DEFAULT_LIMIT: u32 = 16384;

// A ring's part of the memory.
#[derive(Clone, Copy, Debug, PartialEq, Eq)]
pub struct Window {
    pub start: u32,
    pub length: u32,
}

#[derive(Clone, Copy, Debug, PartialEq, Eq)]
pub struct Ring {
    pub window: Window,
    pub cursor: u32,
    pub frame: Option<Frame>,
}

#[derive(Clone, Copy)]
pub struct Device {
    pub rings: [Ring; 4],
    pub slots: [u32; 64],
    pub marker: u32,
    // The steps that a thread of a kernel may take.
    pub limit: u32,
    pub counts: Counts,
    pub edition: Edition,
}

fn fresh_ring(window: Window) -> Ring
    ensures { result ≡ fresh_ring window }
{
    Ring {
        window,
        cursor: 0,
        frame: None,
    }
}

impl Device {
    // The one place where a device is made; elsewhere a copy is changed field by field.
    pub fn of(
        rings: [Ring; 4],
        slots: [u32; 64],
        marker: u32,
        limit: u32,
        counts: Counts,
        edition: Edition,
    ) -> Self
        ensures { result ≡ device_of rings slots marker limit counts edition }
    {
        Device {
            rings,
            slots,
            marker,
            limit,
            counts,
            edition,
        }
    }

    // Hands the device back: that every device has four rings, 64 slots, four and fifteen counts, and numbers of 32 bits is
    // this contract.
    #[tactic(auto, unfolding(crate::specs::Device::SlotsFit, crate::specs::Device::slot_of, crate::specs::Device::commands_of, crate::specs::Device::outcomes_of))]
    pub fn by_type(self) -> Self
        ensures { (result ≡ self) × ByType self }
    {
        self
    }

    #[tactic(auto, unfolding(crate::specs::Device::fresh_device))]
    pub fn fresh(windows: [Window; 4], limit: u32, start: Start) -> Self
        ensures { result ≡ fresh_device windows limit start }
    {
        let rings = [
            fresh_ring(windows[0]),
            fresh_ring(windows[1]),
            fresh_ring(windows[2]),
            fresh_ring(windows[3]),
        ];
        let slots = [start.first(); 64];
        Device::of(rings, slots, 0, limit, Counts::none(), start.edition())
    }

    // What a refused making hands out.
    #[tactic(auto, unfolding(crate::specs::Device::empty_device))]
    pub fn empty() -> Self
        ensures { result ≡ empty_device }
    {
        let window = Window {
            start: 0,
            length: 0,
        };
        Device::fresh([window; 4], DEFAULT_LIMIT, Start::Edition1)
    }

    #[tactic(auto, unfolding(crate::specs::Device::ring_of))]
    pub fn ring(self, q: u32) -> Ring
        requires { q < 4 }
        ensures { result ≡ ring_of self q }
    {
        let at = q as usize;
        self.rings[at]
    }

    #[tactic(auto, unfolding(crate::specs::Device::slot_of))]
    pub fn slot(self, n: u8) -> u32
        ensures { result ≡ slot_of self n }
    {
        self.slots.get(n as usize).copied().unwrap_or(0)
    }

    #[tactic(auto, unfolding(crate::specs::Device::with_ring))]
    pub fn with_ring(mut self, q: u32, ring: Ring) -> Self
        requires { q < 4 }
        ensures { result ≡ with_ring self q ring }
    {
        let at = q as usize;
        self.rings[at] = ring;
        self
    }

    #[tactic(auto, unfolding(crate::specs::Device::with_slots))]
    pub fn with_slots(mut self, slots: [u32; 64]) -> Self
        ensures { result ≡ with_slots self slots }
    {
        self.slots = slots;
        self
    }

    #[tactic(auto, unfolding(crate::specs::Device::with_marker))]
    pub fn with_marker(mut self, marker: u32) -> Self
        ensures { result ≡ with_marker self marker }
    {
        self.marker = marker;
        self
    }

    #[tactic(auto, unfolding(crate::specs::Device::with_counts))]
    pub fn with_counts(mut self, counts: Counts) -> Self
        ensures { result ≡ with_counts self counts }
    {
        self.counts = counts;
        self
    }
}
