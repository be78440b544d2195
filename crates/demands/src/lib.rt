// What the turns of a device are known to do: theorems over the definitions that the contracts cite, and one function,
// whose contract says of every device what the theorems say of one of the right form.
#![tactic(auto)]

ghost use Rattle.std.specs.Prelude.{◌≡◌};
ghost use Rattle.demands.specs.Demanded.{Demanded};

use state::device::Device;

// Hands the device back: what is demanded of its turns, whatever it is, is this contract.
pub fn of_every_device(d: Device) -> Device
    ensures { (result ≡ d) × Demanded d }
{
    d.by_type()
}
