//! The keyboard and the actors of records.
ghost use Rattle.std.specs.Prelude.{◌≡◌};
ghost use Rattle.inp_actors.specs.Name.{IsName};
ghost use Rattle.inp_model.specs.Description.{one_key};

use inp_actors::{ActorText, Name, Role};
use inp_caps::{Caps, CapsBuilder};
use inp_model::{EV_KEY, KEY_A};

/// The builder of a keyboard with the key A.
fn keyboard_builder() -> CapsBuilder
    ensures description { result ≡ one_key }
{
    let mut builder = CapsBuilder::new();
    builder.code(EV_KEY, KEY_A).unwrap();
    builder
}

/// A keyboard with the key A.
pub fn keyboard() -> Caps
    ensures description { result ≡ one_key }
{
    keyboard_builder().build()
}

/// A keyboard with the key A whose history has at most one step.
pub fn full_keyboard() -> Caps
    ensures description { result ≡ record one_key { log_limit = 1 } }
{
    let mut builder = keyboard_builder();
    builder.log(1).unwrap();
    builder.build()
}

/// An actor of the device with this number.
pub fn actor(name: &[u8], role: Role, device: u32) -> ActorText
    requires { IsName name.now }
    ensures role { result.role ≡ role }
    ensures device { result.device ≡ device }
{
    ActorText {
        name: Name::new(name),
        role,
        device,
    }
}
