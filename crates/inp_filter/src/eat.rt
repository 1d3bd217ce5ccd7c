//! A filter that eats every event of a type and code.
ghost use Rattle.std.specs.Prelude.{◌≡◌, ◌&&◌, nat_eq};

use inp_model::Event;

/// It eats every event of this type and code.
#[derive(Debug, Drop)]
pub struct Eat {
    pub kind: u16,
    pub code: u16,
}

impl Eat {
    /// Whether it eats the event.
    pub fn eats(&self, event: Event) -> bool
        ensures { result ≡ (nat_eq event.kind self.now.kind && nat_eq event.code self.now.code) }
    {
        event.kind == self.kind && event.code == self.code
    }
}
