//! What an actor is, as it is written.

use inp_actors::Role;
use std::fmt;
use std::fmt::Write;

/// Writes what an actor is: `source`, `client`, `tap`, `joy` or `owner` (this project's choice).
#[derive(Drop)]
pub struct RoleText(pub Role);

impl fmt::Display for RoleText {
    ghost use Rattle.std.specs.Prelude.{Some};
    ghost use Rattle.inp_texts.specs.Texts.{role_text};

    ghost output = { λ shown. Some (role_text shown.0) };

    #[tactic(auto, unfolding(crate::specs::Texts::role_text))]
    fn fmt<W: fmt::Write>(&self, f: &mut fmt::Formatter<W>) -> fmt::Result {
        match self.0 {
            Role::Source => f.write_str("source"),
            Role::Client => f.write_str("client"),
            Role::Tap => f.write_str("tap"),
            Role::Joy => f.write_str("joy"),
            Role::Owner => f.write_str("owner"),
        }
    }
}
