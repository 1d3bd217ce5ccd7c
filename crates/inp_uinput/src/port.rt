//! A device made by requests that several threads use.
ghost use mathlib.Core.List.{IsPrefix};
ghost use Rattle.inp_turn.specs.Pass.{view_of};
ghost use Rattle.inp_port.specs.declared.port.PortOf.{PortOf};
ghost use Rattle.inp_port.specs.Port.{IsReadyAt, description_of};
ghost use Rattle.inp_feedback.specs.declared.u_entry.UEntry.{UEntry};
ghost use Rattle.inp_uinput.specs.UdevView.{UdevView};
ghost use Rattle.inp_uinput.specs.FeedbackTurn.{IsFeedbackTurn, IsFeedbackBy};

use crate::Udev;
use inp_feedback::Fed;
use inp_model::Event;
use inp_port::{PortClientOf, PortOf};
use inp_turn::Pass;
use std::sync::Wait;

/// A port of one device made by requests. Its owner makes feedback calls by [`FeedbackPort::feedback`].
pub type UPort = PortOf<Udev>;

/// One thread's use of such a port, and so an evdev. To its caller the feedback calls are no steps: its history is the
/// steps alone, and its places are those that its own steps have among these. Where its own feedback calls stand among
/// all entries is part of its tie.
pub type UClient<'a, R> = PortClientOf<'a, Udev, R>;

/// A port that an owner reads by, beside those who make steps by it. [`UPort`] is one.
pub trait FeedbackPort {
    /// The port that it is.
    ghost port: { Self → PortOf UdevView UEntry };

    /// Takes the turn, makes one feedback call and gives the turn back. The call is answered, and the buffer written,
    /// as [`Udev::feedback`] does it for what is kept when the turn is taken.
    ///
    /// The pass has then seen all that was kept before the call, and after it the call where the answer is `Took`. The
    /// place of that entry is then the pass's own. Where the answer is `Full` nothing is entered.
    ///
    /// It waits for the turn, and nothing says that it gets it. It takes no memory.
    ///
    /// The pass must be one of this port, without the turn.
    fn feedback<R: Wait>(&self, rt: &R, pass: &mut Pass<Udev>, out: &mut [Event]) -> Fed
        requires ready { IsReadyAt (port self.now) pass.old }
        ensures ready { IsReadyAt (port self.now) pass.new }
        ensures seen { IsPrefix (view_of pass.old).seen (view_of pass.new).seen }
        ensures fed { IsFeedbackTurn (description_of (port self.now)) (view_of pass.old)
            result out.old out.new (view_of pass.new) }
        ensures told { IsFeedbackBy (port self.now) pass.old pass.new result };
}

impl FeedbackPort for UPort {
    ghost port = { λ port. port };

    fn feedback<R: Wait>(&self, rt: &R, pass: &mut Pass<Udev>, out: &mut [Event]) -> Fed {
        let shared = self.shared();
        let mut held = shared.take(rt, pass);
        let fed = held.state.feedback(out);
        shared.give(pass, held);
        fed
    }
}
