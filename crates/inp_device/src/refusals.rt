//! What may refuse a step, in the order in which it is tried.
ghost use Rattle.std.specs.Prelude.{◌≡◌, ◌≤◌, ℕ, false, List, length, reverse};
ghost use Rattle.inp_model.specs.declared.step.Step.{Step};
ghost use Rattle.inp_model.specs.declared.limits.TheConstants.{LOG_MAX};
ghost use Rattle.inp_model.specs.Description.{Description, is_fixed_axis, is_bad_fuzz};
ghost use Rattle.inp_model.specs.Step.{client_of, is_same};
ghost use Rattle.inp_model.specs.Past.{has_mask, mask_words};
ghost use Rattle.inp_model.specs.Left.{eaten};
ghost use Rattle.inp_model.specs.Reply.{refused, is_bad_client, is_no_device, is_bad_kind, is_bad_code, is_bad_info, finds_nothing, is_busy, is_not_grabber, is_one_too_many, is_full};
ghost use Rattle.inp_device.specs.Present.{PresentStandsFor, NamesOpen};

use crate::present::Present;
use crate::replies::refuse;
use inp_caps::Caps;
use inp_model::{
    ABS_MAX, AxisInfo, CLIENTS_MAX, EV_ABS, EV_KEY, EV_LED, EV_SND, EV_SW, FUZZ_MAX, Refusal,
    Reply, Step, is_multi_touch_code, is_slot_code,
};

impl Present {
    /// The first refusal of a step that holds, if one does. `LogFull` is the last, so a step that nothing refuses has a
    /// place in the history.
    pub fn refusal(&self, history: &[Step], step: Step) -> Option<Reply>
        requires few { length history.now ≤ LOG_MAX }
        requires stands { PresentStandsFor self.now.caps (reverse history.now) self.now }
        ensures exact { result ≡ refused self.now.caps (reverse history.now) step }
    {
        if self.is_bad_client(step) {
            return Some(refuse(history, Refusal::BadClient));
        }
        if self.is_no_device(step) {
            return Some(refuse(history, Refusal::NoDevice));
        }
        if self.is_bad_kind(step) {
            return Some(refuse(history, Refusal::BadKind));
        }
        if self.is_bad_code(step) {
            return Some(refuse(history, Refusal::BadCode));
        }
        if is_bad_info(step) {
            return Some(refuse(history, Refusal::BadInfo));
        }
        if self.finds_nothing(step) {
            return Some(Reply::Again {
                at: history.len() as u32,
                ends: self.ends,
            });
        }
        if self.is_busy(step) {
            return Some(refuse(history, Refusal::Busy));
        }
        if self.is_not_grabber(step) {
            return Some(refuse(history, Refusal::NotGrabber));
        }
        if self.is_one_too_many(step) {
            return Some(refuse(history, Refusal::TooMany));
        }
        if history.len() >= self.caps.log() as usize {
            return Some(refuse(history, Refusal::LogFull));
        }
        None
    }

    // Whether a client is named that is not open.
    fn is_bad_client(&self, step: Step) -> bool
        ensures exact { (d : Description) (past : List Step) → PresentStandsFor d past self.now
            → result ≡ is_bad_client past (client_of step) }
        ensures open { result ≡ false → NamesOpen self.now.handler.clients.list (client_of step) }
    {
        match step.client() {
            Some(client) => !self.handler.clients.is_open(client),
            None => false,
        }
    }

    // Whether a client is named that was revoked, for another step than closing it.
    fn is_no_device(&self, step: Step) -> bool
        requires open { NamesOpen self.now.handler.clients.list (client_of step) }
        ensures exact { (d : Description) (past : List Step) → PresentStandsFor d past self.now
            → result ≡ is_no_device past step (client_of step) }
    {
        if let Step::Close { .. } = step {
            return false;
        }
        match step.client() {
            Some(client) => self.handler.clients.is_revoked(client),
            None => false,
        }
    }

    // Whether the step is about a type that the device, or a mask, does not have.
    fn is_bad_kind(&self, step: Step) -> bool
        ensures exact { result ≡ is_bad_kind self.now.caps step }
    {
        match step {
            Step::GetAxis { .. } | Step::SetAxis { .. } => !self.caps.has_kind(EV_ABS),
            Step::GetSlots { .. } | Step::SyncSlots { .. } => self.caps.slots() == 0,
            Step::Mask { kind, .. } => !has_mask(kind),
            _ => false,
        }
    }

    // Whether the step is about a code that its type, or a word that its mask, does not have. Or whether it describes
    // an axis anew that stays as it is described at first.
    fn is_bad_code(&self, step: Step) -> bool
        ensures exact { result ≡ is_bad_code self.now.caps step }
    {
        match step {
            Step::GetAxis { code, .. } => code > ABS_MAX,
            Step::SetAxis { code, .. } => is_fixed_axis(&self.caps, code),
            Step::GetSlots { code, .. } => !is_slot_code(code),
            Step::Mask { kind, word, .. } => word >= mask_words(kind),
            _ => false,
        }
    }

    // Whether a read finds nothing visible.
    fn finds_nothing(&self, step: Step) -> bool
        requires open { NamesOpen self.now.handler.clients.list (client_of step) }
        ensures exact { (d : Description) (past : List Step) → PresentStandsFor d past self.now
            → result ≡ finds_nothing (eaten d) d past step }
    {
        match step {
            Step::Read { client, .. } => self.handler.clients.visible(client) == 0,
            _ => false,
        }
    }

    // Whether the grab is taken while a client holds it.
    fn is_busy(&self, step: Step) -> bool
        ensures exact { (d : Description) (past : List Step) → PresentStandsFor d past self.now
            → result ≡ is_busy past step }
    {
        match step {
            Step::Grab { .. } => self.handles.holder().is_some(),
            _ => false,
        }
    }

    // Whether the grab is given up by a client that does not hold it.
    fn is_not_grabber(&self, step: Step) -> bool
        ensures exact { (d : Description) (past : List Step) → PresentStandsFor d past self.now
            → result ≡ is_not_grabber past step }
    {
        match step {
            Step::Ungrab { client } => !is_same(self.handles.holder(), client),
            _ => false,
        }
    }

    // Whether a client is opened while as many are open as may be.
    fn is_one_too_many(&self, step: Step) -> bool
        ensures exact { (d : Description) (past : List Step) → PresentStandsFor d past self.now
            → result ≡ is_one_too_many past step }
    {
        match step {
            Step::Open => self.handler.clients.count() >= CLIENTS_MAX,
            _ => false,
        }
    }
}

/// Whether the holder is this client.
pub fn is_same(holder: Option<u32>, client: u32) -> bool
    ensures same { result ≡ is_same holder client }
{
    match holder {
        Some(holder) => holder == client,
        None => false,
    }
}

// Whether an axis is described anew with a fuzz out of range.
fn is_bad_info(step: Step) -> bool
    ensures exact { result ≡ is_bad_info step }
{
    match step {
        Step::SetAxis { info, .. } => is_bad_fuzz(info),
        _ => false,
    }
}

// Whether the fuzz is out of range.
fn is_bad_fuzz(info: AxisInfo) -> bool
    ensures exact { result ≡ is_bad_fuzz info }
{
    info.fuzz < 0 || info.fuzz > FUZZ_MAX
}

// Whether the axis stays as it is described at first.
fn is_fixed_axis(caps: &Caps, code: u16) -> bool
    ensures exact { result ≡ is_fixed_axis caps.now code }
{
    code > ABS_MAX || is_multi_touch_code(code) || !caps.supports(EV_ABS, code)
}

// Whether there is a mask of the type's codes, or of the types.
fn has_mask(kind: u16) -> bool
    ensures exact { result ≡ has_mask kind }
{
    kind <= EV_SW || kind == EV_LED || kind == EV_SND
}

// How many words a mask has.
fn mask_words(kind: u16) -> u16
    ensures exact { result ≡ mask_words kind }
{
    if kind == EV_KEY { 12 } else { 1 }
}
