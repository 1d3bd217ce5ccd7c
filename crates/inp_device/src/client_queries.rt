//! What the clients have now, told with no step.
ghost use Rattle.std.specs.Prelude.{◌≡◌, ◌≤◌, ◌<◌, true, List, length, take};
ghost use Rattle.inp_model.specs.declared.limits.TheConstants.{CLIENTS_MAX};
ghost use Rattle.inp_model.specs.declared.step.Step.{Step};
ghost use Rattle.inp_model.specs.Description.{Description};
ghost use Rattle.inp_model.specs.Past.{has_mask, mask_words};
ghost use Rattle.inp_model.specs.Reply.{written};
ghost use Rattle.inp_device.specs.Present.{PresentStandsFor};
ghost use Rattle.inp_device.specs.Queries.{visible_to, readable_clients, state_of_client, mask_word_of};

use crate::client_state::ClientState;
use crate::present::Present;
use crate::refusals::is_same;

impl Present {
    /// How many events an open client could read now.
    pub fn visible(&self, client: u32) -> Option<u32>
        ensures visible { (d : Description) (past : List Step) → PresentStandsFor d past self.now
            → result ≡ visible_to d past client }
    {
        let clients = &self.handler.clients;
        if !clients.is_open(client) {
            return None;
        }
        Some(clients.visible(client))
    }

    /// Writes the numbers of the open clients that could read something now, ascending, to the front of a buffer, as many
    /// as fit, and says how many there are.
    pub fn readable(&self, clients: &mut [u32]) -> u32
        ensures count { (d : Description) (past : List Step) → PresentStandsFor d past self.now
            → result ≡ length (readable_clients d past) }
        ensures few { result ≤ CLIENTS_MAX }
        ensures written { (d : Description) (past : List Step) → PresentStandsFor d past self.now
            → clients.new ≡ written (take (length clients.old) (readable_clients d past)) clients.old }
    {
        self.handler.clients.readable(clients)
    }

    /// The clock of an open client, whether it was revoked, and whether it holds the grab.
    pub fn client(&self, client: u32) -> Option<ClientState>
        ensures client { (d : Description) (past : List Step) → PresentStandsFor d past self.now
            → result ≡ state_of_client past client }
    {
        let clients = &self.handler.clients;
        if !clients.is_open(client) {
            return None;
        }
        Some(ClientState {
            clock: clients.clock(client),
            revoked: clients.is_revoked(client),
            grabs: is_same(self.handles.holder(), client),
        })
    }

    /// 64 bits of a mask of an open client.
    pub fn mask(&self, client: u32, kind: u16, word: u16) -> Option<u64>
        requires kind { has_mask kind ≡ true }
        requires word { word < mask_words kind }
        ensures mask { (d : Description) (past : List Step) → PresentStandsFor d past self.now
            → result ≡ mask_word_of past client kind word }
    {
        let clients = &self.handler.clients;
        if !clients.is_open(client) {
            return None;
        }
        Some(clients.mask_word(client, kind, word))
    }
}
