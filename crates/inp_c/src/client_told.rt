//! What is told of a device's clients, for C.
ghost use Rattle.std.specs.Prelude.{◌≡◌, ◌≢◌, Some};
ghost use Rattle.inp_model.specs.Past.{has_mask, mask_words};
ghost use Rattle.inp_c.specs.Contents.{contents};
ghost use Rattle.inp_c.specs.Status.{device_status};
ghost use Rattle.inp_c.specs.ClientTold.{client_status, mask_status, IsVisibleCount, AreToldReadable, IsToldClient, IsMaskWord, has_mask_word};

use crate::c_client::{CClient, c_client};
use crate::handle::Handle;
use crate::kept::Kept;
use crate::status::{BAD_ARGUMENT, BAD_HANDLE, OK};
use inp_model::{EV_KEY, EV_LED, EV_SND, EV_SW};
use std::alloc::Global;

/// How many events an open client could read now.
#[unsafe(no_mangle)]
pub extern "C" fn inputplay_visible(
    alloc: Global,
    handle: &mut Handle,
    client: u32,
    count: &mut u32,
) -> u32
    ensures status { result ≡ client_status (contents handle.old) client }
    ensures told { result ≡ OK → IsVisibleCount (contents handle.old) client count.new }
    ensures not_told { result ≢ OK → count.new ≡ count.old }
    ensures handle { contents handle.new ≡ contents handle.old }
{
    if handle.is_none() {
        return BAD_HANDLE;
    }
    let kept = handle.take(alloc);
    let status = visible_in(&kept, client, count);
    *handle = Handle::of(kept);
    status
}

/// How many events an open client could read, if what is kept is a device.
fn visible_in(kept: &Kept, client: u32, count: &mut u32) -> u32
    ensures status { result ≡ client_status (Some kept.now) client }
    ensures told { result ≡ OK → IsVisibleCount (Some kept.now) client count.new }
    ensures not_told { result ≢ OK → count.new ≡ count.old }
{
    let Kept::Device(device) = kept else {
        return BAD_HANDLE;
    };
    let Some(visible) = device.udev.udev.visible(client) else {
        return BAD_ARGUMENT;
    };
    *count = visible;
    OK
}

/// Copies the numbers of the open clients that could read something now, ascending, to the front of C's array, as many
/// as fit. It tells how many there are in all.
#[unsafe(no_mangle)]
pub extern "C" fn inputplay_readable(
    alloc: Global,
    handle: &mut Handle,
    clients: &mut [u32],
    count: &mut u32,
) -> u32
    ensures status { result ≡ device_status (contents handle.old) }
    ensures told { result ≡ OK
        → AreToldReadable (contents handle.old) clients.old clients.new count.new }
    ensures not_told { result ≢ OK → (clients.new ≡ clients.old) × (count.new ≡ count.old) }
    ensures handle { contents handle.new ≡ contents handle.old }
{
    if handle.is_none() {
        return BAD_HANDLE;
    }
    let kept = handle.take(alloc);
    let status = readable_in(&kept, clients, count);
    *handle = Handle::of(kept);
    status
}

/// The clients that could read something, if what is kept is a device.
fn readable_in(kept: &Kept, clients: &mut [u32], count: &mut u32) -> u32
    ensures status { result ≡ device_status (Some kept.now) }
    ensures told { result ≡ OK
        → AreToldReadable (Some kept.now) clients.old clients.new count.new }
    ensures not_told { result ≢ OK → (clients.new ≡ clients.old) × (count.new ≡ count.old) }
{
    let Kept::Device(device) = kept else {
        return BAD_HANDLE;
    };
    *count = device.udev.udev.readable(clients);
    OK
}

/// The clock of an open client, whether it was revoked, and whether it holds the grab.
#[unsafe(no_mangle)]
pub extern "C" fn inputplay_client(
    alloc: Global,
    handle: &mut Handle,
    client: u32,
    state: &mut CClient,
) -> u32
    ensures status { result ≡ client_status (contents handle.old) client }
    ensures told { result ≡ OK → IsToldClient (contents handle.old) client state.new }
    ensures not_told { result ≢ OK → state.new ≡ state.old }
    ensures handle { contents handle.new ≡ contents handle.old }
{
    if handle.is_none() {
        return BAD_HANDLE;
    }
    let kept = handle.take(alloc);
    let status = client_in(&kept, client, state);
    *handle = Handle::of(kept);
    status
}

/// How an open client stands, if what is kept is a device.
fn client_in(kept: &Kept, client: u32, state: &mut CClient) -> u32
    ensures status { result ≡ client_status (Some kept.now) client }
    ensures told { result ≡ OK → IsToldClient (Some kept.now) client state.new }
    ensures not_told { result ≢ OK → state.new ≡ state.old }
{
    let Kept::Device(device) = kept else {
        return BAD_HANDLE;
    };
    let Some(known) = device.udev.udev.client(client) else {
        return BAD_ARGUMENT;
    };
    *state = c_client(known);
    OK
}

/// 64 bits of a mask of an open client: bit k is that of code `64 * word + k`. The mask of types goes by `EV_SYN`.
#[unsafe(no_mangle)]
pub extern "C" fn inputplay_client_mask(
    alloc: Global,
    handle: &mut Handle,
    client: u32,
    kind: u16,
    word: u16,
    bits: &mut u64,
) -> u32
    ensures status { result ≡ mask_status (contents handle.old) client kind word }
    ensures told { result ≡ OK → IsMaskWord (contents handle.old) client kind word bits.new }
    ensures not_told { result ≢ OK → bits.new ≡ bits.old }
    ensures handle { contents handle.new ≡ contents handle.old }
{
    if handle.is_none() {
        return BAD_HANDLE;
    }
    let kept = handle.take(alloc);
    let status = mask_in(&kept, client, kind, word, bits);
    *handle = Handle::of(kept);
    status
}

/// 64 bits of a mask of an open client, if what is kept is a device.
fn mask_in(kept: &Kept, client: u32, kind: u16, word: u16, bits: &mut u64) -> u32
    ensures status { result ≡ mask_status (Some kept.now) client kind word }
    ensures told { result ≡ OK → IsMaskWord (Some kept.now) client kind word bits.new }
    ensures not_told { result ≢ OK → bits.new ≡ bits.old }
{
    let Kept::Device(device) = kept else {
        return BAD_HANDLE;
    };
    if !has_mask_word(kind, word) {
        return BAD_ARGUMENT;
    }
    let Some(known) = device.udev.udev.mask(client, kind, word) else {
        return BAD_ARGUMENT;
    };
    *bits = known;
    OK
}

/// Whether a type has a mask with this word.
fn has_mask_word(kind: u16, word: u16) -> bool
    ensures { result ≡ has_mask_word kind word }
{
    has_mask(kind) && word < mask_words(kind)
}

/// Whether there is a mask of the type's codes, or of the types.
fn has_mask(kind: u16) -> bool
    ensures { result ≡ has_mask kind }
{
    kind <= EV_SW || kind == EV_LED || kind == EV_SND
}

/// How many words a mask has.
fn mask_words(kind: u16) -> u16
    ensures { result ≡ mask_words kind }
{
    if kind == EV_KEY { 12 } else { 1 }
}
