//! What a device is, for C: what it supports, and its numbers.
ghost use Rattle.std.specs.Prelude.{◌≡◌, ◌≢◌, ◌≤◌, if◌then◌else◌, Some};
ghost use Rattle.inp_model.specs.Reply.{bitmap_word, bitmap_of};
ghost use Rattle.inp_c.specs.Contents.{contents};
ghost use Rattle.inp_c.specs.Status.{device_status};
ghost use Rattle.inp_c.specs.DescriptionTold.{is_supported, AreSupportedBits, IsToldLimits};

use crate::c_limits::{CLimits, c_limits};
use crate::handle::Handle;
use crate::kept::Kept;
use crate::status::{BAD_HANDLE, OK};
use inp_caps::Caps;
use inp_model::EV_SYN;
use std::alloc::Global;

/// What a device supports: the codes of a type, and of `EV_SYN` the types. Bit i of the 768 is that of code i.
#[unsafe(no_mangle)]
pub extern "C" fn inputplay_device_bits(
    alloc: Global,
    handle: &mut Handle,
    kind: u16,
    words: &mut [u64; 12],
) -> u32
    ensures status { result ≡ device_status (contents handle.old) }
    ensures told { result ≡ OK → AreSupportedBits (contents handle.old) kind words.new }
    ensures not_told { result ≢ OK → words.new ≡ words.old }
    ensures handle { contents handle.new ≡ contents handle.old }
{
    if handle.is_none() {
        return BAD_HANDLE;
    }
    let kept = handle.take(alloc);
    let status = bits_in(&kept, kind, words);
    *handle = Handle::of(kept);
    status
}

/// What the device supports, if what is kept is one.
fn bits_in(kept: &Kept, kind: u16, words: &mut [u64; 12]) -> u32
    ensures status { result ≡ device_status (Some kept.now) }
    ensures told { result ≡ OK → AreSupportedBits (Some kept.now) kind words.new }
    ensures not_told { result ≢ OK → words.new ≡ words.old }
{
    let Kept::Device(device) = kept else {
        return BAD_HANDLE;
    };
    *words = supported_words(device.caps(), kind);
    OK
}

/// The words of what a description supports.
fn supported_words(caps: &Caps, kind: u16) -> [u64; 12]
    ensures { result ≡ bitmap_of (is_supported caps.now kind) }
{
    let mut words = [0; 12];
    for index in 0..12 {
        words[index] = supported_word(caps, kind, 64 * index as u16);
    }
    words
}

/// Whether a description supports each of 64 codes, the first in the lowest bit.
fn supported_word(caps: &Caps, kind: u16, start: u16) -> u64
    requires { start ≤ 704 }
    ensures { result ≡ bitmap_word (is_supported caps.now kind) start }
{
    let mut word = 0;
    for passed in 0..64 {
        word = 2 * word + supported_digit(caps, kind, start + 63 - passed);
    }
    word
}

/// 1 where a description supports a code, else 0.
fn supported_digit(caps: &Caps, kind: u16, code: u16) -> u64
    ensures { result ≡ (if is_supported caps.now kind code then 1 else 0) }
{
    let on = if kind == EV_SYN {
        caps.has_kind(code)
    } else {
        caps.supports(kind, code)
    };
    u64::from(on)
}

/// The numbers of a device.
#[unsafe(no_mangle)]
pub extern "C" fn inputplay_device_limits(
    alloc: Global,
    handle: &mut Handle,
    limits: &mut CLimits,
) -> u32
    ensures status { result ≡ device_status (contents handle.old) }
    ensures told { result ≡ OK → IsToldLimits (contents handle.old) limits.new }
    ensures not_told { result ≢ OK → limits.new ≡ limits.old }
    ensures handle { contents handle.new ≡ contents handle.old }
{
    if handle.is_none() {
        return BAD_HANDLE;
    }
    let kept = handle.take(alloc);
    let status = limits_in(&kept, limits);
    *handle = Handle::of(kept);
    status
}

/// The numbers of what is kept, if it is a device.
fn limits_in(kept: &Kept, limits: &mut CLimits) -> u32
    ensures status { result ≡ device_status (Some kept.now) }
    ensures told { result ≡ OK → IsToldLimits (Some kept.now) limits.new }
    ensures not_told { result ≢ OK → limits.new ≡ limits.old }
{
    let Kept::Device(device) = kept else {
        return BAD_HANDLE;
    };
    *limits = c_limits(device.caps());
    OK
}
