//! The names of codes, for C.
ghost use Rattle.std.specs.Prelude.{◌≡◌, ◌≢◌, ◌⊎◌, Some};
ghost use Rattle.inp_codes.specs.CodeNames.{code_of};
ghost use Rattle.inp_c.specs.Names.{HasNoCode, IsToldName, name_status};

use crate::bytes::copy_bytes;
use crate::status::{BAD_ARGUMENT, OK};
use inp_codes::{code_of, name_of};
use std::str;

/// The type and the code that have this name, as 1 and 30 for `KEY_A`.
#[unsafe(no_mangle)]
pub extern "C" fn inputplay_code_of(name: &[u8], kind: &mut u16, code: &mut u16) -> u32
    ensures status { (result ≡ OK) ⊎ (result ≡ BAD_ARGUMENT) }
    ensures told { result ≡ OK → code_of name.now ≡ Some (kind.new, code.new) }
    ensures none { result ≡ BAD_ARGUMENT → HasNoCode name.now }
    ensures not_told { result ≢ OK → (kind.new ≡ kind.old) × (code.new ≡ code.old) }
{
    let Ok(text) = str::from_utf8(name) else {
        return BAD_ARGUMENT;
    };
    let Some(found) = code_of(text) else {
        return BAD_ARGUMENT;
    };
    *kind = found.0;
    *code = found.1;
    OK
}

/// Copies the name of a code, as many bytes as fit, and tells how many it has.
#[unsafe(no_mangle)]
pub extern "C" fn inputplay_name_of(kind: u16, code: u16, out: &mut [u8], len: &mut usize) -> u32
    ensures status { result ≡ name_status kind code }
    ensures told { result ≡ OK → IsToldName kind code out.old out.new len.new }
    ensures not_told { result ≢ OK → (out.new ≡ out.old) × (len.new ≡ len.old) }
{
    let Some(name) = name_of(kind, code) else {
        return BAD_ARGUMENT;
    };
    *len = name.len();
    copy_bytes(name.as_bytes(), out);
    OK
}
