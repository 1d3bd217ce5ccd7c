//! Bytes that are copied to C.
ghost use Rattle.std.specs.Prelude.{◌≡◌, length, take};
ghost use Rattle.inp_model.specs.Reply.{written};

/// Copies bytes to the front of C's array, as many as fit.
pub(crate) fn copy_bytes(bytes: &[u8], out: &mut [u8])
    ensures { out.new ≡ written (take (length out.old) bytes.now) out.old }
{
    let count = bytes.len().min(out.len());
    out[..count].copy_from_slice(&bytes[..count]);
}
