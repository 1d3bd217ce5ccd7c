//! Sixteen bytes at a time.
ghost use Rattle.std.specs.Prelude.{◌≡◌, ◌+◌, ◌<◌, ◌≤◌, false, length, slice_index_or};
ghost use Rattle.inp_texts.specs.Line.{is_printed, ArePrinted};

use std::simd::prelude::*;

/// How many printed bytes stand in front, among the 16 from a place on. Less 33, round the 256 values of a
/// byte, the printed ones are below 94.
#[inline(always)]
pub(crate) fn printed_lanes(line: &[u8], at: usize) -> usize
    requires { at + 16 ≤ length line.now }
    ensures within { result ≤ 16 }
    ensures printed { ArePrinted line.now at (at + result) }
    ensures other { result < 16 → is_printed (slice_index_or line.now (at + result) 0) ≡ false }
{
    let other = (u8x16::from_slice(&line[at..]) - u8x16::splat(33))
        .simd_ge(u8x16::splat(94))
        .to_bitmask();
    if other == 0 {
        16
    } else {
        other.trailing_zeros() as usize
    }
}
