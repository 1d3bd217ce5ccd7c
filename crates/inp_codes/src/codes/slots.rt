//! Where the row of a code's name is looked for first. `bench/slots` finds the table and the order of the
//! rows.

/// How far the names of each part of the hashes are moved, so that no two names have one slot.
static MOVED: [u8; 128] = [
    0, 1, 4, 0, 0, 0, 4, 4, 2, 2, 17, 12, 6, 72, 2, 0, 2, 0, 3, 0, 1, 21, 1, 68, 4, 0, 67, 2, 8, 0,
    2, 10, 71, 0, 0, 1, 1, 4, 4, 2, 32, 6, 0, 0, 12, 23, 1, 21, 59, 22, 5, 1, 0, 0, 0, 37, 0, 0, 7,
    0, 1, 6, 2, 3, 7, 22, 84, 24, 1, 6, 0, 8, 0, 5, 44, 22, 3, 0, 10, 5, 5, 5, 21, 8, 134, 89, 21,
    151, 114, 99, 158, 0, 10, 2, 7, 68, 1, 2, 33, 24, 0, 134, 73, 44, 17, 26, 8, 0, 210, 0, 3, 1,
    0, 19, 56, 28, 97, 0, 59, 80, 8, 5, 1, 149, 2, 21, 16, 5,
];

/// What the bytes of a name are multiplied by: it tells the names apart.
const FACTOR: u64 = 0xff51_afd7_ed55_8ccd;

/// The slot of a name, made of its first byte, the one in the middle, its last four and its length. Each name
/// of the table has one of its own. No answer rests on that: see `number_at`.
#[inline(always)]
pub(crate) fn name_slot(name: &[u8]) -> usize {
    let Some(last) = name.last_chunk::<4>() else {
        return 0;
    };
    let ends = u64::from(u32::from_le_bytes(*last)) | u64::from(name[0]) << 32;
    let middle = u64::from(name[name.len() / 2]);
    let word = ends | middle << 40 | (name.len() as u64) << 48;
    let hash = (word.wrapping_mul(FACTOR) >> 48) as usize;
    (hash / 128 + usize::from(MOVED[hash % 128])) % 272
}
