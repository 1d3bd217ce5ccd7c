//! Why jobs end.

/// Why a job ended.
#[derive(Clone, Copy, Debug, PartialEq, Eq)]
pub enum Stop {
    /// All its lines were done.
    Finished,
    /// So many reads of one line found nothing visible, one after another, the last at this length of the history.
    Idle { turns: u32, at: u32 },
    /// The history had as many steps as it may have, which is its length.
    Full { at: u32 },
}
