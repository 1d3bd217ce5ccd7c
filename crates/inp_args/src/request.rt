//! What words ask for.

use inp_actors::FileName;

/// What the words on the command line ask for.
#[derive(Debug, Drop)]
pub enum Request {
    /// The record in a file is played.
    Play {
        /// The file's name.
        file: FileName,
        /// Whether the history is wanted too.
        history: bool,
        /// Where each job is to have a thread of its own: after how many reads in a row that find nothing a job stops,
        /// 1 to 1,000,000,000.
        idle: Option<u32>,
    },
    /// The record in a file is written in the newest version of its text, and not played.
    Migrate {
        /// The file's name.
        file: FileName,
    },
    /// A record is made and played.
    Make {
        /// The number that it is made from.
        number: u32,
        /// How many frames it has, 1 to 10,000.
        count: u32,
    },
}
