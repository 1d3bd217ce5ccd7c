//! How a call of the program ended.

use inp_record::Refused;
use inp_script::{JoyRuns, OwnerRuns, Runs};

/// How a call of the program ended.
#[derive(Drop)]
pub struct End {
    /// The exit status (this project's choice). It is 0 where the text was written, 1 where the record is refused, and
    /// 2 where the words are not accepted. It is 3 where a file was not read, 4 where the text was not written whole,
    /// and 5 where memory ran out. It is 6 where the text was written and a job stopped since a history was full, and 7
    /// where a file is too long.
    pub status: u8,
    /// With status 1 the line that is refused, and why; else nothing.
    pub refused: Option<Refused>,
    /// With status 0 and 6, and with 4 where the text was a report or a summary, the results of the devices, where a
    /// record was played; else nothing. The results of joysticks and of owners are not among these.
    pub runs: Runs,
    /// The results of the record's joysticks, with the same statuses.
    pub joys: JoyRuns,
    /// The results of the record's owners, with the same statuses.
    pub owners: OwnerRuns,
}
