//! The upgrade of a record to the newest version of its text.
//!
//! With `--migrate` the program upgrades the record before it writes its text (`migration.rt`). Two laws stand beside
//! [`upgrade`] as its clauses (`specs/Upgrade.antt`). The text of the upgraded record is read as that record again
//! (`ReadsAgain`), and the result of its lines in file order is what it was before (`PlaysAlike`).
ghost use Rattle.std.specs.Prelude.{◌≡◌};
ghost use Rattle.inp_tool.specs.Upgrade.{upgraded, ReadsAgain, PlaysAlike};

use inp_actors::{Record, VERSION_MAX};

/// The same record in the newest version of its text, which is 2. Devices, actors, lines and streams stay, and so does
/// its result. Its text (`print` of `inp_record`) is read as this record again, where some bytes mean the record that
/// was handed in. It takes no memory.
pub fn upgrade(rec: Record) -> Record
    ensures upgraded { result ≡ upgraded rec }
    ensures reads_again { ReadsAgain }
    ensures plays_alike { PlaysAlike }
{
    let mut upgraded = rec;
    upgraded.set_version(VERSION_MAX);
    upgraded
}
