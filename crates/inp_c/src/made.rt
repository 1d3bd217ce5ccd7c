//! Which text is made of a record.

/// Which text is made of a record.
#[derive(Clone, Copy)]
pub(crate) enum Made {
    /// Its report, with the devices' histories or without.
    Report {
        /// With them.
        history: bool,
    },
    /// The record in the newest version of its text.
    Newest,
}
