//! The ranges of a description's numbers, and of a device's filters and clients.

/// The greatest number of open clients of a device (this project's choice).
pub const CLIENTS_MAX: u32 = 64;

const _: () = prove!(CLIENTS_MAX == 64);

/// The greatest number of multi-touch slots (this project's choice).
pub const SLOTS_MAX: u32 = 256;

const _: () = prove!(SLOTS_MAX == 4 * 64);

/// The least hint of events per frame (this project's choice).
pub const HINT_MIN: u32 = 2;

const _: () = prove!(HINT_MIN == 2);

/// The greatest hint of events per frame (this project's choice).
pub const HINT_MAX: u32 = 512;

const _: () = prove!(HINT_MAX == 512);

/// The greatest log limit, in steps (this project's choice).
pub const LOG_MAX: u32 = 8_388_608;

const _: () = prove!(LOG_MAX == 8 * 1024 * 1024);

/// The greatest fuzz of an axis (this project's choice).
pub const FUZZ_MAX: i32 = 1_073_741_824;

const _: () = prove!(FUZZ_MAX == 1024 * 1024 * 1024);

/// The greatest number of filters of a device (this project's choice).
pub const FILTERS_MAX: u32 = 8;

const _: () = prove!(FILTERS_MAX == 8);

/// The longest time after a release in which a filter eats the next hold, in microseconds (this project's choice).
pub const BOUNCE_MAX: u32 = 1_000_000;

const _: () = prove!(BOUNCE_MAX == 1000 * 1000);
