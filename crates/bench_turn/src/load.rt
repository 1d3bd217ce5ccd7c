//! What the words ask for.
ghost use Rattle.std.specs.Prelude.{◌≤◌};

/// The most threads.
pub const THREADS_MAX: u32 = 64;

/// The most steps of a thread.
pub const STEPS_MAX: u32 = 100_000;

/// How many threads make how many steps each, on how many devices, and how many steps a turn.
#[derive(Clone, Copy)]
pub struct Load {
    /// The threads of all devices.
    pub threads: u32,
    /// The devices, each with as many threads.
    pub devices: u32,
    /// The steps of one thread.
    pub steps: u32,
    /// How many of them it makes in one turn.
    pub in_turn: u32,
    ghost shared: { (1 ≤ devices) × (devices ≤ threads) },
    ghost turns: { 1 ≤ in_turn },
}

impl Load {
    /// What these four words ask for, or nothing where one is missing or is no number in its range. Nothing comes
    /// either where the devices cannot have the threads in equal parts, or the turns the steps.
    pub fn read(
        threads: Option<String>,
        devices: Option<String>,
        steps: Option<String>,
        in_turn: Option<String>,
    ) -> Option<Load> {
        let threads = number(threads)?;
        let devices = number(devices)?;
        let steps = number(steps)?;
        let in_turn = number(in_turn)?;
        if threads > THREADS_MAX || devices == 0 || devices > threads || steps > STEPS_MAX {
            return None;
        }
        if in_turn == 0 || threads % devices != 0 || steps % in_turn != 0 {
            return None;
        }
        Some(Load {
            threads,
            devices,
            steps,
            in_turn,
        })
    }
}

/// The number that a word is, if there is one.
fn number(word: Option<String>) -> Option<u32> {
    word?.as_str().parse().ok()
}
