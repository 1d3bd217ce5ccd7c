//! Lines that follow each other and each inject an event of one source.
ghost use Rattle.std.specs.Prelude.{◌≡◌, ◌≤◌, length, map, take};
ghost use Rattle.inp_runs.specs.EventLines.{inject_line};

use inp_actors::{Command, Line};
use inp_model::{Event, Stamped};

/// What stands in a buffer of events where none was gathered yet.
pub const NO_STAMPED: Stamped = Stamped {
    event: Event {
        kind: 0,
        code: 0,
        value: 0,
    },
    now: 0,
};

/// Gathers the events of the first of these lines, up to the first line that is another actor's or does something else.
/// Says how many they are: no more than there is room for.
pub fn gather_front(lines: &[Line], actor: u32, events: &mut [Stamped]) -> usize
    ensures fits { result ≤ length events.new }
    ensures within { result ≤ length lines.now }
    ensures gathered { take result lines.now
        ≡ map (inject_line actor) (take result events.new) }
{
    let most = lines.len().min(events.len());
    for at in 0..most {
        let line = &lines[at];
        match line.command {
            Command::Event {
                moment,
                kind,
                code,
                value,
            } if line.actor == actor => {
                events[at] = Stamped {
                    event: Event { kind, code, value },
                    now: moment,
                };
            }
            _ => return at,
        }
    }
    most
}
