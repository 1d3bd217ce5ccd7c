//! Records, and what the program writes of them, worked out by hand.

/// A key goes down, and a tap reads it.
pub const ONE_KEY: &str = "inputrecord 1
device kbd
cap EV_KEY KEY_A
source s
tap t
do t open
do s event 1000 EV_KEY KEY_A 1
do s event 1000 EV_SYN SYN_REPORT 0
do t read 16
";

pub const ONE_KEY_REPORT: &str = "device kbd steps 4
source s calls 2 stop finished
tap t
call open reply opened 0 0 128
call read 0 16 reply took 3 2
took 2 1000 EV_KEY KEY_A 1
took 2 1000 EV_SYN SYN_REPORT 0
keys KEY_A
stop finished
";

/// The same record with a comment that is no text.
pub const COMMENT: &[u8] = b"inputrecord 1
# \xff
device kbd
cap EV_KEY KEY_A
source s
tap t
do t open
do s event 1000 EV_KEY KEY_A 1
do s event 1000 EV_SYN SYN_REPORT 0
do t read 16
";

/// A stream in place of the two events.
pub const STREAM: &str = "inputrecord 1
device kbd
cap EV_KEY KEY_A
source s
tap t
do t open
do s stream keys
do t read 16
";

/// A stream, and a line after it that begins with no keyword.
pub const STREAM_AND_BAD_LINE: &str = "inputrecord 1
device kbd
cap EV_KEY KEY_A
source s
tap t
do t open
do s stream keys
x
";

/// One file for two streams.
pub const STREAM_TWICE: &str = "inputrecord 1
device kbd
cap EV_KEY KEY_A
source s
tap t
do t open
do s stream keys
do s stream keys
do t read 16
";

/// The result of two streams that each press the key: the second press is passed to nobody.
pub const STREAMS_REPORT: &str = "device kbd steps 6
source s calls 4 stop finished
tap t
call open reply opened 0 0 128
call read 0 16 reply took 5 2
took 2 1000 EV_KEY KEY_A 1
took 2 1000 EV_SYN SYN_REPORT 0
keys KEY_A
stop finished
";

/// Two keyboards, on each a client that follows, and stands before its source.
pub const TWO_KEYBOARDS: &str = "inputrecord 1
device one
cap EV_KEY KEY_A
client c
source s
device two
cap EV_KEY KEY_A
client d
source t
do c open
do c follow
do s event 1000 EV_KEY KEY_A 1
do s event 1000 EV_SYN SYN_REPORT 0
do d open
do d follow
do t event 1000 EV_KEY KEY_A 1
do t event 1000 EV_SYN SYN_REPORT 0
";

/// On threads, where each client read in vain once, and its source says its end after the next read.
pub const TWO_KEYBOARDS_REPORT: &str = "device one steps 6
client c
call open reply opened 0 0 128
call getkeys 0 reply bits 1
call read 0 64 reply took 4 2
took 3 1000 EV_KEY KEY_A 1
took 3 1000 EV_SYN SYN_REPORT 0
again 6
keys KEY_A
stop finished
source s calls 2 stop finished
device two steps 6
client d
call open reply opened 0 0 128
call getkeys 0 reply bits 1
call read 0 64 reply took 4 2
took 3 1000 EV_KEY KEY_A 1
took 3 1000 EV_SYN SYN_REPORT 0
again 6
keys KEY_A
stop finished
source t calls 2 stop finished
";

/// Two devices, each with a job of each role.
pub const FIVE_JOBS_EACH: &str = "inputrecord 2
udevice one
cap EV_KEY KEY_A
source s
client c
tap t
joy j
owner o
udevice two
cap EV_KEY KEY_A
source s2
client c2
tap t2
joy j2
owner o2
do s event 1000 EV_KEY KEY_A 1
do c open
do t open
do j open
do o feedback 1
do s2 event 1000 EV_KEY KEY_A 1
do c2 open
do t2 open
do j2 open
do o2 feedback 1
";

/// A bell rings, and the owner of its device asks twice.
pub const BELL: &str = "inputrecord 2
udevice bell
cap EV_SND SND_BELL
source s
owner o
do s event 1000 EV_SND SND_BELL 1
do o feedback 4
do o feedback 4
";

/// On threads, where its first call finds the ring alone, and the second one nothing, before the source's end.
pub const BELL_REPORT: &str = "device bell steps 2
source s calls 1 stop finished
owner o
feedback 1 1
fed EV_SND SND_BELL 1
feedback 1 0
stop finished
";

/// The same, where the second call comes after the end.
pub const BELL_REPORT_LATE: &str = "device bell steps 2
source s calls 1 stop finished
owner o
feedback 1 1
fed EV_SND SND_BELL 1
feedback 2 0
stop finished
";

/// The first record without its tap.
pub const ALONE: &str = "inputrecord 1
device kbd
cap EV_KEY KEY_A
source s
do s event 1000 EV_KEY KEY_A 1
do s event 1000 EV_SYN SYN_REPORT 0
";

/// On a thread the source says that it is done.
pub const ALONE_REPORT: &str = "device kbd steps 3
source s calls 2 stop finished
";
