//! Clocks that run, fail, stand still and jump.
use crate::assertion::assert_same;
use std::io;
use std::sync::atomic::{AtomicU64, Ordering};
use std::time::{Clock, Duration};
use vrp_command::{Deadline, Gate, NoGate};

// The seconds that a clock shows at each reading; nothing if it fails. The last reading is repeated.
#[derive(Drop)]
struct Readings {
    seconds: &'static [Option<u64>],
    read: AtomicU64,
}

impl Clock for Readings {
    fn monotonic(&self) -> io::Result<Duration> {
        let read = self.read.fetch_add(1, Ordering::SeqCst) as usize;
        let last = self.seconds.len().saturating_sub(1);
        match self.seconds.get(read.min(last)) {
            Some(Some(seconds)) => Ok(Duration::from_secs(*seconds)),
            _ => Err(io::Error::from(io::ErrorKind::Other)),
        }
    }

    fn since_1970(&self) -> io::Result<Duration> {
        self.monotonic()
    }
}

// With a limit of two seconds, whether the search continues at the first look and at the second.
const GOES_ON: &[(&[Option<u64>], bool, bool)] = &[
    (&[Some(5), Some(6), Some(7)], true, false),
    (&[Some(5), Some(7), Some(8)], false, false),
    (&[Some(5), Some(1_000_000), Some(5)], false, true),
    (&[Some(5)], true, true),
    (&[Some(5), Some(1), Some(6)], true, true),
    (&[Some(5), None, Some(7)], true, false),
    (&[None, Some(5), Some(1_000_000)], true, true),
    (&[None], true, true),
];

#[test]
fn by_a_clock(rt: HostRuntime) {
    for (seconds, first, second) in GOES_ON {
        let clock = Readings {
            seconds,
            read: AtomicU64::new(0),
        };
        let deadline = Deadline::new(&clock, Some(2), &NoGate);
        let looked = (deadline.should_continue(), deadline.should_continue());
        assert_same(&rt, looked, (*first, *second), seconds);
    }
}

// Without a limit no clock stops anything.
#[test]
fn without_a_limit(rt: HostRuntime) {
    let clock = Readings {
        seconds: &[Some(0), Some(1_000_000)],
        read: AtomicU64::new(0),
    };
    let deadline = Deadline::new(&clock, None, &NoGate);
    assert!(rt; deadline.should_continue());
}
