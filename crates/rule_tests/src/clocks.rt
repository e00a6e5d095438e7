//! The clocks answer as their contracts say.
use day_clock::{Clock, SetClock, StdClock};
use std::thread;
use std::time::Duration;

const AN_HOUR: u64 = 3_600_000;

#[test]
fn counts_the_ms_since_it_was_made(rt: HostRuntime) {
    let clock = StdClock::new(&rt);
    let before = clock.now();
    thread::sleep(&rt, Duration::from_millis(20));
    let after = clock.now();
    assert!(rt; before.saturating_add(20) <= after);
    assert!(rt; after < AN_HOUR);
}

#[test]
fn stands(rt: HostRuntime) {
    assert_eq!(rt; SetClock::new(7).now(), 7);
}
