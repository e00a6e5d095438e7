//! A board whose counts are read and watched, also beside a thread that publishes.
ghost use Rattle.status_board.specs.Publishings.{last_of};
ghost use Rattle.std.specs.Prelude.{◌≡◌, ◌+◌, ◌<◌, ◌^◌, [], true};

use status_board::{Board, Counts, Publisher, Teller, Watcher, watch, watch_telling};
use std::sync::Wait;
use std::test::*;
use std::thread::join;

/// How many publishings are made beside a watcher that reads in a loop.
const PUBLISHINGS: u64 = 100_000;

/// Keeps what it is told.
#[derive(Drop)]
struct Told {
    windows: u64,
    told: Vec<Counts>,
    refused: bool,
}

impl Teller for Told {
    fn begin(&mut self, windows: u64) {
        self.windows = windows;
    }

    fn tell(&mut self, counts: &Counts) {
        if self.told.push(*counts).is_err() {
            self.refused = true;
        }
    }
}

/// Counts with the sum that a publishing asks for.
fn counts(windows: u64, committed: u64, aborted: u64, over: bool) -> Counts
    requires { committed + aborted < 2 ^ 64 }
    ensures { result ≡ record {
      windows = windows;
      runs = committed + aborted;
      committed = committed;
      aborted = aborted;
      over = over;
    } }
{
    Counts {
        windows,
        runs: committed + aborted,
        committed,
        aborted,
        over,
    }
}

/// Publishes 1, 2, 3 and so on windows, the last of them as over.
fn publish_many<R: Wait>(rt: &R, board: &Board, p: Publisher) -> Publisher
    requires board { p.board ≡ board.now }
    requires empty { p.list ≡ [] }
    ensures board { result.board ≡ p.board }
{
    let mut p = p;
    'publishings: for n in 0..PUBLISHINGS {
        let windows = n + 1;
        let c = counts(windows, windows, n, windows == PUBLISHINGS);
        board.publish(rt, &mut p, c);
    }
    p
}

/// Reads until the counts are over. Answers the last ones, and whether no number ever fell.
fn read_on<R: Wait>(rt: &R, board: &Board, w: Watcher) -> (Counts, bool)
    requires { w.board ≡ board.now }
{
    let mut w = w;
    let mut last = Counts::none();
    let mut rises = true;
    for _ in rt.forever() {
        let read = board.read(rt, &mut w);
        rises = rises
            && last.windows <= read.windows
            && last.runs <= read.runs
            && last.committed <= read.committed
            && last.aborted <= read.aborted;
        last = read;
        if read.over {
            return (last, rises);
        }
    }
    unreachable!()
}

#[test]
fn what_is_published_is_read(rt: HostRuntime) {
    let (board, mut publisher) = Board::open(rt.alloc()).expect(&rt, "memory");
    let mut early = board.watcher(&rt, &mut publisher);
    assert_eq!(rt; board.read(&rt, &mut early), Counts::none());
    let first = counts(1, 2, 0, false);
    board.publish(&rt, &mut publisher, first);
    let mut watcher = board.watcher(&rt, &mut publisher);
    assert_eq!(rt; board.read(&rt, &mut watcher), first);
    let last = counts(2, 3, 1, true);
    board.publish(&rt, &mut publisher, last);
    let (watcher, seen) = watch(&rt, &board, watcher);
    assert_eq!(rt; seen, last);
    board.meet(&rt, &mut publisher, watcher);
    assert_eq!(rt; board.read(&rt, &mut early), last);
    board.meet(&rt, &mut publisher, early);
}

#[test]
fn what_is_read_is_told_once(rt: HostRuntime) {
    let (board, mut publisher) = Board::open(rt.alloc()).expect(&rt, "memory");
    let mut watcher = board.watcher(&rt, &mut publisher);
    let last = counts(1, 1, 0, true);
    board.publish(&rt, &mut publisher, last);
    let mut told = Told {
        windows: 0,
        told: Vec::new(rt.alloc()),
        refused: false,
    };
    assert_eq!(rt; watch_telling(&rt, &board, &mut watcher, &mut told), last);
    assert_eq!(rt; told.told.as_slice(), &[last][..]);
}

#[test]
fn a_watcher_reads_beside_the_publisher(rt: HostRuntime) {
    let (board, mut publisher) = Board::open(rt.alloc()).expect(&rt, "memory");
    let watcher = board.watcher(&rt, &mut publisher);
    let shared = &board;
    let host = &rt;
    let ((last, rises), _) = join(
        host,
        move || read_on(host, shared, watcher),
        move || publish_many(host, shared, publisher),
    );
    assert!(rt; rises);
    assert_eq!(rt;
        last,
        counts(PUBLISHINGS, PUBLISHINGS, PUBLISHINGS - 1, true)
    );
}
