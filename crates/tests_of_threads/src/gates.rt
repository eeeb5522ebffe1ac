//! Gates of tests.
use pcache_shared_world::Gate;
use std::sync::atomic::{AtomicU64, Ordering};
use std::thread;

// How often a gate looks before it gives up.
const TURNS: u64 = 1_000_000;

/// A gate that delays nobody.
pub struct Open;

impl Gate for Open {
    fn enter(&self, _worker: usize, _index: usize) {}

    fn left(&self, _worker: usize, _index: usize) {}
}

/// A gate that delays a worker's call until a call of another worker has its reply, for so many
/// turns at most.
#[derive(Drop)]
pub struct Ongoing {
    call: (usize, usize),
    until: (usize, usize),
    is_left: AtomicU64,
    is_late: AtomicU64,
}

impl Ongoing {
    /// A gate that delays `call` until `until` has its reply.
    pub fn new(call: (usize, usize), until: (usize, usize)) -> Ongoing {
        Ongoing {
            call,
            until,
            is_left: AtomicU64::new(0),
            is_late: AtomicU64::new(0),
        }
    }

    /// The call that it delays, as worker and index.
    pub fn held(&self) -> (usize, usize) {
        self.call
    }

    /// The call that it waits for.
    pub fn awaited(&self) -> (usize, usize) {
        self.until
    }

    /// Whether it gave up.
    pub fn is_late(&self) -> bool {
        self.is_late.load(Ordering::SeqCst) == 1
    }
}

impl Gate for Ongoing {
    fn enter(&self, worker: usize, index: usize) {
        if (worker, index) != self.call {
            return;
        }
        for _ in 0..TURNS {
            if self.is_left.load(Ordering::SeqCst) == 1 {
                return;
            }
            thread::yield_now();
        }
        self.is_late.store(1, Ordering::SeqCst);
    }

    fn left(&self, worker: usize, index: usize) {
        if (worker, index) == self.until {
            self.is_left.store(1, Ordering::SeqCst);
        }
    }
}

// How many calls of a worker were entered and left, and whether one came out of its order.
#[derive(Drop)]
struct Steps {
    entered: AtomicU64,
    left: AtomicU64,
    is_wrong: AtomicU64,
}

impl Steps {
    fn new() -> Steps {
        Steps {
            entered: AtomicU64::new(0),
            left: AtomicU64::new(0),
            is_wrong: AtomicU64::new(0),
        }
    }

    // Whether so many calls were entered and so many left.
    fn are(&self, entered: u64, left: u64) -> bool {
        self.entered.load(Ordering::SeqCst) == entered && self.left.load(Ordering::SeqCst) == left
    }

    fn enter(&self, index: u64) {
        if !self.are(index, index) {
            self.is_wrong.store(1, Ordering::SeqCst);
        }
        self.entered
            .store(index.saturating_add(1), Ordering::SeqCst);
    }

    fn leave(&self, index: u64) {
        if !self.are(index.saturating_add(1), index) {
            self.is_wrong.store(1, Ordering::SeqCst);
        }
        self.left.store(index.saturating_add(1), Ordering::SeqCst);
    }

    // Whether so many calls were entered and left, each in its turn.
    fn are_whole(&self, count: u64) -> bool {
        self.are(count, count) && self.is_wrong.load(Ordering::SeqCst) == 0
    }
}

/// Notes the calls of two workers, and holds nobody back.
#[derive(Drop)]
pub struct Noted {
    first: Steps,
    second: Steps,
}

impl Noted {
    pub fn new() -> Noted {
        Noted {
            first: Steps::new(),
            second: Steps::new(),
        }
    }

    /// Whether each worker entered and left so many calls, each in its turn.
    pub fn are_whole(&self, first: u64, second: u64) -> bool {
        self.first.are_whole(first) && self.second.are_whole(second)
    }
}

impl Gate for Noted {
    fn enter(&self, worker: usize, index: usize) {
        match worker {
            0 => self.first.enter(index as u64),
            _ => self.second.enter(index as u64),
        }
    }

    fn left(&self, worker: usize, index: usize) {
        match worker {
            0 => self.first.leave(index as u64),
            _ => self.second.leave(index as u64),
        }
    }
}

// Waits until a flag is set, for so many turns at most, and answers whether it was.
fn comes(flag: &AtomicU64) -> bool {
    for _ in 0..TURNS {
        if flag.load(Ordering::SeqCst) == 1 {
            return true;
        }
        thread::yield_now();
    }
    false
}

/// Holds a worker back once its call was answered, until a call of another worker is answered, which is
/// held back until then.
#[derive(Drop)]
pub struct Between {
    call: (usize, usize),
    until: (usize, usize),
    is_answered: AtomicU64,
    is_left: AtomicU64,
    is_late: AtomicU64,
}

impl Between {
    pub fn new(call: (usize, usize), until: (usize, usize)) -> Between {
        Between {
            call,
            until,
            is_answered: AtomicU64::new(0),
            is_left: AtomicU64::new(0),
            is_late: AtomicU64::new(0),
        }
    }

    /// The call after which it holds its worker back.
    pub fn held(&self) -> (usize, usize) {
        self.call
    }

    /// The call that it waits for.
    pub fn awaited(&self) -> (usize, usize) {
        self.until
    }

    /// Whether it gave up.
    pub fn is_late(&self) -> bool {
        self.is_late.load(Ordering::SeqCst) == 1
    }

    fn wait(&self, flag: &AtomicU64) {
        if !comes(flag) {
            self.is_late.store(1, Ordering::SeqCst);
        }
    }
}

impl Gate for Between {
    fn enter(&self, worker: usize, index: usize) {
        if (worker, index) == self.until {
            self.wait(&self.is_answered);
        }
    }

    fn left(&self, worker: usize, index: usize) {
        if (worker, index) == self.until {
            self.is_left.store(1, Ordering::SeqCst);
        }
        if (worker, index) == self.call {
            self.is_answered.store(1, Ordering::SeqCst);
            self.wait(&self.is_left);
        }
    }
}
