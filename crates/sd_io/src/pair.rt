use crate::gate::Gate;
use std::sync::atomic::{AtomicBool, Ordering};
use std::thread;

/// A gate that holds call 0 and call 1 each until the other one has entered, or until it has looked for the other so many times. It holds no
/// other call back.
///
/// By a test it shows that two workers were inside at once; no clause says when.
#[derive(Drop)]
pub struct Pair {
    looks: u64,
    first: Side,
    second: Side,
}

/// What is known of one of the two calls.
#[derive(Drop)]
struct Side {
    has_entered: AtomicBool,
    saw_other: AtomicBool,
}

impl Side {
    fn new() -> Side {
        Side {
            has_entered: AtomicBool::new(false),
            saw_other: AtomicBool::new(false),
        }
    }

    /// Enters, and looks so many times whether the other has.
    fn enter(&self, other: &Side, looks: u64) {
        self.has_entered.store(true, Ordering::SeqCst);
        for _ in 0..looks {
            if other.has_entered.load(Ordering::SeqCst) {
                self.saw_other.store(true, Ordering::SeqCst);
                return;
            }
            thread::yield_now();
        }
    }
}

impl Pair {
    /// A gate that neither of the two calls has entered, each of which looks so many times for the other.
    pub fn new(looks: u64) -> Pair {
        Pair {
            looks,
            first: Side::new(),
            second: Side::new(),
        }
    }

    /// Whether each of the two calls saw that the other had entered.
    pub fn met(&self) -> bool {
        self.first.saw_other.load(Ordering::SeqCst) && self.second.saw_other.load(Ordering::SeqCst)
    }
}

impl Gate for Pair {
    fn pass(&self, call: u64) {
        match call {
            0 => self.first.enter(&self.second, self.looks),
            1 => self.second.enter(&self.first, self.looks),
            _ => {}
        }
    }
}
