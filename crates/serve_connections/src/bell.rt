// The bell of a porter: its node rings it, and the porter's rest ends.
use mio::{Registry, Token, Waker};
use std::io;
use std::sync::atomic::{AtomicBool, Ordering};

// How a node wakes its porter. No call allocates or waits.
#[derive(Drop)]
pub(crate) struct Bell {
    waker: Waker,
    is_rung: AtomicBool,
    is_resting: AtomicBool,
}

impl Bell {
    // Returns a bell that ends rests at this registry by an event with this token.
    pub fn at(registry: &Registry, token: Token) -> io::Result<Bell> {
        Ok(Bell {
            waker: Waker::new(registry, token)?,
            is_rung: AtomicBool::new(false),
            is_resting: AtomicBool::new(false),
        })
    }

    // Wakes the porter: it rests no longer, or its next rest ends at once.
    pub fn ring(&self) {
        if self.is_rung.load(Ordering::SeqCst) {
            return;
        }
        self.is_rung.store(true, Ordering::SeqCst);
        if self.is_resting.load(Ordering::SeqCst) {
            let _rung = self.waker.wake();
        }
    }

    // Begins a rest. Returns whether the bell was rung since the last one, so that this one is to end at once.
    pub fn begin_rest(&self) -> bool {
        self.is_resting.store(true, Ordering::SeqCst);
        self.is_rung.load(Ordering::SeqCst)
    }

    // Ends a rest. Returns whether the bell was rung since the last one; what was put before that is found from now on.
    pub fn end_rest(&self) -> bool {
        self.is_resting.store(false, Ordering::SeqCst);
        self.is_rung.load(Ordering::SeqCst) && self.is_rung.swap(false, Ordering::SeqCst)
    }
}
