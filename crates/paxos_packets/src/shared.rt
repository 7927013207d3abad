//! Bodies that their copies share.

ghost use Rattle.std.specs.Prelude.{◌≡◌, IfOk, IfErr};

use crate::body::{Body, Memory};
use std::alloc::{AllocFailed, Global};
use std::marker::Model;
use std::sync::Arc;

/// A body that is held once, however many votes, packets and logs have it: a copy adds a holder, not a body. In contracts it is the body
/// itself.
#[derive(Debug)]
pub struct Shared<T> {
    held: Arc<T>,
}

impl<T: Drop> Drop for Shared<T> {
    fn drop(self) {
        let Shared { held: _held } = self;
    }
}

impl<T> Model for Shared<T> {
    ghost use Rattle.std.specs.Arc.{arc_value};

    ghost Value = { T };

    ghost view = { λ shared. arc_value shared.held };
}

impl<T> Shared<T> {
    /// Holds the body, or gives it back if memory runs out.
    pub fn new(alloc: Global, body: T) -> Result<Shared<T>, AllocFailed<T>>
        ensures ok { IfOk result (λ shared. shared ≡ body) }
        ensures err { IfErr result (λ e. e.value ≡ body) }
    {
        Ok(Shared {
            held: Arc::new(alloc, body)?,
        })
    }

    /// Returns the body. Does not allocate.
    pub fn get(&self) -> &T
        ensures { result.now ≡ self.now }
    {
        &self.held
    }

    /// Adds a holder. Takes constant time, and does not allocate; returns `Memory` if no further holder can be counted.
    pub fn share(&self) -> Result<Shared<T>, Memory>
        ensures { IfOk result (λ copy. copy ≡ self.now) }
    {
        Ok(Shared {
            held: Arc::try_clone(&self.held)?,
        })
    }
}

impl<T: Body> Body for Shared<T> {
    ghost same = { T.same };

    fn copy(&self, _alloc: Global) -> Result<Shared<T>, Memory> {
        self.share()
    }

    fn same(&self, other: &Shared<T>) -> bool {
        self.get().same(other.get())
    }

    ghost reflexive = { T.reflexive };

    ghost sound = { T.sound };
}
