//! An engine that is not exact.

ghost use Rattle.std.specs.Prelude.{◌≡◌, ◌≤◌, [], IsTrue, OnOk, OnErr, IfOk, length, vec_len};
ghost use Rattle.std.specs.List.{AllByRecursion};
ghost use Rattle.dh_tree.specs.Tables.{Fits};

use dh_app::{Engine, Finish, NetEngine};
use dh_base::NoMemory;
use dh_net::Net;
use dh_tree::Memories;
use std::alloc::Global;

/// An engine that is not exact: it runs no clock.
#[derive(Drop)]
pub struct Idle {
    inner: NetEngine,
}

impl Idle {
    /// An engine without answers.
    pub fn new(alloc: Global) -> Idle {
        Idle {
            inner: NetEngine::new(alloc),
        }
    }
}

impl Engine for Idle {
    ghost use Rattle.std.specs.Prelude.{false};

    ghost seen = { λ e.
        record { exact = false; asked = e.inner.asked; answers = e.inner.answers } };

    fn finish(&mut self, net: &Net, sets: Vec<Memories>, _limit: u64) -> Result<(), NoMemory> {
        self.inner.finish(net, sets, 0)
    }

    fn answers(&self) -> &[Finish] {
        self.inner.answers()
    }
}
