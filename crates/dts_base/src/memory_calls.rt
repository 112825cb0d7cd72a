ghost use Rattle.std.specs.Prelude.{◌≡◌, ◌↔◌, IfOk, IsTrue};
ghost use Rattle.dts_base.specs.Calls.{IsListed, after_call};

use crate::NoMemory;
use std::alloc::Global;
use std::marker::Model;

/// Calls that are numbered from 1, of which those of a list are to fail.
#[derive(Debug, Drop)]
pub(crate) struct NumberedCalls {
    next: u64,
    fail: Vec<u64>,
}

impl Model for NumberedCalls {
    ghost use Rattle.dts_base.specs.Calls.{Calls};

    ghost Value = { Calls };

    ghost view = { λ calls. record { next = calls.next; fail = calls.fail.items } };
}

impl NumberedCalls {
    /// No call was made yet, and those of these numbers are to fail.
    pub(crate) fn new(alloc: Global, fail: &[u64]) -> Result<NumberedCalls, NoMemory>
        ensures calls { IfOk result (λ calls. calls ≡ record { next = 1; fail = fail.now }) }
    {
        Ok(NumberedCalls {
            next: 1,
            fail: fail.to_vec(alloc)?,
        })
    }

    /// Counts a call, and answers whether it is to fail.
    pub(crate) fn count(&mut self) -> bool
        ensures listed { IsTrue result ↔ IsListed self.old }
        ensures counted { self.new ≡ after_call self.old }
    {
        let call = self.next;
        self.next = call.saturating_add(1);
        self.fail.contains(&call)
    }
}
