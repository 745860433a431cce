//! An output in memory.
ghost use Rattle.std.specs.Prelude.{◌≡◌, ◌≤◌, ◌↔◌, IfOk, IsErr, IsTrue, OnOk, OnErr};
ghost use Rattle.ghes_outside.specs.Outside.{Rose, Appends, AppendsFront};

use crate::{PutFailed, Sink};
use fault_plan::Plan;
use std::alloc::{AllocError, Global};
use std::marker::Model;

/// An output in memory, of a fixed room, some of whose puts are to fail.
///
/// The room is in bytes. Puts are numbered from 1. All memory is taken by `new`.
/// Source: own choice.
#[derive(Drop)]
pub struct MemSink {
    bytes: Vec<u8>,
    room: usize,
    plan: Plan,
    faults: u64,
}

impl Model for MemSink {
    ghost use Rattle.std.specs.Prelude.{vec_len, vec_capacity};
    ghost use Rattle.ghes_outside.specs.MemSink.{SinkState, IsWithinRoom};

    ghost Value = { SinkState };

    ghost view = { λ s. record { taken = s.bytes.items; room = s.room; calls = s.plan; faulted = s.faults } };

    ghost invariant = { λ s. IsWithinRoom (vec_len s.bytes) s.room (vec_capacity s.bytes) };
}

impl MemSink {
    ghost use Rattle.ghes_outside.specs.MemSink.{SinkState, empty_sink};

    /// An empty output. The puts whose numbers are in `failing` are to fail.
    pub fn new(alloc: Global, room: usize, failing: &[u64]) -> Result<MemSink, AllocError>
        ensures { IfOk result (λ sink. sink ≡ empty_sink room failing.now) }
    {
        Ok(MemSink {
            bytes: Vec::with_capacity(alloc, room)?,
            room,
            plan: Plan::new(alloc, failing)?,
            faults: 0,
        })
    }

    /// All bytes that were put, in order.
    pub fn written(&self) -> &[u8]
        ensures { result.now ≡ self.now.taken }
    {
        &self.bytes
    }
}

impl Sink for MemSink {
    ghost use Rattle.ghes_outside.specs.MemSink.{told_by, refuses, after_put, after_refusal};

    ghost seen = { told_by };

    /// Refuses a put that is to fail, and then one that would pass the room. A refused put writes nothing.
    ///
    /// It takes no memory.
    fn put(&mut self, bytes: &[u8]) -> Result<(), PutFailed>
        ensures ok { OnOk result (Appends (told_by self.old).written
            (told_by self.new).written bytes.now) }
        ensures err { OnErr result (AppendsFront (told_by self.old).written
            (told_by self.new).written bytes.now) }
        ensures cause { OnErr result (Rose self.old.faulted self.new.faulted) }
        ensures grows { self.old.faulted ≤ self.new.faulted }

        // A sink in memory says more: when it refuses, and all that each outcome changes.
        ensures refused { IsErr result ↔ IsTrue (refuses self.old bytes.now) }
        ensures put { OnOk result (self.new ≡ after_put self.old bytes.now) }
        ensures kept { OnErr result (self.new ≡ after_refusal self.old) }
    {
        let refused = self.plan.fails_next();
        if refused || bytes.len() > self.room - self.bytes.len() {
            self.faults = self.faults.saturating_add(1);
            return Err(PutFailed);
        }
        self.bytes.extend_from_slice(bytes).unwrap();
        Ok(())
    }
}
