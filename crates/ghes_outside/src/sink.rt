//! An output that takes bytes, and may fail.
ghost use Rattle.std.specs.Prelude.{◌≤◌, OnOk, OnErr};
ghost use Rattle.ghes_outside.specs.Outside.{SinkSeen, Rose, Appends, AppendsFront};

/// The output did not take all the bytes.
#[derive(Clone, Copy, Debug, PartialEq, Eq)]
pub struct PutFailed;

/// An output that takes bytes one after another.
pub trait Sink {
    /// What the output tells, where it tells it. The count of failed puts stays at 2^64 - 1 once it is there.
    ghost seen: { Self → SinkSeen };

    /// Puts the bytes behind those before. After a failure a front of them may have been taken.
    fn put(&mut self, bytes: &[u8]) -> Result<(), PutFailed>
        ensures ok { OnOk result (Appends (seen self.old).written
            (seen self.new).written bytes.now) }
        ensures err { OnErr result (AppendsFront (seen self.old).written
            (seen self.new).written bytes.now) }
        ensures cause { OnErr result (Rose (seen self.old).faults (seen self.new).faults) }
        ensures grows { (seen self.old).faults ≤ (seen self.new).faults };
}
