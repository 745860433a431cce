//! The standard output of the process.
ghost use Rattle.std.specs.Prelude.{OnOk};
ghost use Rattle.std.specs.Io.KnownBytes.{Appends};

use crate::{PutFailed, Sink};
use std::io;
use std::io::Write;

/// The standard output of the process.
///
/// It tells nothing of what was written. The count of faults starts at 0.
#[derive(Drop)]
pub struct HostSink<R> {
    rt: R,
    faults: u64,
}

impl<R> HostSink<R> {
    ghost use Rattle.std.specs.Prelude.{◌≡◌};
    ghost use Rattle.ghes_outside.specs.Host.{put_faults};

    /// The output that the runtime prints to. It takes no memory.
    pub fn new(rt: R) -> HostSink<R>
        ensures { put_faults result ≡ 0 }
    {
        HostSink { rt, faults: 0 }
    }
}

impl<R: Print> Sink for HostSink<R> {
    ghost use Rattle.ghes_outside.specs.Host.{sink_of_host};

    ghost seen = { sink_of_host };

    /// Hands all the bytes to the system before it returns, so that a full device is seen in this call.
    ///
    /// Source: own choice.
    fn put(&mut self, bytes: &[u8]) -> Result<(), PutFailed> {
        match write_whole(&mut io::writer(&self.rt), bytes) {
            Ok(()) => Ok(()),
            Err(_) => {
                self.faults = self.faults.saturating_add(1);
                Err(PutFailed)
            }
        }
    }
}

// Where a writer tells its bytes, `Ok` has put these behind those before.
fn write_whole<W: Write>(writer: &mut W, bytes: &[u8]) -> io::Result<()>
    ensures { OnOk result (Appends (W.contents writer.old) (W.contents writer.new) bytes.now) }
{
    writer.write_all(bytes)?;
    writer.flush()
}
