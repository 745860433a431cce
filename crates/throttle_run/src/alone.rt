//! A look while nothing is reported.
ghost use Rattle.std.specs.Prelude.{◌≡◌};
ghost use Rattle.ghes_throttle.specs.Reports.{hit};

use ghes_throttle::{ThrottleReader, ThrottleWriter};
use std::sync::Wait;

/// A reader that was told all, and looks where nothing is reported, answers by all the reports.
pub fn look_alone<R: Wait>(
    rt: &R,
    writer: &ThrottleWriter,
    reader: &mut ThrottleReader,
    bytes: &[u8],
    now: u64,
) -> Option<u64>
    requires one { reader.old.book ≡ writer.now.book }
    requires told { reader.old.list ≡ writer.now.list }
    ensures book { reader.new.book ≡ writer.now.book }
    ensures told { reader.new.list ≡ writer.now.list }
    ensures hit { result ≡ hit writer.now.list bytes.now now }
{
    let answer = reader.look(bytes, now);
    reader.learn(rt, &writer.tell());
    answer
}
