//! The steps by which the writer publishes what it has changed.
ghost use Rattle.std.specs.Prelude.{◌≡◌, [], drop, fold, Some, if◌then◌else◌, IfOk};
ghost use Rattle.left_right.specs.Sides.{view};
ghost use Rattle.ghes_throttle.specs.declared.shown.Shown.{Shown};
ghost use Rattle.ghes_throttle.specs.Shown.{ShowsItsList, Follows, changed};

use crate::ruled::{Ruled, Sees};
use crate::shown::{Change, Line, Shown};
use left_right::writer::Writer;
use std::sync::Wait;

/// The writer of what is shown.
pub(crate) type ShownWriter = Writer<Shown, Change, Option<Shown>, Ruled>;

/// Publishes a line, and says whether it found memory. Else nothing changes.
pub(crate) fn show<R: Wait>(writer: ShownWriter, rt: &R, line: Line) -> (ShownWriter, bool)
    requires pending { drop writer.behind writer.log.items ≡ [] }
    requires places { ShowsItsList writer.desk.shown.value }
    requires seen { view writer.desk.place ≡ Some writer.desk.shown.value }
    requires follows { Follows writer.desk.shown.value line }
    ensures pending { drop result.0.behind result.0.log.items ≡ [] }
    ensures places { ShowsItsList result.0.desk.shown.value }
    ensures seen { view result.0.desk.place ≡ Some result.0.desk.shown.value }
    ensures block_len { result.0.desk.shown.value.cache.block_len ≡ writer.desk.shown.value.cache.block_len }
    ensures mark { result.0.desk.shown.value.mark ≡ (if result.1 then line.mark else writer.desk.shown.value.mark) }
{
    let mut writer = writer;
    match writer.append(Change::Put(line)) {
        Ok(()) => {
            let (writer, _shown) = writer.publish_as::<Sees, R>(rt);
            (writer, true)
        }
        Err(_) => (writer, false),
    }
}

// Publishes changes of nothing. Afterwards the writer has seen what is shown.
fn show_again<R: Wait>(writer: ShownWriter, rt: &R) -> ShownWriter
    requires { (s : Shown) → fold changed s (drop writer.behind writer.log.items) ≡ s }
    ensures pending { drop result.behind result.log.items ≡ [] }
    ensures shown { result.desk.shown.value ≡ writer.desk.shown.value }
    ensures seen { view result.desk.place ≡ Some result.desk.shown.value }
{
    let (writer, _shown) = writer.publish_as::<Sees, R>(rt);
    writer
}

/// Makes room for two changes, by two of nothing. Where memory runs out it gives back the writer.
pub(crate) fn warmed<R: Wait>(writer: ShownWriter, rt: &R) -> Result<ShownWriter, ShownWriter>
    requires pending { drop writer.behind writer.log.items ≡ [] }
    ensures pending { IfOk result (λ w. drop w.behind w.log.items ≡ []) }
    ensures shown { IfOk result (λ w. w.desk.shown.value ≡ writer.desk.shown.value) }
    ensures seen { IfOk result (λ w. view w.desk.place ≡ Some w.desk.shown.value) }
{
    let mut writer = writer;
    match writer.append(Change::Blank) {
        Ok(()) => {}
        Err(_) => return Err(writer),
    }
    match writer.append(Change::Blank) {
        Ok(()) => {}
        Err(_) => return Err(writer),
    }
    let writer = show_again(writer, rt);
    Ok(show_again(writer, rt))
}
