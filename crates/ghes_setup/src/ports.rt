//! The memory of the sources of a machine before the first line of a script.
ghost use Rattle.std.specs.Prelude.{◌≡◌, ◌<◌, length, slice_get, Some};
ghost use Rattle.fw_port.specs.Port.{seen};
ghost use Rattle.ghes_lines.specs.Run.{IsFresh, AreFresh};
ghost use Rattle.fw_port.specs.declared.port.SourcePort.{SourcePort};
ghost use Rattle.ghes_lines.specs.declared.machine.Source.{Source};
ghost use Rattle.ghes_setup.specs.Ports.{IsUntouched, AreUntouched, IsSetAt};

use fw_port::SourcePort;
use ghes_lines::{Machine, Source};

// Sets the read ack register of a source, where it has one.
fn set_cell(source: &Source, port: &mut SourcePort)
    requires { IsUntouched source.now (seen port.old) }
    ensures { IsFresh source.now (seen port.new) }
{
    if source.receive.ack.is_some() {
        port.set_ack_cell(source.cell);
    }
}

// Sets the read ack register of the source at a position, where it has one.
fn set_cell_at(sources: &[Source], ports: &mut Vec<SourcePort>, at: usize)
    requires within { at < length sources.now }
    requires there { at < length ports.old.items }
    requires untouched { (source : Source) (port : SourcePort) → slice_get sources.now at ≡ Some source
        → slice_get ports.old.items at ≡ Some port → IsUntouched source (seen port) }
    ensures { IsSetAt sources.now at ports.old.items ports.new.items }
{
    set_cell(&sources[at], &mut ports[at]);
}

/// The read ack register of each source of a machine holds what the settings say. That is no access.
pub fn set_cells(machine: &Machine, ports: &mut Vec<SourcePort>)
    requires { AreUntouched machine.now.sources.items ports.old.items }
    ensures { AreFresh seen machine.now ports.new.items }
{
    for at in 0..ports.len() {
        set_cell_at(&machine.sources, ports, at);
    }
}
