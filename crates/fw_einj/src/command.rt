//! What the machine does after a command: it acts on the error type that it is told.
ghost use Rattle.std.specs.Prelude.{◌≡◌, ◌<◌, ◌^◌, ◌+◌, ◌==◌, if◌then◌else◌};
ghost use Rattle.std.specs.Bool.{OnTrue};
ghost use Rattle.apei_base.specs.Bus.{reach_of, value_at};
ghost use Rattle.apei_einj.specs.Part.{memory_reach};
ghost use Rattle.apei_einj.specs.Request.{is_error_type};
ghost use Rattle.fw_cells.specs.Runs.{cells_of};
ghost use Rattle.fw_einj.specs.Machine.{machine_of, table_bytes, told_at};

use crate::board::Asked;
use crate::field::shares;
use crate::{EinjPort, Injection};
use apei_base::Region;
use apei_einj::{address_structure, is_error_type};
use fw_cells::Cells;

// How many bytes the trigger table has.
const TABLE: usize = 48;

// The trigger table, with the address of the trigger cell.
fn table_bytes(cell: u64) -> [u8; TABLE]
    ensures { result ≡ table_bytes cell }
{
    let mut bytes = [
        16, 0, 0, 0, 1, 0, 0, 0, 48, 0, 0, 0, 1, 0, 0, 0, 0xff, 3, 0, 0, 0, 32, 0, 3, 0, 0, 0, 0,
        0, 0, 0, 0, 1, 0, 0, 0, 0, 0, 0, 0, 0xff, 0xff, 0xff, 0xff, 0, 0, 0, 0,
    ];
    bytes[24..32].copy_from_slice(&cell.to_le_bytes());
    bytes
}

// Whether a number is an error type.
fn is_type(number: u64) -> bool
    ensures value { result ≡ is_error_type number }
    ensures small { OnTrue result (number < 2 ^ 32) }
{
    match u32::try_from(number) {
        Ok(number) => is_error_type(number),
        Err(_) => false,
    }
}

// The 32 bits of memory at an offset from an address.
fn told_u32(cells: &Cells, at: u64, offset: u64) -> u32
    requires { at + offset < 2 ^ 64 }
    ensures { result ≡ told_at at offset 32 (cells_of cells.now) }
{
    cells.read(&Region::memory(at + offset, 32)) as u32
}

// The 64 bits of memory at an offset from an address.
fn told_u64(cells: &Cells, at: u64, offset: u64) -> u64
    requires { at + offset < 2 ^ 64 }
    ensures { result ≡ told_at at offset 64 (cells_of cells.now) }
{
    cells.read(&Region::memory(at + offset, 64))
}

impl Asked {
    ghost use Rattle.fw_einj.specs.Machine.{type_in, injection_in};

    // The error type that the machine is told.
    #[tactic(auto, unfolding(crate::specs::Machine::type_in))]
    fn kind(&self, cells: &Cells) -> u64
        ensures { result ≡ type_in self.now (cells_of cells.now) }
    {
        match self {
            Asked::Structure(structure) => cells.read(&Region::memory(structure.at, 32)),
            Asked::Field(register) => register.field(cells),
        }
    }

    // The fields that the machine is told, with the error type.
    #[tactic(auto, unfolding(crate::specs::Machine::injection_in))]
    fn injection(&self, error: u32, cells: &Cells) -> Injection
        ensures { result ≡ injection_in error self.now (cells_of cells.now) }
    {
        match self {
            Asked::Structure(structure) => Injection {
                error,
                flags: told_u32(cells, structure.at, address_structure::FLAGS),
                processor: told_u32(cells, structure.at, address_structure::PROCESSOR),
                address: told_u64(cells, structure.at, address_structure::ADDRESS),
                mask: told_u64(cells, structure.at, address_structure::MASK),
                pcie: told_u32(cells, structure.at, address_structure::PCIE),
            },
            Asked::Field(_) => Injection {
                error,
                flags: 0,
                processor: 0,
                address: 0,
                mask: 0,
                pcie: 0,
            },
        }
    }
}

impl EinjPort {
    ghost use Rattle.fw_einj.specs.Machine.{busy_value, idle_value, command_status, busy_begun, status_told, table_written, table_told, armed_with, disarmed, decided, acted_on, acted, is_begun, after_command, type_in};

    // The command status of an error type.
    fn command_status(&self, kind: u64) -> u8
        ensures value { result ≡ command_status self.now.setup kind }
        ensures small { result ≡ 0 → kind < 2 ^ 32 }
    {
        if self.setup.status != 0 {
            return self.setup.status;
        }
        if is_type(kind) { 0 } else { 2 }
    }

    // What the busy field is set to at first.
    fn first_value(&self) -> u64
        ensures { result ≡ (if self.now.setup.busy == 0 then idle_value self.now.board.busy
            else busy_value self.now.board.busy) }
    {
        if self.setup.busy == 0 {
            self.board.busy.idle_value()
        } else {
            self.board.busy.busy_value()
        }
    }

    // Becomes busy for as many reads as the setup says.
    fn begin_busy(&mut self)
        ensures { machine_of self.new ≡ busy_begun (machine_of self.old) }
    {
        let value = self.first_value();
        self.board.busy.set_field(&mut self.cells, value);
        self.busy = self.setup.busy;
    }

    // Tells the command status.
    fn tell_status(&mut self, status: u8)
        ensures { machine_of self.new ≡ status_told status (machine_of self.old) }
    {
        self.board
            .status
            .set_field(&mut self.cells, u64::from(status));
    }

    // Writes the trigger table.
    fn write_table(&mut self)
        ensures { machine_of self.new ≡ table_written (machine_of self.old) }
    {
        self.cells
            .put(self.board.table, &table_bytes(self.board.cell), TABLE);
    }

    // Tells where the trigger table is.
    fn tell_table(&mut self)
        ensures { machine_of self.new ≡ table_told (machine_of self.old) }
    {
        self.board
            .trigger
            .set_field(&mut self.cells, self.board.table);
    }

    // Is armed with an error type and the fields that it is told.
    fn arm(&mut self, error: u32)
        ensures { machine_of self.new ≡ armed_with error (machine_of self.old) }
    {
        self.armed = Some(self.board.asked.injection(error, &self.cells));
    }

    // Writes and tells the trigger table and is armed, where the command status is 0; else is not armed.
    #[tactic(auto, unfolding(crate::specs::Machine::decided, crate::specs::Machine::disarmed))]
    fn decide(&mut self, kind: u64, status: u8)
        requires { status ≡ 0 → kind < 2 ^ 32 }
        ensures { machine_of self.new ≡ decided kind status (machine_of self.old) }
    {
        if status == 0 {
            self.write_table();
            self.tell_table();
            self.arm(kind as u32);
        } else {
            self.armed = None;
        }
    }

    // Acts on an error type.
    #[tactic(auto, unfolding(crate::specs::Machine::acted, crate::specs::Machine::acted_on))]
    fn act(&mut self)
        ensures { machine_of self.new ≡ acted (machine_of self.old) }
    {
        let kind = self.board.asked.kind(&self.cells);
        let status = self.command_status(kind);
        self.begin_busy();
        self.tell_status(status);
        self.decide(kind, status);
    }

    // Whether a write to a region was a command.
    #[tactic(auto, unfolding(crate::specs::Machine::is_begun))]
    fn is_begun(&self, at: &Region) -> bool
        ensures { result ≡ is_begun (reach_of at.now) (machine_of self.now) }
    {
        let execute = self.board.execute;
        shares(at, &execute.region())
            && (execute.entry.instruction != 3
                || execute.field(&self.cells) == execute.entry.value & execute.entry.mask)
    }

    /// Acts, where a write to a region was a command.
    #[tactic(auto, unfolding(crate::specs::Machine::after_command))]
    pub(crate) fn obey(&mut self, at: &Region)
        ensures { machine_of self.new ≡ after_command (reach_of at.now) (machine_of self.old) }
    {
        if self.is_begun(at) {
            self.act();
        }
    }
}
