// The machine that the sample "injection" is of: its registers, its address structure and a trigger table, in memory.
ghost use Rattle.std.specs.Prelude.{None};
ghost use Rattle.apei_mem_bus.specs.MemBus.{failed_of};

use crate::{InjectError, Injected, Place, Request};
use apei_base::{Bus, BusFault, Region, Space};
use apei_mem_bus::MemBus;
use std::alloc::Global;
use std::test::Fail;

// The registers that tell where the trigger table is, which types there are, and the status, with busy in its bit 0.
pub(super) const TRIGGER: u64 = 0x7e00_0000;

pub(super) const TYPES: u64 = 0x7e00_000c;

pub(super) const STATUS: u64 = 0x7e00_0010;

// Where the trigger table begins, and where the cells that its entries write.
const TABLE: u64 = 0x1_0000;

const TRIGGERED: u64 = 0x2_0000;

// Its registers and the address structure behind them, the port, the trigger table, and the cells that this writes.
const RUNS: [(Space, u64, u32); 4] = [
    (Space::Memory, TRIGGER, 0x64),
    (Space::Port, 0xb2, 1),
    (Space::Memory, TABLE, 80),
    (Space::Memory, TRIGGERED, 8),
];

// The port that executes, and the two cells that a trigger table writes.
pub(super) const EXECUTED: Region = Region {
    space: Space::Port,
    address: 0xb2,
    width: 8,
};

pub(super) const FIRST: Region = Region {
    space: Space::Memory,
    address: TRIGGERED,
    width: 32,
};

pub(super) const SECOND: Region = Region {
    space: Space::Memory,
    address: TRIGGERED + 4,
    width: 32,
};

// The error type in the address structure.
pub(super) const ERROR_TYPE: Region = Region {
    space: Space::Memory,
    address: 0x7e00_0040,
    width: 32,
};

// A correctable error of memory, in memory and where the firmware chooses.
pub(super) const IN_MEMORY: Request = Request {
    error: 8,
    place: Place::Memory {
        address: 0x12_3456_7000,
        mask: 0xffff_ffff_ffff_f000,
    },
};

pub(super) const NOWHERE: Request = Request {
    error: 8,
    place: Place::Nowhere,
};

// What an injection ends with.
pub(super) type End = Result<Injected, InjectError>;

pub(super) const DONE: End = Ok(Injected { busy_reads: 0 });

// The header of a trigger table: the size that it states for itself, its revision, the size of the table, and how many
// entries there are.
pub(super) type Header = (u32, u32, u32, u32);

// The action and the instruction of an entry of a trigger table, and the space of its register.
pub(super) type Piece = (u8, u8, u8);

// Writes the entry at an index of the trigger table. Its register is the cell of that index, and its value 1.
fn write_entry(bus: &mut MemBus, index: u8, piece: &Piece) -> Result<(), BusFault> {
    let (action, instruction, space) = *piece;
    let at = TABLE + 16 + 32 * u64::from(index);
    let head = u64::from_le_bytes([action, instruction, 0, 0, space, 32, 0, 3]);
    bus.write(&Region::memory(at, 64), head)?;
    let cell = TRIGGERED + 4 * u64::from(index);
    bus.write(&Region::memory(at + 8, 64), cell)?;
    bus.write(&Region::memory(at + 16, 64), 1)?;
    bus.write(&Region::memory(at + 24, 64), 0xffff_ffff)
}

// The machine with this trigger table, of two entries: it has all types, and all else is 0.
pub(super) fn with_table(
    alloc: Global,
    header: &Header,
    pieces: &[Piece; 2],
) -> Result<MemBus, Fail> {
    let mut bus = MemBus::new(alloc, &RUNS, &[])?;
    bus.write(&Region::memory(TRIGGER, 64), TABLE)?;
    bus.write(&Region::memory(TYPES, 32), 0xfff)?;
    let (header_size, revision, size, count) = *header;
    bus.write(&Region::memory(TABLE, 32), u64::from(header_size))?;
    bus.write(&Region::memory(TABLE + 4, 32), u64::from(revision))?;
    bus.write(&Region::memory(TABLE + 8, 32), u64::from(size))?;
    bus.write(&Region::memory(TABLE + 12, 32), u64::from(count))?;
    write_entry(&mut bus, 0, &pieces[0])?;
    write_entry(&mut bus, 1, &pieces[1])?;
    Ok(bus)
}

// The machine whose trigger table has one entry, which writes the first cell.
pub(super) fn machine(alloc: Global) -> Result<MemBus, Fail> {
    with_table(alloc, &(16, 1, 48, 1), &[(0xff, 3, 0), (0, 0, 0)])
}

// A bus that answers so many reads of the status with busy, and passes on all else.
#[derive(Drop)]
pub(super) struct Slow {
    pub inner: MemBus,
    pub busy: u32,
}

impl Bus for Slow {
    ghost use Rattle.apei_base.specs.BusLaws.{untold_answers};

    ghost State = { Unit {0} };

    ghost state = { λ _. tt };

    ghost step = { λ _ _ _. Unit {0} };

    ghost cells = { λ _. None };

    ghost faults = { λ slow. failed_of slow.inner };

    ghost answers = { λ before after access step. untold_answers access };

    ghost unmapped = { λ before after access step. tt };

    fn read(&mut self, at: &Region) -> Result<u64, BusFault> {
        if at.address == STATUS && self.busy > 0 {
            self.busy -= 1;
            return Ok(1);
        }
        self.inner.read(at)
    }

    fn write(&mut self, at: &Region, value: u64) -> Result<(), BusFault> {
        self.inner.write(at, value)
    }

    fn copy(&mut self, address: u64, skip: usize, into: &mut [u8]) -> Result<(), BusFault> {
        self.inner.copy(address, skip, into)
    }
}
