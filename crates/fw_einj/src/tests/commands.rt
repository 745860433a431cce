// Single accesses of the port, in scripts.
use super::{CELL, Change, SETUP, TABLE, WHOLE, WITHOUT_8, machine, table};
use crate::{EinjPort, Setup};
use apei_base::{Bus, Region, Space};
use std::test::Fail;

// A register of the machine.
#[derive(Clone, Copy, Debug)]
enum At {
    /// The error type in the address structure.
    Kind,
    /// The register of action 2.
    SetType,
    /// The busy field, with the command status behind it.
    Status,
    /// Where the trigger table is told.
    Told,
    /// The port that begins.
    Execute,
    /// The trigger cell.
    Trigger,
}

impl At {
    fn region(self) -> Region {
        match self {
            At::Kind => Region::memory(0x7e00_0040, 32),
            At::SetType => Region::memory(0x7e00_0008, 32),
            At::Status => Region::memory(STATUS, 32),
            At::Told => Region::memory(0x7e00_0000, 64),
            At::Execute => Region {
                space: Space::Port,
                address: 0xb2,
                width: 8,
            },
            At::Trigger => Region::memory(CELL, 32),
        }
    }
}

// Where the register of busy and status is.
const STATUS: u64 = 0x7e00_0010;

// One access or look: a value is written, a value is to be read, a copy of the first two bytes of the status is to be so,
// and what was made is to be of this source and type.
#[derive(Clone, Copy, Debug)]
enum Step {
    Write(At, u64),
    Read(At, u64),
    Copy([u8; 2]),
    Made(Option<(usize, u32)>),
}

// Whether a step goes as it is told.
fn goes(port: &mut EinjPort, step: &Step) -> bool {
    match *step {
        Step::Write(at, value) => port.write(&at.region(), value).is_ok(),
        Step::Read(at, value) => port.read(&at.region()) == Ok(value),
        Step::Copy(want) => {
            let mut bytes = [0xee; 2];
            port.copy(STATUS, 0, &mut bytes).is_ok() && bytes == want
        }
        Step::Made(want) => {
            let made = port.take_made();
            made.map(|made| (made.source, made.injection.error)) == want
        }
    }
}

// The table, how many reads find the machine busy, and the steps.
#[rattlefmt::skip]
const SCRIPTS: [(Change, u32, &[Step]); 4] = [
    // Another value than that of the entry begins nothing. A copy counts no read, and each read of the register one; the
    // status, of 8 bits from bit 1 on, is in it too. Two types at once are refused with status 2.
    (WHOLE, 2, &[
        Step::Write(At::Kind, 8), Step::Write(At::Execute, 0x9b), Step::Read(At::Told, 0), Step::Write(At::Execute, 0x9a), Step::Read(At::Told, TABLE),
        Step::Copy([1, 0]), Step::Write(At::Status, 0xffff_ffff), Step::Read(At::Status, 0xffff_ffff), Step::Read(At::Status, 0xffff_ffff),
        Step::Read(At::Status, 0xffff_fffe), Step::Write(At::Kind, 3), Step::Write(At::Execute, 0x9a), Step::Read(At::Status, 0xffff_fe05),
    ]),
    // Nothing is armed: the cell keeps its 1. A write beside the cell triggers nothing, though it holds 1, and neither does
    // a 2. The type is the one of the command, and is told once.
    (WHOLE, 0, &[
        Step::Write(At::Trigger, 1), Step::Made(None), Step::Read(At::Trigger, 1), Step::Write(At::Kind, 8), Step::Write(At::Execute, 0x9a),
        Step::Write(At::Kind, 0x10), Step::Made(None), Step::Write(At::Trigger, 2), Step::Made(None), Step::Read(At::Trigger, 2),
        Step::Write(At::Trigger, 1), Step::Read(At::Trigger, 0), Step::Made(Some((2, 8))), Step::Write(At::Trigger, 1), Step::Made(None),
        Step::Read(At::Trigger, 1),
    ]),
    // A refused command ends the arming of an accepted one.
    (WHOLE, 0, &[
        Step::Write(At::Kind, 8), Step::Write(At::Execute, 0x9a), Step::Write(At::Kind, 0x1000), Step::Write(At::Execute, 0x9a),
        Step::Write(At::Trigger, 1), Step::Made(None),
    ]),
    // Without the address structure the type is the field of action 2, and the structure is not mapped.
    (WITHOUT_8, 0, &[
        Step::Write(At::SetType, 0x200), Step::Write(At::Execute, 0x9a), Step::Write(At::Trigger, 1), Step::Made(Some((0, 0x200))),
        Step::Write(At::Kind, 8), Step::Read(At::Kind, 0),
    ]),
];

#[test]
fn accesses_are_obeyed_one_by_one(rt: HostRuntime) -> Result<(), Fail> {
    for (change, busy, steps) in &SCRIPTS {
        let einj = table(rt.alloc(), *change)?;
        let setup = Setup {
            busy: *busy,
            ..SETUP
        };
        let mut port = machine(rt.alloc(), &einj, &setup)?;
        for step in *steps {
            assert!(rt; goes(&mut port, step), "{step:?}");
        }
    }
    Ok(())
}
