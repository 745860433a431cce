// The machine of the sample "injection" of docs/FORMATS.md. What is wanted was worked out by hand.
mod blocks;
mod commands;
mod injections;

use crate::{EinjPort, Setup};
use apei_einj::Einj;
use std::alloc::Global;
use std::test::Fail;

// The headers of the sample: the common one, and the injection header.
const HEADERS: &str = "45494e4a5001000001714748455352545245504c41593031010000004748455301000000\
    300000000000000009000000";

// Its nine entries, of the actions 0 to 8.
const ENTRIES: &str = "0004000000000000000000000000000000000000000000000000000000000000\
    01000000004000040000007e000000000000000000000000ffffffffffffffff\
    02020000002000030800007e000000000000000000000000ffffffff00000000\
    03000000002000030c00007e000000000000000000000000ffffffff00000000\
    0404000000000000000000000000000000000000000000000000000000000000\
    0503000001080001b2000000000000009a00000000000000ff00000000000000\
    06010000002000031000007e0000000001000000000000000100000000000000\
    07000000000801031000007e000000000000000000000000ff00000000000000\
    08020000002000034000007e000000000000000000000000ffffffff00000000";

// A byte of the sample that is another, by its offset, and the checksum then.
type Change = (usize, u8, u8);

// The sample itself.
const WHOLE: Change = (304, 8, 0x71);

// Without the address structure: its last entry is of action 9.
const WITHOUT_8: Change = (304, 9, 0x70);

// The busy field is read, and not compared: the instruction of action 6 is 0.
const READ: Change = (241, 0, 0x72);

// The machine is busy where the busy field is 0: the value of action 6.
const BUSY_IS_0: Change = (256, 0, 0x72);

// The sample with a byte changed.
fn table(alloc: Global, (at, byte, checksum): Change) -> Result<Einj, Fail> {
    let mut bytes = hex::decode(alloc, HEADERS)?;
    bytes.extend_from_slice(&hex::decode(alloc, ENTRIES)?)?;
    if let Some(place) = bytes.get_mut(at) {
        *place = byte;
    }
    if let Some(place) = bytes.get_mut(9) {
        *place = checksum;
    }
    Ok(Einj::read(alloc, &bytes)?)
}

// Where the trigger table and the trigger cell are.
const TABLE: u64 = 0x1001_0000;

const CELL: u64 = 0x1002_0000;

// All types can be injected, at once, and a source of its own tells each class.
const SETUP: Setup = Setup {
    available: 0xfff,
    busy: 0,
    status: 0,
    routes: [3, 2, 1, 0],
};

// The machine of a table, set up.
fn machine(alloc: Global, einj: &Einj, setup: &Setup) -> Result<EinjPort, Fail> {
    let mut port = EinjPort::new(alloc, einj, TABLE, CELL)?;
    port.set(setup);
    Ok(port)
}
