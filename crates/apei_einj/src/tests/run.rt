// The interpreter on cells that are known. What is wanted was worked out by hand.
use super::{ENTRIES, HEADERS, put};
use crate::instruction::run_entry;
use crate::{Einj, Entry, RunError};
use apei_base::{Bus, Gas, Region, Space};
use apei_mem_bus::{Faulty, MemBus};
use hex::FromHex;
use std::alloc::Global;
use std::test::Fail;

// Where the cells of these tests begin, in memory and in the ports.
const PLACE: u64 = 0x1000;

// The entry of these bytes of a register, its instruction and its flags.
fn entry_of(front: [u8; 6], mask: u64, value: u64) -> Entry {
    let [space, bit_width, bit_offset, access, instruction, flags] = front;
    Entry {
        at: 48,
        action: 2,
        instruction,
        flags,
        register: Gas {
            space,
            bit_width,
            bit_offset,
            access,
            address: PLACE,
        },
        value,
        mask,
    }
}

// Runs an entry on a value where the cells hold a number. Gives the value and the number then, if it is not refused.
fn run(alloc: Global, entry: &Entry, cell: u64, value: u64) -> Result<Option<(u64, u64)>, Fail> {
    let runs = [(Space::Memory, PLACE, 8), (Space::Port, PLACE, 8)];
    let mut bus = MemBus::new(alloc, &runs, &[])?;
    if entry.refusal().is_some() {
        return Ok(None);
    }
    // The eight cells as one region, in memory or in the ports.
    let mut place = Region::memory(PLACE, 64);
    if entry.register.space == 1 {
        place.space = Space::Port;
    }
    bus.write(&place, cell)?;
    let next = run_entry(entry, value, &mut bus)?;
    Ok(Some((next, bus.read(&place)?)))
}

// A row: the bytes of the register (space, bit width, bit offset, access size code), the instruction and the flags; the mask and the value
// of the entry; what the cells hold, and the value, before; and both after. All in hexadecimal.
//
// The field of 8 bits: written and kept, read, compared, written over, and written from the entry.
// No operation, with a register that is none.
const FIRST_ROWS: &str = "000804030201 ff 0 abcd1234 5a: abcd15a4 5a\n\
    000804030000 ff 0 abcd15a4 0: abcd15a4 5a\n\
    000804030100 ff 5a abcd15a4 0: abcd15a4 1\n\
    000804030100 ff 5b abcd15a4 7: abcd15a4 0\n\
    000804030200 ff 0 abcd15a4 5a: 5a0 5a\n\
    000804030301 ff 11 abcd1234 7: abcd1114 7\n\
    090102090401 ff 9 fedcba98abcd1234 77: fedcba98abcd1234 77";

// 8 bits: a value of more, a mask of more, the last bit, and a field behind it.
// Bit 1 of the flags says nothing.
const ROWS_OF_8: &str = "000800010200 ff 0 fedcba98abcd1234 1ab: fedcba98abcd12ab 1ab\n\
    000800010201 ffff 0 fedcba98abcd1234 5a5: fedcba98abcd12a5 5a5\n\
    000107010201 1 0 fedcba98abcd1234 ff: fedcba98abcd12b4 ff\n\
    000008010000 ff 0 fedcba98abcd1234 7: fedcba98abcd1234 0\n\
    000404010100 f 3 fedcba98abcd1234 7: fedcba98abcd1234 1\n\
    010305010301 7 a fedcba98abcd1234 9: fedcba98abcd1254 9\n\
    000404010202 f 0 fedcba98abcd1234 5: fedcba98abcd1250 5\n\
    000404010203 f 0 fedcba98abcd1234 5: fedcba98abcd1254 5";

// 16 bits: a field read, a mask with a gap, and ports.
// A port with no code is as wide as its field.
// 32 bits: the upper half of the mask alone, a mask of more than the field, and a whole register with the code for bytes.
const ROWS_OF_16: &str = "000c04020000 fff 0 fedcba98abcd1234 7: fedcba98abcd1234 123\n\
    000c04020201 f0f 0 fedcba98abcd1234 abc: fedcba98abcda2c4 abc\n\
    011000020300 ffff 1beef fedcba98abcd1234 3: fedcba98abcdbeef 3\n\
    010808020100 ff 13 fedcba98abcd1234 7: fedcba98abcd1234 0\n\
    010503000001 1f 0 fedcba98abcd1234 7: fedcba98abcd1234 6\n\
    012000030000 ffff0000 0 fedcba98abcd1234 7: fedcba98abcd1234 abcd0000\n\
    012000030200 ffff0000 0 fedcba98abcd1234 1deadbeef: fedcba98dead0000 1deadbeef\n\
    001010030000 ffffffff 0 fedcba98abcd1234 7: fedcba98abcd1234 abcd\n\
    002000010000 ffffffff 0 fedcba98abcd1234 7: fedcba98abcd1234 abcd1234";

// 64 bits: all of them, compared and written, none of them, and the last four.
// A field whose mask goes on behind the last bit, and one that begins behind it.
const ROWS_OF_64: &str =
    "004000040100 ffffffffffffffff fedcba98abcd1234 fedcba98abcd1234 7: fedcba98abcd1234 1\n\
    004000040201 ffffffffffffffff 0 fedcba98abcd1234 1234567: 1234567 1234567\n\
    004000040301 0 ffffffffffffffff fedcba98abcd1234 7: fedcba98abcd1234 7\n\
    00043c040201 f 0 fedcba98abcd1234 5: 5edcba98abcd1234 5\n\
    00043c040200 ff 0 fedcba98abcd1234 a5: 5000000000000000 a5\n\
    000040040000 ffffffffffffffff 0 fedcba98abcd1234 7: fedcba98abcd1234 0\n\
    000040040201 ffffffffffffffff 0 fedcba98abcd1234 5a: fedcba98abcd1234 5a\n\
    000040040200 ffffffffffffffff 0 fedcba98abcd1234 5a: 0 5a";

// The numbers of a text, in hexadecimal, as far as there are 4.
fn numbers(text: &str) -> Result<[u64; 4], Fail> {
    let mut found = [0u64; 4];
    for (place, word) in text.split_whitespace().enumerate() {
        if place < 4 {
            found[place] = u64::from_str_radix(word, 16)?;
        }
    }
    Ok(found)
}

// Whether the row `FRONT REST: LEFT NEXT` is right.
fn is_right(alloc: Global, front: &str, rest: &str) -> Result<bool, Fail> {
    let (before, after) = rest.split_once(": ").unwrap_or(("", ""));
    let [mask, value, cell, old] = numbers(before)?;
    let [left, next, _, _] = numbers(after)?;
    let entry = entry_of(<[u8; 6]>::from_hex(front)?, mask, value);
    Ok(run(alloc, &entry, cell, old)? == Some((next, left)))
}

// How many rows are right, up to the first that is not.
fn right(alloc: Global, rows: &str) -> Result<usize, Fail> {
    let mut count = 0usize;
    for row in rows.split('\n') {
        let (front, rest) = row.split_once(' ').unwrap_or(("", ""));
        if !is_right(alloc, front, rest)? {
            return Ok(count);
        }
        count = count.saturating_add(1);
    }
    Ok(count)
}

#[test]
fn each_instruction_does_what_its_row_says(rt: HostRuntime) -> Result<(), Fail> {
    assert_eq!(rt; right(rt.alloc(), FIRST_ROWS)?, 7);
    assert_eq!(rt; right(rt.alloc(), ROWS_OF_8)?, 8);
    assert_eq!(rt; right(rt.alloc(), ROWS_OF_16)?, 9);
    assert_eq!(rt; right(rt.alloc(), ROWS_OF_64)?, 8);
    Ok(())
}

// Two entries more of action 5: the field of 8 bits is written and kept, and read.
const FIELD_ENTRIES: &str = "050201000008040300100000000000000000000000000000ff00000000000000\
    050000000008040300100000000000000000000000000000ff00000000000000";

// The sample with these two entries behind its nine.
fn with_field(alloc: Global) -> Result<Vec<u8>, Fail> {
    let mut bytes = hex::decode(alloc, HEADERS)?;
    bytes.extend_from_slice(&hex::decode(alloc, ENTRIES)?)?;
    bytes.extend_from_slice(&hex::decode(alloc, FIELD_ENTRIES)?)?;
    put(&mut bytes, 4, &[0x90]);
    put(&mut bytes, 9, &[0xe6]);
    put(&mut bytes, 44, &[11]);
    Ok(bytes)
}

// Which access fails; what the action answers, and what the port and the cell then hold.
#[rattlefmt::skip]
const FAULTS: [(u64, Result<u64, RunError>, u64, u64); 5] = [
    (1, Err(RunError::Fault), 0, 0xabcd_1234),
    (2, Err(RunError::Fault), 0x9a, 0xabcd_1234),
    (3, Err(RunError::Fault), 0x9a, 0xabcd_1234),
    (4, Err(RunError::Fault), 0x9a, 0xabcd_15a4),
    (5, Ok(0x5a), 0x9a, 0xabcd_15a4),
];

const PORT: Region = Region {
    space: Space::Port,
    address: 0xb2,
    width: 8,
};

// What action 5 answers where an access fails, and what the port and the cell then hold.
fn told(
    alloc: Global,
    einj: &Einj,
    failing: u64,
) -> Result<(Result<u64, RunError>, u64, u64), Fail> {
    let cell = Region::memory(PLACE, 32);
    let runs = [(Space::Memory, PLACE, 4), (Space::Port, 0xb2, 1)];
    let mut inner = MemBus::new(alloc, &runs, &[])?;
    inner.write(&cell, 0xabcd_1234)?;
    let mut bus = Faulty::new(alloc, inner, &[failing])?;
    let answer = einj.run_action(5, 0x15a, &mut bus);
    let mut inner = bus.into_inner();
    Ok((answer, inner.read(&PORT)?, inner.read(&cell)?))
}

#[test]
fn an_action_ends_at_the_access_that_fails(rt: HostRuntime) -> Result<(), Fail> {
    let einj = Einj::read(rt.alloc(), &with_field(rt.alloc())?)?;
    for (failing, answer, set, left) in &FAULTS {
        let told = told(rt.alloc(), &einj, *failing)?;
        assert_eq!(rt; told, (*answer, *set, *left), "at {failing}");
    }
    Ok(())
}
