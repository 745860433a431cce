// Injections on the machine of the sample. What is wanted was worked out by hand.
use super::machine::{
    DONE, ERROR_TYPE, EXECUTED, End, FIRST, IN_MEMORY, NOWHERE, STATUS, Slow, TRIGGER, TYPES,
    machine,
};
use super::{changed, sample};
use crate::{Einj, InjectError, Injected, Request, is_error_type};
use apei_base::{Bus, Region, Space};
use apei_mem_bus::Faulty;
use std::alloc::Global;
use std::test::Fail;

// The register of action 2.
const SET_TYPE: Region = Region {
    space: Space::Memory,
    address: 0x7e00_0008,
    width: 32,
};

// What an injection ends with where a register of the machine holds a value, how many accesses that took, and what the
// register of action 2, the error type, the port and the first cell hold then.
fn told(
    alloc: Global,
    einj: &Einj,
    (register, value): (u64, u64),
    asked: &Request,
) -> Result<(End, u64, [u64; 4]), Fail> {
    let mut inner = machine(alloc)?;
    inner.write(&Region::memory(register, 32), value)?;
    let mut bus = Faulty::new(alloc, inner, &[])?;
    let end = einj.inject(asked, &mut bus);
    let accesses = bus.accesses();
    let mut inner = bus.into_inner();
    let cells = [
        inner.read(&SET_TYPE)?,
        inner.read(&ERROR_TYPE)?,
        inner.read(&EXECUTED)?,
        inner.read(&FIRST)?,
    ];
    Ok((end, accesses, cells))
}

// The action of the table's last entry, with the checksum: 8, of the address structure, or 9, of none.
const WHOLE: (u8, u8) = (8, 0x71);

const WITHOUT_8: (u8, u8) = (9, 0x70);

// The table, what a register holds, and what is asked; and what is told.
#[rattlefmt::skip]
const ENDS: [((u8, u8), (u64, u64), Request, (End, u64, [u64; 4])); 9] = [
    (WHOLE, (STATUS, 0), IN_MEMORY, (DONE, 14, [0, 8, 0x9a, 1])),
    (WHOLE, (STATUS, 0), NOWHERE, (DONE, 14, [0, 8, 0x9a, 1])),
    (WITHOUT_8, (STATUS, 0), NOWHERE, (DONE, 9, [8, 0, 0x9a, 1])),
    (WITHOUT_8, (STATUS, 0), IN_MEMORY, (Err(InjectError::NoAddress), 0, [0; 4])),
    (WHOLE, (TYPES, 1), IN_MEMORY, (Err(InjectError::NotAvailable), 1, [0; 4])),
    // Bit 0 is busy, and the status stands from bit 1 on. Where it is busy the status is not told.
    (WHOLE, (STATUS, 4), IN_MEMORY, (Err(InjectError::Status(2)), 10, [0, 8, 0x9a, 0])),
    (WHOLE, (STATUS, 1), IN_MEMORY, (Err(InjectError::Busy), 1008, [0, 8, 0x9a, 0])),
    (WHOLE, (STATUS, 5), IN_MEMORY, (Err(InjectError::Busy), 1008, [0, 8, 0x9a, 0])),
    // No table is there.
    (WHOLE, (TRIGGER, 0x3_0000), IN_MEMORY, (Err(InjectError::Trigger(1)), 12, [0, 8, 0x9a, 0])),
];

// What an injection ends with where the machine is busy so many times, and what the first cell holds then.
fn waited(alloc: Global, einj: &Einj, busy: u32) -> Result<(End, u64), Fail> {
    let mut bus = Slow {
        inner: machine(alloc)?,
        busy,
    };
    let end = einj.inject(&IN_MEMORY, &mut bus);
    Ok((end, bus.read(&FIRST)?))
}

// What is told where the last entry of the table has this action.
fn told_with(
    alloc: Global,
    (action, checksum): (u8, u8),
    held: (u64, u64),
    asked: &Request,
) -> Result<(End, u64, [u64; 4]), Fail> {
    let einj = Einj::read(alloc, &changed(alloc, 304, &[action], checksum)?)?;
    told(alloc, &einj, held, asked)
}

#[test]
fn an_injection_ends_at_the_first_refusal(rt: HostRuntime) -> Result<(), Fail> {
    for (last, held, asked, want) in &ENDS {
        let told = told_with(rt.alloc(), *last, *held, asked)?;
        assert_eq!(rt; told, *want, "{held:?} {asked:?}");
    }
    Ok(())
}

// How often the machine is busy; what an injection ends with, and what the first cell holds then.
const WAITS: [(u32, (End, u64)); 4] = [
    (0, (Ok(Injected { busy_reads: 0 }), 1)),
    (1, (Ok(Injected { busy_reads: 1 }), 1)),
    (999, (Ok(Injected { busy_reads: 999 }), 1)),
    (1000, (Err(InjectError::Busy), 0)),
];

#[test]
fn an_injection_waits_999_times(rt: HostRuntime) -> Result<(), Fail> {
    let einj = sample(rt.alloc())?;
    for (busy, want) in &WAITS {
        assert_eq!(rt; waited(rt.alloc(), &einj, *busy)?, *want, "{busy}");
    }
    Ok(())
}

// Each end in words.
const TEXTS: [(InjectError, &str); 6] = [
    (InjectError::NotAvailable, "not available"),
    (InjectError::Busy, "busy"),
    (InjectError::Status(2), "status 2"),
    (InjectError::Trigger(4), "trigger 4"),
    (InjectError::Fault, "fault"),
    (InjectError::NoAddress, "no address"),
];

// Numbers that are error types, and numbers that are none.
const TYPED: [u32; 12] = [
    1, 2, 4, 8, 0x10, 0x20, 0x40, 0x80, 0x100, 0x200, 0x400, 0x800,
];

const UNTYPED: [u32; 5] = [0, 3, 0x1000, 0x8000_0000, 0x8000_0008];

// Whether these numbers are error types, one and all.
fn are_error_types(numbers: &[u32]) -> bool {
    for number in numbers {
        if !is_error_type(*number) {
            return false;
        }
    }
    true
}

#[test]
fn an_error_type_is_one_of_twelve_bits(rt: HostRuntime) -> Result<(), Fail> {
    assert!(rt; are_error_types(&TYPED));
    for number in UNTYPED {
        assert!(rt; !is_error_type(number), "{number:x}");
    }
    Ok(())
}

#[test]
fn each_end_has_its_words(rt: HostRuntime) -> Result<(), Fail> {
    for (error, want) in &TEXTS {
        let text = error.to_string(rt.alloc())?;
        assert_eq!(rt; text.as_str(), *want);
    }
    Ok(())
}
