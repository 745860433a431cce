// Injections by the table, through the port.
use super::{BUSY_IS_0, Change, READ, SETUP, WHOLE, WITHOUT_8, machine, table};
use crate::{Injection, Made, Setup};
use apei_einj::{InjectError, Injected, Place, Request, is_error_type};
use std::test::Fail;

// The types, with the source that tells each.
const TYPES: [(u32, usize); 12] = [
    (0x001, 3),
    (0x002, 3),
    (0x004, 3),
    (0x008, 2),
    (0x010, 2),
    (0x020, 2),
    (0x040, 1),
    (0x080, 1),
    (0x100, 1),
    (0x200, 0),
    (0x400, 0),
    (0x800, 0),
];

// The places, with what the machine is told: flags, processor, address, mask and PCIe word.
const PLACES: [(Place, (u32, u32, u64, u64, u32)); 4] = [
    (Place::Nowhere, (0, 0, 0, 0, 0)),
    (
        Place::Memory {
            address: 0x12_3456_7000,
            mask: 0xffff_ffff_ffff_f000,
        },
        (2, 0, 0x12_3456_7000, 0xffff_ffff_ffff_f000, 0),
    ),
    (Place::Processor(0x89ab_cdef), (1, 0x89ab_cdef, 0, 0, 0)),
    (Place::Pcie(0xab12_5e00), (4, 0, 0, 0, 0xab12_5e00)),
];

// The request of a type and a place. A number that is no error type is refused as one that no machine has.
fn request(error: u32, place: Place) -> Result<Request, InjectError> {
    if !is_error_type(error) {
        return Err(InjectError::NotAvailable);
    }
    Ok(Request { error, place })
}

#[test]
fn each_type_at_each_place_makes_one_block_for_its_source(rt: HostRuntime) -> Result<(), Fail> {
    let einj = table(rt.alloc(), WHOLE)?;
    let mut port = machine(rt.alloc(), &einj, &SETUP)?;
    for (error, source) in TYPES {
        for (place, (flags, processor, address, mask, pcie)) in PLACES {
            let end = einj.inject(&request(error, place)?, &mut port);
            assert_eq!(rt; end, Ok(Injected { busy_reads: 0 }), "{error} {place:?}");
            let injection = Injection {
                error,
                flags,
                processor,
                address,
                mask,
                pcie,
            };
            assert_eq!(rt;
                port.take_made(),
                Some(Made { source, injection }),
                "{error} {place:?}"
            );
            assert_eq!(rt; port.made(), None);
        }
    }
    Ok(())
}

// What an injection ends with.
type End = Result<Injected, InjectError>;

// The table, the setup in parts (available, busy, status), and what an injection of a memory error ends with.
#[rattlefmt::skip]
const ENDS: [(Change, (u32, u32, u8), End); 16] = [
    (WHOLE, (0xfff, 0, 0), Ok(Injected { busy_reads: 0 })),
    (WHOLE, (0x008, 1, 0), Ok(Injected { busy_reads: 1 })),
    (WHOLE, (0xfff, 999, 0), Ok(Injected { busy_reads: 999 })),
    (WHOLE, (0xfff, 1000, 0), Err(InjectError::Busy)),
    (WHOLE, (0xff7, 0, 0), Err(InjectError::NotAvailable)),
    (WHOLE, (0, 0, 0), Err(InjectError::NotAvailable)),
    (WHOLE, (0xfff, 0, 1), Err(InjectError::Status(1))),
    (WHOLE, (0xfff, 2, 2), Err(InjectError::Status(2))),
    (WHOLE, (0xfff, 0, 255), Err(InjectError::Status(255))),
    (WHOLE, (0xfff, 1000, 255), Err(InjectError::Busy)),
    (WITHOUT_8, (0xfff, 3, 0), Ok(Injected { busy_reads: 3 })),
    (READ, (0xfff, 0, 0), Ok(Injected { busy_reads: 0 })),
    (READ, (0xfff, 2, 0), Ok(Injected { busy_reads: 2 })),
    (BUSY_IS_0, (0xfff, 0, 0), Ok(Injected { busy_reads: 0 })),
    (BUSY_IS_0, (0xfff, 2, 0), Ok(Injected { busy_reads: 2 })),
    (BUSY_IS_0, (0xfff, 1000, 0), Err(InjectError::Busy)),
];

#[test]
fn an_injection_ends_as_the_machine_is_set_up(rt: HostRuntime) -> Result<(), Fail> {
    for (change, (available, busy, status), want) in ENDS {
        let einj = table(rt.alloc(), change)?;
        let setup = Setup {
            available,
            busy,
            status,
            routes: SETUP.routes,
        };
        let mut port = machine(rt.alloc(), &einj, &setup)?;
        let end = einj.inject(&request(0x008, Place::Nowhere)?, &mut port);
        assert_eq!(rt; end, want, "{change:?} {available} {busy} {status}");
        assert_eq!(rt;
            port.made().is_some(),
            want.is_ok(),
            "{available} {busy} {status}"
        );
    }
    Ok(())
}
