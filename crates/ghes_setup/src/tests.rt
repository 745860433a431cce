// Machines of the samples "two sources" and "injection" of docs/FORMATS.md. What is wanted was worked out by hand.
use crate::{Rig, read_script};
use apei_einj::{Einj, Place, Request};
use apei_hest::Hest;
use fw_sim::Platform;
use ghes_ledger::InjectionEnd;
use ghes_lines::{Injected, Injector};
use std::alloc::{AllocError, Global};
use std::test::Fail;

// A source of version 1 with the id 1, and one of version 2 with the id 2, whose read ack register has 32 bits.
const HEST: &str = "48455354c4000000012d4748455352545245504c415930310100000047484553\
    0100000002000000\
    09000100ffff0001010000000100000000000000004000040000007f00000000\
    041c0000000000000000000000000000000000000000000000000000\
    00100000\
    0a000200ffff0001010000000100000000000000004000040800007f00000000\
    041c0000000000000000000000000000000000000000000000000000\
    00100000\
    002000030010007f00000000\
    feffffff00000000\
    0100000000000000";

const EINJ: &str = "45494e4a5001000001714748455352545245504c41593031010000004748455301000000\
    300000000000000009000000\
    0004000000000000000000000000000000000000000000000000000000000000\
    01000000004000040000007e000000000000000000000000ffffffffffffffff\
    02020000002000030800007e000000000000000000000000ffffffff00000000\
    03000000002000030c00007e000000000000000000000000ffffffff00000000\
    0404000000000000000000000000000000000000000000000000000000000000\
    0503000001080001b2000000000000009a00000000000000ff00000000000000\
    06010000002000031000007e0000000001000000000000000100000000000000\
    07000000000801031000007e000000000000000000000000ff00000000000000\
    08020000002000034000007e000000000000000000000000ffffffff00000000";

// What no test comes to.
fn nothing<T>() -> Result<T, AllocError> {
    Err(AllocError)
}

// The machine of these tables and of a script.
fn rig(alloc: Global, text: &str) -> Result<Rig, Fail> {
    let hest = Hest::read(alloc, &hex::decode(alloc, HEST)?)?;
    let einj = Some(Einj::read(alloc, &hex::decode(alloc, EINJ)?)?);
    let platform = Platform::new(alloc, &hest, einj.as_ref())?;
    let bytes = text.as_bytes();
    if bytes.len() > 1000 {
        return Ok(nothing()?);
    }
    let script = read_script(alloc, &hest, true, bytes)?;
    Ok(Rig::new(alloc, &hest, einj, platform, script.lines())?)
}

// The contexts, the slots, which context serves each source, and what its read ack register holds.
fn told(alloc: Global, text: &str) -> Result<(u16, u8, [u16; 2], [Option<u64>; 2]), Fail> {
    let rig = rig(alloc, text)?;
    let [one, two] = rig.machine.sources.as_slice() else {
        return Ok(nothing()?);
    };
    let [first, second] = rig.ports.as_slice() else {
        return Ok(nothing()?);
    };
    Ok((
        rig.machine.contexts,
        rig.machine.slots,
        [one.server, two.server],
        [first.ack_cell(), second.ack_cell()],
    ))
}

#[test]
fn the_last_setting_of_a_kind_holds(rt: HostRuntime) -> Result<(), Fail> {
    let wanted = [
        ("", (1, 16, [0, 0], [None, Some(0)])),
        (
            "contexts 3\nserve 1 2\nserve 1 1\nslots 5\nackcell 2 0x1abcd00f0\nwork\n",
            (3, 5, [1, 1], [None, Some(0xabcd_00f0)]),
        ),
        (
            "contexts 2\ncontexts 1\nslots 2\nslots 64\n",
            (1, 64, [0, 0], [None, Some(0)]),
        ),
    ];
    for (text, row) in wanted {
        assert_eq!(rt; told(rt.alloc(), text)?, row, "at {text}");
    }
    Ok(())
}

// A corrected memory error.
const REQUEST: Request = Request {
    error: 8,
    place: Place::Nowhere,
};

// How an injection ends on the machine of a script: the source of its block and the block's length, or the end.
fn injected(
    alloc: Global,
    text: &str,
) -> Result<(Option<(u16, usize)>, Option<InjectionEnd>), Fail> {
    let mut rig = rig(alloc, text)?;
    Ok(match rig.injecting.inject(&REQUEST)? {
        Injected::Made { source, block } => (Some((source, block.as_slice().len())), None),
        Injected::Ended(end) => (None, Some(end)),
    })
}

#[test]
fn an_injection_is_answered_as_the_settings_say(rt: HostRuntime) -> Result<(), Fail> {
    let wanted = [
        ("", (Some((0, 164)), None)),
        (
            "busy 999\nroute memory 1\nroute memory 2\n",
            (Some((1, 164)), None),
        ),
        ("route processor 2\navailable 0x8\n", (Some((0, 164)), None)),
        ("available 0x7\n", (None, Some(InjectionEnd::NotAvailable))),
        ("busy 1000\n", (None, Some(InjectionEnd::Busy))),
        (
            "status 1\nstatus 2\n",
            (None, Some(InjectionEnd::Status(2))),
        ),
    ];
    for (text, row) in wanted {
        assert_eq!(rt; injected(rt.alloc(), text)?, row, "at {text}");
    }
    Ok(())
}
