// A block of each class.
use crate::{Injection, injected_block};
use std::test::Fail;

// A correctable error of memory at an address, a fatal one of a processor, an uncorrectable one of PCIe, a fatal one of the
// platform, and an uncorrectable one of memory whose address is not named.
const INJECTIONS: [Injection; 5] = [
    Injection {
        error: 0x008,
        flags: 2,
        processor: 0,
        address: 0x1234_5678,
        mask: 0xffff_ffff_ffff_f000,
        pcie: 0,
    },
    Injection {
        error: 0x004,
        flags: 1,
        processor: 0x1234_5678,
        address: 0,
        mask: 0,
        pcie: 0,
    },
    Injection {
        error: 0x080,
        flags: 4,
        processor: 0,
        address: 0,
        mask: 0,
        pcie: 0xab12_5e77,
    },
    Injection {
        error: 0x800,
        flags: 0,
        processor: 0,
        address: 0,
        mask: 0,
        pcie: 0,
    },
    Injection {
        error: 0x010,
        flags: 5,
        processor: 7,
        address: 8,
        mask: 9,
        pcie: 10,
    },
];

// The header and the header of the entry, and then the section, as pairs of digits and of zeros behind them.
const BLOCKS: [[(&str, usize); 4]; 5] = [
    [
        (
            "12000000000000000000000090000000020000001411bca5646fde4eb8633e83ed7c83b1020000000102000050000000",
            36,
        ),
        ("0640000000000000", 8),
        ("785634120000000000f0ffffffffffff", 40),
        ("02", 7),
    ],
    [
        (
            "110000000000000000000000000100000100000\
            0adcc7698b447db4bb65e16f193c4f3db0100000001020000c0000000",
            36,
        ),
        ("0001000000000000", 144),
        ("7856341200000000", 32),
        ("", 0),
    ],
    [
        (
            "110000000000000000000000100100000000000054e995d9c1bb0f43ad91b44dcb3c6f350000000001020000d0000000",
            36,
        ),
        ("0800000000000000", 23),
        ("060bab0012", 172),
        ("", 0),
    ],
    [
        (
            "110000000000000000000000480000000100000\
            0520c1d6bf4983a4c8e0b2f7a51c0d9e3010000000102000008000000",
            36,
        ),
        ("0008000000000000", 0),
        ("", 0),
        ("", 0),
    ],
    [
        (
            "11000000000000000000000090000000000000001411bca5646fde4eb8633e83ed7c83b1000000000102000050000000",
            36,
        ),
        ("0040000000000000", 8),
        ("", 56),
        ("03", 7),
    ],
];

#[test]
fn a_block_of_each_class_has_these_bytes(rt: HostRuntime) -> Result<(), Fail> {
    for (injection, parts) in INJECTIONS.iter().zip(&BLOCKS) {
        let mut want = Vec::new(rt.alloc());
        for (digits, zeros) in parts {
            want.extend_from_slice(&hex::decode(rt.alloc(), digits)?)?;
            for _ in 0..*zeros {
                want.push(0)?;
            }
        }
        let block = injected_block(rt.alloc(), injection)?;
        assert_eq!(rt; block.as_slice(), want.as_slice(), "{injection:?}");
    }
    Ok(())
}
