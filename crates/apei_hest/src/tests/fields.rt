// What the fields of an accepted table say.
use super::{gives, sample, sample_notify, table_of};
use crate::{Ack2, Ghes, Notify, Source};
use apei_base::Gas;
use std::test::Fail;

// The acknowledgement of the sample of version 2.
const SAMPLE_ACK: Ack2 = Ack2 {
    register: Gas {
        space: 0,
        bit_width: 32,
        bit_offset: 0,
        access: 3,
        address: 0x7f00_1000,
    },
    preserve: 0xffff_fffe,
    write: 1,
};

// Two sources of version 2 whose fields all have different values: a line for the front, the status address, the
// notification with the block length, and the acknowledgement.
const FULL: &str = "0a000102030405060708090a0b0c0d0e0f101112\
    011000021415161718191a1b\
    1c1d1e1f202122232425262728292a2b2c2d2e2f303132333435363738393a3b\
    001808033c3d3e3f404142434445464748494a4b4c4d4e4f50515253\
    0a008182838485868788898a8b8c8d8e8f909192\
    000503019495969798999a9b\
    9c9d9e9fa0a1a2a3a4a5a6a7a8a9aaabacadaeafb0b1b2b3b4b5b6b7b8b9babb\
    01200003bcbdbebfc0c1c2c3c4c5c6c7c8c9cacbcccdcecfd0d1d2d3";

// The samples have the checksums that docs/FORMATS.md gives.
#[test]
fn each_field_of_a_source_is_read_at_its_own_offset(rt: HostRuntime) -> Result<(), Fail> {
    let alloc = rt.alloc();
    let first = Source::Ghes(sample(1, 40, 0x7f00_0000, None));
    assert!(rt; gives(alloc, 1, "one 9=40", &[first])?);
    let alone = Source::Ghes(sample(2, 40, 0x7f00_0008, Some(SAMPLE_ACK)));
    assert!(rt; gives(alloc, 1, "two 9=6c", &[alone])?);
    let second = Source::Ghes(sample(2, 104, 0x7f00_0008, Some(SAMPLE_ACK)));
    assert!(rt; gives(alloc, 2, "one two 9=2d", &[first, second])?);
    let full = [Source::Ghes(full_first()), Source::Ghes(full_second())];
    assert!(rt; gives(alloc, 2, FULL, &full)?);
    Ok(())
}

// Any byte but 0 says that a source is enabled.
const ENABLED_BY: [(&str, bool); 4] = [
    ("one 47=00", false),
    ("one 47=01", true),
    ("one 47=02", true),
    ("one 47=ff", true),
];

#[test]
fn any_byte_but_0_enables_a_source(rt: HostRuntime) -> Result<(), Fail> {
    for (words, enabled) in ENABLED_BY {
        let mut want = sample(1, 40, 0x7f00_0000, None);
        want.enabled = enabled;
        assert!(rt; gives(rt.alloc(), 1, words, &[Source::Ghes(want)])?);
    }
    Ok(())
}

fn full_first() -> Ghes {
    Ghes {
        id: 0x0201,
        at: 40,
        related: 0x0403,
        flags: 0x05,
        enabled: true,
        records: 0x0a09_0807,
        sections: 0x0e0d_0c0b,
        raw: 0x1211_100f,
        status: Gas {
            space: 1,
            bit_width: 16,
            bit_offset: 0,
            access: 2,
            address: 0x1b1a_1918_1716_1514,
        },
        notify: Notify {
            kind: 0x1c,
            length: 0x1d,
            write_enable: 0x1f1e,
            poll: 0x2322_2120,
            vector: 0x2726_2524,
            poll_threshold: 0x2b2a_2928,
            poll_window: 0x2f2e_2d2c,
            error_threshold: 0x3332_3130,
            error_window: 0x3736_3534,
        },
        block_length: 0x3b3a_3938,
        ack: Some(Ack2 {
            register: Gas {
                space: 0,
                bit_width: 24,
                bit_offset: 8,
                access: 3,
                address: 0x4342_4140_3f3e_3d3c,
            },
            preserve: 0x4b4a_4948_4746_4544,
            write: 0x5352_5150_4f4e_4d4c,
        }),
    }
}

fn full_second() -> Ghes {
    Ghes {
        id: 0x8281,
        at: 132,
        related: 0x8483,
        flags: 0x85,
        enabled: true,
        records: 0x8a89_8887,
        sections: 0x8e8d_8c8b,
        raw: 0x9291_908f,
        status: Gas {
            space: 0,
            bit_width: 5,
            bit_offset: 3,
            access: 1,
            address: 0x9b9a_9998_9796_9594,
        },
        notify: Notify {
            kind: 0x9c,
            length: 0x9d,
            write_enable: 0x9f9e,
            poll: 0xa3a2_a1a0,
            vector: 0xa7a6_a5a4,
            poll_threshold: 0xabaa_a9a8,
            poll_window: 0xafae_adac,
            error_threshold: 0xb3b2_b1b0,
            error_window: 0xb7b6_b5b4,
        },
        block_length: 0xbbba_b9b8,
        ack: Some(Ack2 {
            register: Gas {
                space: 1,
                bit_width: 32,
                bit_offset: 0,
                access: 3,
                address: 0xc3c2_c1c0_bfbe_bdbc,
            },
            preserve: 0xcbca_c9c8_c7c6_c5c4,
            write: 0xd3d2_d1d0_cfce_cdcc,
        }),
    }
}

// A server's table: three machine checks and bridges with their bank counts, and two generic sources behind them with their ids, and
// the address and the notification of the second.
const SERVER: &str = "000000*152 010001*160 060002*48 070003*44 080004*56 one one \
    72=04 236=04 502=08 566=09 588=08 596=03";

fn skipped(kind: u16, id: u16, at: u32, length: u32) -> Source {
    Source::Skipped {
        kind,
        id,
        at,
        length,
    }
}

#[test]
fn a_servers_table_gives_seven_sources(rt: HostRuntime) -> Result<(), Fail> {
    assert_eq!(rt; table_of(rt.alloc(), 7, SERVER)?.len(), 628usize);
    let mut last = sample(9, 564, 0x7f00_0008, None);
    last.notify = sample_notify(3);
    let want = [
        skipped(0, 0, 40, 152),
        skipped(1, 1, 192, 160),
        skipped(6, 2, 352, 48),
        skipped(7, 3, 400, 44),
        skipped(8, 4, 444, 56),
        Source::Ghes(sample(8, 500, 0x7f00_0000, None)),
        Source::Ghes(last),
    ];
    assert!(rt; gives(rt.alloc(), 7, SERVER, &want)?);
    Ok(())
}
