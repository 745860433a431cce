// Which bytes are refused, and why.
use super::{LIMIT, Tell, right};
use crate::{Header, Malformed};
use std::test::Fail;

// Fronts of bytes: no byte, 19 bytes, a length of 12; lengths of 4,096 and 4,097, under a limit of 4,095, and in 4,095 bytes; data
// lengths of 0, 1 and 63, the last with a byte fewer too; raw offsets of 19 and 20, and 19 with a data length of 1; raw and data lengths
// of 0xffffffff, the last under the highest limit too; a fatal block, and one of the severity 4.
const FRONTS: &str = "00*0: 4096: 1 too short\n\
    00*19: 4096: 1 too short\n\
    0200000008000000040000000000000002000000: 4096: 1 too short\n\
    0200000014000000ec0f00000000000002000000*4096: 4096: a block\n\
    0200000014000000ed0f00000000000002000000*4097: 4096: 2 too long\n\
    0200000014000000ec0f00000000000002000000*4096: 4095: 2 too long\n\
    0200000014000000ec0f00000000000002000000*4095: 4096: 2 too long\n\
    0200000000000000000000000000000002000000: 4096: a block\n\
    0200000000000000000000000100000002000000*21: 4096: 3 data length\n\
    0200000000000000000000003f00000002000000*83: 4096: 3 data length\n\
    0200000000000000000000003f00000002000000*82: 4096: 2 too long\n\
    0200000013000000010000000000000002000000: 4096: 4 raw offset\n\
    0200000014000000010000000000000002000000*21: 4096: a block\n\
    0200000013000000020000000100000002000000*21: 4096: 3 data length\n\
    02000000ffffffffffffffff0000000002000000: 4096: 2 too long\n\
    020000000000000000000000ffffffff02000000: 4096: 2 too long\n\
    020000000000000000000000ffffffff02000000: 4294967295: 2 too long\n\
    0100000000000000000000000000000001000000: 4096: a block\n\
    0200000000000000000000000000000004000000: 4096: a block";

// Blocks with entries. The data length's first byte is at 12, the first entry's section length at 44, the second's at 112.
const ENTRIES: &str = "memory 12=144: 4096: a block\n\
    memory ffff 12=144: 4096: a block\n\
    memory 00 12=145: 4096: 6 left over\n\
    memory 44=81: 4096: 5 entry 0 truncated\n\
    two 112=4: 4096: a block\n\
    two 112=5: 4096: 5 entry 1 truncated";

#[test]
fn bytes_are_refused_for_their_first_reason(rt: HostRuntime) -> Result<(), Fail> {
    assert_eq!(rt; right(rt.alloc(), Tell::Block, FRONTS)?, 19);
    assert_eq!(rt; right(rt.alloc(), Tell::Block, ENTRIES)?, 6);
    Ok(())
}

// The raw offset, the raw length and the length of a header, and what it alone says of the block.
const HEADERS: [(u32, u32, u32, Result<u32, Malformed>); 5] = [
    (0, 0, 144, Ok(164)),
    (8, 4, 0, Err(Malformed::TooShort)),
    (20, 4077, 0, Err(Malformed::TooLong)),
    (0, 0, 63, Err(Malformed::DataLength)),
    (19, 1, 0, Err(Malformed::RawOffset)),
];

#[test]
fn a_header_is_refused_for_its_first_reason(rt: HostRuntime) -> Result<(), Fail> {
    for (raw_offset, raw_length, length, answer) in HEADERS {
        let header = Header {
            status: 2,
            raw_offset,
            raw_length,
            length,
            severity: 2,
        };
        assert_eq!(rt; header.check(LIMIT), answer);
    }
    Ok(())
}
