// What is taken of a block under a limit.
use super::{Tell, right};
use std::test::Fail;

// A block of 21 bytes with 100 behind it; a fatal block whose last bytes are not there; one above the limit; data that is left over; no
// byte; and the largest block.
const IMAGES: &str = "0200000014000000010000000000000002000000*121: 4096: 21 false a block\n\
    0100000014000000280000000000000001000000*21: 4096: 60 true a block\n\
    0200000014000000ed0f00000000000004000000*4097: 4096: 20 true 2 too long\n\
    0200000000000000000000004100000002000000*85: 4096: 85 false 6 left over\n\
    00*0: 4096: 20 false a block\n\
    0200000014000000ecff00000000000002000000*65536: 65536: 65536 false a block";

#[test]
fn an_image_is_as_long_as_the_header_says_or_the_header_alone(rt: HostRuntime) -> Result<(), Fail> {
    assert_eq!(rt; right(rt.alloc(), Tell::Image, IMAGES)?, 6);
    Ok(())
}
