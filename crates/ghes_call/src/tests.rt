use crate::{Buffer, Packet};
use std::test::Fail;

#[test]
fn a_buffer_holds_the_last_bytes_and_then_none(rt: HostRuntime) -> Result<(), Fail> {
    let mut packet = Packet::empty(rt.alloc(), 4)?;
    assert_eq!(rt; packet.bytes.as_slice(), b"".as_slice());
    packet.bytes.fill(b"abcd");
    assert_eq!(rt; packet.bytes.as_slice(), b"abcd".as_slice());
    packet.bytes.fill(b"e");
    assert_eq!(rt; packet.bytes.as_slice(), b"e".as_slice());
    packet.bytes.clear();
    assert_eq!(rt; packet.bytes.as_slice(), b"".as_slice());
    let buffer = Buffer::with_room(rt.alloc(), 0)?;
    assert_eq!(rt; buffer.as_slice(), b"".as_slice());
    Ok(())
}
