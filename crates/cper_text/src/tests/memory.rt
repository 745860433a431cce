// Want of memory: run with each allocation failing in turn.
use super::MEMORY;
use crate::{block_text, drop_text, report_text};
use cper_block::{Block, Malformed};
use std::test::Fail;

#[test]
fn want_of_memory_leaves_the_list_as_it_was(rt: HostRuntime) -> Result<(), Fail> {
    let alloc = rt.alloc();
    let bytes = hex::decode(alloc, MEMORY)?;
    Block::read(&bytes, 65536)?;
    let mut into = Vec::from_slice(alloc, b"before\n")?;
    if block_text(alloc, &mut into, &bytes).is_err() {
        assert!(rt; into.as_slice() == b"before\n".as_slice(), "a block");
    }
    into.truncate(7);
    if report_text(alloc, &mut into, 1, 2, &bytes).is_err() {
        assert!(rt; into.as_slice() == b"before\n".as_slice(), "a report");
    }
    into.truncate(7);
    if drop_text(alloc, &mut into, 1, 2, &Malformed::TooShort, &bytes).is_err() {
        assert!(rt; into.as_slice() == b"before\n".as_slice(), "a drop");
    }
    Ok(())
}
