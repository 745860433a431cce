// Trigger tables that are refused, and those beside them that are run. What is wanted was worked out by hand.
use super::machine::{DONE, End, FIRST, Header, IN_MEMORY, Piece, SECOND, with_table};
use super::sample;
use crate::{Einj, InjectError};
use apei_base::Bus;
use std::alloc::Global;
use std::test::Fail;

// What an injection with this trigger table ends with, and what its two cells hold then.
fn told(
    alloc: Global,
    einj: &Einj,
    header: &Header,
    pieces: &[Piece; 2],
) -> Result<(End, u64, u64), Fail> {
    let mut bus = with_table(alloc, header, pieces)?;
    let end = einj.inject(&IN_MEMORY, &mut bus);
    Ok((end, bus.read(&FIRST)?, bus.read(&SECOND)?))
}

// An entry that writes its cell, one that does nothing, and one of another action.
const WRITE: Piece = (0xff, 3, 0);

const NONE: Piece = (0xff, 4, 2);

const OTHER: Piece = (0x80, 9, 2);

// The header and the two entries, and what is told.
#[rattlefmt::skip]
const TABLES: [(Header, [Piece; 2], (End, u64, u64)); 18] = [
    // The size of the header, which is tested first. The revision is not.
    ((12, 1, 48, 1), [WRITE, OTHER], (Err(InjectError::Trigger(1)), 0, 0)),
    ((20, 1, 15, 9), [WRITE, OTHER], (Err(InjectError::Trigger(1)), 0, 0)),
    ((16, 9, 48, 1), [WRITE, WRITE], (DONE, 1, 0)),
    // The size of the table.
    ((16, 1, 15, 0), [WRITE, OTHER], (Err(InjectError::Trigger(2)), 0, 0)),
    ((16, 1, 16, 0), [WRITE, OTHER], (DONE, 0, 0)),
    ((16, 1, 4097, 127), [WRITE, OTHER], (Err(InjectError::Trigger(2)), 0, 0)),
    // The count of the entries. So many as the last are 48 bytes in 32 bits.
    ((16, 1, 4096, 127), [WRITE, OTHER], (Err(InjectError::Trigger(3)), 0, 0)),
    ((16, 1, 4080, 127), [WRITE, OTHER], (DONE, 1, 0)),
    ((16, 1, 49, 1), [WRITE, OTHER], (Err(InjectError::Trigger(3)), 0, 0)),
    ((16, 1, 48, 0x800_0001), [WRITE, OTHER], (Err(InjectError::Trigger(3)), 0, 0)),
    // The instruction and the register of an entry.
    ((16, 1, 48, 1), [(0xff, 5, 2), OTHER], (Err(InjectError::Trigger(4)), 0, 0)),
    ((16, 1, 48, 1), [(0xff, 3, 2), OTHER], (Err(InjectError::Trigger(5)), 0, 0)),
    ((16, 1, 48, 1), [NONE, OTHER], (DONE, 0, 0)),
    ((16, 1, 48, 1), [OTHER, WRITE], (DONE, 0, 0)),
    // Two entries: the first is not run where the second is refused.
    ((16, 1, 80, 2), [WRITE, WRITE], (DONE, 1, 1)),
    ((16, 1, 80, 2), [WRITE, OTHER], (DONE, 1, 0)),
    ((16, 1, 80, 2), [WRITE, (0xff, 5, 0)], (Err(InjectError::Trigger(4)), 0, 0)),
    ((16, 1, 80, 2), [(0xff, 3, 2), (0xff, 5, 0)], (Err(InjectError::Trigger(5)), 0, 0)),
];

#[test]
fn a_trigger_table_is_refused_before_an_entry_is_run(rt: HostRuntime) -> Result<(), Fail> {
    let einj = sample(rt.alloc())?;
    for (header, pieces, want) in &TABLES {
        let told = told(rt.alloc(), &einj, header, pieces)?;
        assert_eq!(rt; told, *want, "{header:?} {pieces:?}");
    }
    Ok(())
}
