// How many sources a table may have.
use super::{change, mend, put, structure, table, told};
use crate::Hest;
use std::alloc::Global;
use std::test::Fail;

// Sources like that of the sample with the ids from 0 on, of which one is not enabled, where there is one of its id.
fn sources(alloc: Global, count: u8, off: u8) -> Result<Vec<u8>, Fail> {
    let mut structures = Vec::new(alloc);
    for id in 0..count {
        let mut source = structure(alloc, "one")?;
        put(&mut source, ID, &[id]);
        if id == off {
            put(&mut source, ENABLED, &[0]);
        }
        structures.extend_from_slice(&source)?;
    }
    Ok(structures)
}

// Where fields stand in a structure.
const ID: usize = 2;

const ENABLED: usize = 7;

// How many lines `COUNT OFF: WORDS: TOLD` are right: of so many sources, in which one is not enabled, in a table that is changed.
fn right(alloc: Global, lines: &str) -> Result<usize, Fail> {
    let mut right = 0usize;
    for line in lines.split('\n') {
        let (front, rest) = line.split_once(": ").unwrap_or(("", ""));
        let (count, off) = front.split_once(' ').unwrap_or(("0", "0"));
        let (words, want) = rest.split_once(": ").unwrap_or(("", ""));
        let count = count.parse::<u8>()?;
        let structures = sources(alloc, count, off.parse::<u8>()?)?;
        let mut bytes = table(alloc, u32::from(count), &structures)?;
        change(alloc, &mut bytes, words)?;
        mend(&mut bytes);
        if told(alloc, &bytes)?.as_str() != want {
            return Ok(right);
        }
        right = right.saturating_add(1);
    }
    Ok(right)
}

// The 65th source begins at 4136. It is too many before its register, and behind its id and its type.
const COUNTED: &str = "64 255: : accepted\n\
    65 255: : 8 too many\n\
    65 0: : accepted\n\
    65 64: : accepted\n\
    66 30: : 8 too many\n\
    65 255: 4156=02: 8 too many\n\
    65 255: 4138=03: 5 source 3 twice\n\
    65 255: 4136=0c: 3 source type 12 at 4136";

#[test]
fn a_65th_enabled_source_is_too_many(rt: HostRuntime) -> Result<(), Fail> {
    assert_eq!(rt; right(rt.alloc(), COUNTED)?, 8);
    Ok(())
}

// How many sources a table has that says so many and has these structures.
fn found(alloc: Global, count: u32, structures: &[u8]) -> Result<usize, Fail> {
    let hest = Hest::read(alloc, &table(alloc, count, structures)?)?;
    Ok(hest.sources().len())
}

// So many structures of type 2.
fn of_type_2(alloc: Global, count: u32) -> Result<Vec<u8>, Fail> {
    let structure = structure(alloc, "02*20")?;
    let mut structures = Vec::new(alloc);
    for _ in 0..count {
        structures.extend_from_slice(&structure)?;
    }
    Ok(structures)
}

// So many structures of type 9 with the ids from 0 on, none of them enabled.
fn of_type_9(alloc: Global, count: u16) -> Result<Vec<u8>, Fail> {
    let mut structures = Vec::new(alloc);
    for id in 0..count {
        let mut structure = structure(alloc, "09*64")?;
        put(&mut structure, ID, &id.to_le_bytes());
        structures.extend_from_slice(&structure)?;
    }
    Ok(structures)
}

#[test]
fn a_table_of_1_mib_is_read(rt: HostRuntime) -> Result<(), Fail> {
    let shortest = of_type_2(rt.alloc(), 52_426)?;
    assert_eq!(rt; found(rt.alloc(), 52_426, &shortest)?, 52_426usize);
    let generic = of_type_9(rt.alloc(), 16_383)?;
    assert_eq!(rt; found(rt.alloc(), 16_383, &generic)?, 16_383usize);
    Ok(())
}
