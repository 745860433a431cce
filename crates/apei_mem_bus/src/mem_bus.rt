//! A bus whose cells are in memory.
ghost use Rattle.std.specs.Prelude.{◌≡◌, ◌<◌, ◌≤◌, ◌+◌, ◌/◌, ◌%◌, ◌^◌, ℕ, Some, if◌then◌else◌, [], ◌∷◌, None, take, length, is_err, IfOk, OnOk, OnErr};
ghost use Rattle.std.specs.BTreeMap.{get};
ghost use Rattle.std.specs.Ordering.{nat_cmp};
ghost use Rattle.apei_mem_bus.specs.MemBus.{is_in_run, is_in_runs, with_bytes};
ghost use Rattle.apei_base.specs.Bus.{Reads, Copies, IsOneAccess, CountsFaults, reach_of, write_of};
ghost use Rattle.apei_base.specs.declared.region.Space.{Space};

use crate::Attempts;
use apei_base::{Bus, BusFault, Region, Space};
use byteorder::{ByteOrder, LittleEndian};
use std::alloc::{AllocError, Global};
use std::collections::BTreeMap;

/// A bus whose cells are in memory, some of whose accesses are to fail.
///
/// Accesses are numbered from 1, reads, writes and copies alike. A write replaces the mapped bytes of its region. One
/// that is to fail changes nothing. No access takes memory. Source: own choice.
#[derive(Drop)]
pub struct MemBus {
    memory: BTreeMap<u64, u8>,
    ports: BTreeMap<u64, u8>,
    attempts: Attempts,
}

// Maps the cells of a run, all 0.
fn map_run(bank: &mut BTreeMap<u64, u8>, first: u64, count: u32) -> Result<(), AllocError>
    ensures { OnOk result ((address : ℕ) → get nat_cmp bank.new address
        ≡ (if is_in_run first count address then Some 0 else get nat_cmp bank.old address)) }
{
    for step in 0..count {
        if let Ok(address) = u64::try_from(u128::from(first) + u128::from(step)) {
            bank.insert(address, 0)?;
        }
    }
    Ok(())
}

// Writes a byte to a cell, if it is mapped.
fn put_byte(bank: &mut BTreeMap<u64, u8>, at: u128, byte: u8)
    ensures { (address : ℕ)
        → get nat_cmp bank.new address ≡ with_bytes (get nat_cmp bank.old) at (byte ∷ []) address }
{
    if let Ok(address) = u64::try_from(at) {
        if let Some(cell) = bank.get_mut(&address) {
            *cell = byte;
        }
    }
}

// Writes bytes to the cells from an address on, where they are mapped.
fn put_bytes(bank: &mut BTreeMap<u64, u8>, first: u64, bytes: &[u8])
    ensures { (address : ℕ)
        → get nat_cmp bank.new address ≡ with_bytes (get nat_cmp bank.old) first bytes.now address }
{
    for step in 0..bytes.len() {
        put_byte(bank, u128::from(first) + step as u128, bytes[step]);
    }
}

// The cells of one space that are in the runs, all 0.
fn mapped_cells(
    alloc: Global,
    space: Space,
    runs: &[(Space, u64, u32)],
) -> Result<BTreeMap<u64, u8>, AllocError>
    ensures { IfOk result (λ bank. (address : ℕ)
        → get nat_cmp bank address ≡ (if is_in_runs runs.now space address then Some 0 else None)) }
{
    let mut bank = BTreeMap::new(alloc);
    for (of, first, count) in runs {
        if of.is_same(space) {
            map_run(&mut bank, *first, *count)?;
        }
    }
    Ok(bank)
}

impl MemBus {
    ghost use Rattle.apei_base.specs.Bus.{byte_at, bytes_at, value_at};
    ghost use Rattle.apei_mem_bus.specs.MemBus.{cells_of, with_value, IsMapped};

    /// Maps runs of cells, all 0. The accesses whose numbers are in `failing` are to fail.
    ///
    /// A run is a space, the address of its first byte, and its length in bytes. Runs may overlap. Nothing is mapped
    /// past the greatest address, 2^64 - 1.
    pub fn new(
        alloc: Global,
        mapped: &[(Space, u64, u32)],
        failing: &[u64],
    ) -> Result<MemBus, AllocError>
        ensures { IfOk result (λ bus. IsMapped bus mapped.now failing.now) }
    {
        Ok(MemBus {
            memory: mapped_cells(alloc, Space::Memory, mapped)?,
            ports: mapped_cells(alloc, Space::Port, mapped)?,
            attempts: Attempts::new(alloc, failing)?,
        })
    }

    // Writes the low bytes of a value to a region.
    fn put_value(&mut self, at: &Region, value: u64)
        ensures cells { (space : Space) (address : ℕ) → cells_of self.new space address
            ≡ with_value (cells_of self.old) (reach_of at.now) (value % 2 ^ at.now.width)
            space address }
        ensures kept { self.new.attempts ≡ self.old.attempts }
    {
        let all = value.to_le_bytes();
        let bytes = &all[..usize::from(at.width / 8)];
        match at.space {
            Space::Memory => put_bytes(&mut self.memory, at.address, bytes),
            Space::Port => put_bytes(&mut self.ports, at.address, bytes),
        }
    }

    // The byte in a cell, 0 where it is not mapped.
    fn byte(&self, space: Space, address: u128) -> u8
        ensures { result ≡ byte_at (cells_of self.now) space address }
    {
        let bank = match space {
            Space::Memory => &self.memory,
            Space::Port => &self.ports,
        };
        match u64::try_from(address) {
            Ok(address) => bank.get(&address).copied().unwrap_or(0),
            Err(_) => 0,
        }
    }

    // Reads bytes from an address on.
    fn fill(&self, space: Space, first: u128, into: &mut [u8])
        requires { first < 2 ^ 65 }
        ensures { into.new ≡ bytes_at (cells_of self.now) space first (length into.old) }
    {
        for step in 0..into.len() {
            into[step] = self.byte(space, first + step as u128);
        }
    }

    // The bytes of a region, and zeros behind them.
    fn region_bytes(&self, at: &Region) -> [u8; 8]
        ensures { take (at.now.width / 8) result
            ≡ bytes_at (cells_of self.now) at.now.space at.now.address (at.now.width / 8) }
    {
        let mut bytes = [0u8; 8];
        self.fill(
            at.space,
            u128::from(at.address),
            &mut bytes[..usize::from(at.width / 8)],
        );
        bytes
    }

    // The value of a region.
    fn value(&self, at: &Region) -> u64
        ensures value { result ≡ value_at (cells_of self.now) (reach_of at.now) }
        ensures fits { result < 2 ^ at.now.width }
    {
        let count = usize::from(at.width / 8);
        LittleEndian::read_uint(&self.region_bytes(at)[..count], count)
    }
}

impl Bus for MemBus {
    ghost use Rattle.apei_base.specs.Bus.{Cells};
    ghost use Rattle.apei_mem_bus.specs.MemBus.{cells_of, failed_of, IsMemStep, IsCounted};
    ghost use Rattle.apei_mem_bus.specs.BusLaws.{mem_answers, mem_unmapped};

    ghost State = { Cells };

    ghost state = { cells_of };

    ghost step = { IsMemStep };

    ghost cells = { λ cells. Some cells };

    ghost faults = { failed_of };

    ghost answers = { mem_answers };

    ghost unmapped = { mem_unmapped };

    fn read(&mut self, at: &Region) -> Result<u64, BusFault>
        ensures access { IsOneAccess IsMemStep (Reads (reach_of at.now))
            (cells_of self.old) result (cells_of self.new) }
        ensures fits { IfOk result (λ value. value < 2 ^ at.now.width) }
        ensures count { CountsFaults result (failed_of self.old) (failed_of self.new) }
        ensures counted { IsCounted self.old self.new (is_err result) }
    {
        self.attempts.begin()?;
        Ok(self.value(at))
    }

    fn write(&mut self, at: &Region, value: u64) -> Result<(), BusFault>
        ensures access { IsOneAccess IsMemStep (λ _. write_of at.now value)
            (cells_of self.old) result (cells_of self.new) }
        ensures count { CountsFaults result (failed_of self.old) (failed_of self.new) }
        ensures counted { IsCounted self.old self.new (is_err result) }
    {
        self.attempts.begin()?;
        self.put_value(at, value);
        Ok(())
    }

    fn copy(&mut self, address: u64, skip: usize, into: &mut [u8]) -> Result<(), BusFault>
        ensures access { IsOneAccess IsMemStep (λ _. Copies (address + skip) into.new)
            (cells_of self.old) result (cells_of self.new) }
        ensures kept { OnErr result (into.new ≡ into.old) }
        ensures count { CountsFaults result (failed_of self.old) (failed_of self.new) }
        ensures counted { IsCounted self.old self.new (is_err result) }
    {
        self.attempts.begin()?;
        self.fill(Space::Memory, u128::from(address) + skip as u128, into);
        Ok(())
    }
}
