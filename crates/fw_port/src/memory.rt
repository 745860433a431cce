//! The memory of one source, before any access fails.
ghost use Rattle.std.specs.Prelude.{◌≡◌, ◌<◌, ◌≤◌, [], Some, ◌&&◌, ◌==◌, ◌+◌, ◌-◌, ◌/◌, ◌%◌, ◌^◌, ℕ, None, is_some, option_copied, option_map, unwrap_or, vec_len, length, take, slice_index, OnSome, IfSome, OnOk, OnErr, IsTrue};
ghost use Rattle.std.specs.Bool.{OnTrue};
ghost use Rattle.std.proofs.Props.{props};
ghost use Rattle.apei_base.specs.Bus.{reach_of, write_of, same_reach, byte_at, bytes_at, value_at};
ghost use Rattle.apei_base.specs.Firmware.{is_ack, standing, block_status, status_value, after_access, IsRaised, IsSound};
ghost use Rattle.apei_base.specs.declared.region.Space.TheVariants.{Memory};
ghost use Rattle.apei_mem_bus.specs.OneSource.{seen_by_parts, raised_prop, fits_prop};
ghost use Rattle.fw_port.specs.Layout.{register_cells, area_cells, IsPlaceIn};
ghost use Rattle.fw_port.specs.Source.{number_byte, held, ack_held, area_byte, source_cells};

use crate::SourceLayout;
use apei_base::{Bytes, Region, Space};
use byteorder::{ByteOrder, LittleEndian};
use std::alloc::{AllocError, Global};

/// The memory of one source, as firmware and receiver share it.
#[derive(Drop)]
pub struct SourceMemory {
    pub layout: SourceLayout,
    /// What the read ack register holds, 0 where there is none.
    pub cell: u64,
    /// All blocks that were raised, in order.
    pub made: Vec<Bytes>,
    /// How many of them are acknowledged.
    pub acknowledged: usize,
    /// Whether the acknowledgement of a cleared block is awaited.
    pub waits: bool,
    pub ghost is: { IsSound (seen_by_parts (reach_of layout.status) (option_map reach_of layout.ack) layout.area layout.room cell made.items acknowledged waits) 0 } by { Prim.hlevel (props, raised_prop, fits_prop) },
}

// A byte of a number, counted from the lowest one, which is byte 0.
fn byte_of(value: u64, place: u64) -> u8
    requires { place < 8 }
    ensures { result ≡ number_byte value place }
{
    value.to_le_bytes()[place as usize]
}

// The byte of a register in a cell, none where it is no cell of the register.
fn held_in(register: &Region, value: u64, space: Space, address: u64) -> Option<u8>
    ensures { result
        ≡ held (register_cells (reach_of register.now)) (number_byte value) space address None }
{
    if !register.space.is_same(space) {
        return None;
    }
    let place = address.checked_sub(register.address)?;
    if place < u64::from(register.width / 8) {
        Some(byte_of(value, place))
    } else {
        None
    }
}

// The bytes of a block from a place on, and zeros behind it.
fn show(block: &[u8], skip: usize, into: &mut [u8])
    ensures length { length into.new ≡ length into.old }
    ensures bytes { (k : ℕ) → k < length into.old
        → slice_index into.new k ≡ slice_index block.now (skip + k) }
{
    let rest = &block[skip.min(block.len())..];
    let count = rest.len().min(into.len());
    let (front, back) = into.split_at_mut(count);
    front.copy_from_slice(&rest[..count]);
    back.fill(0);
}

impl SourceMemory {
    ghost use Rattle.fw_port.specs.Port.{layout_of, seen_of, unused, raised, with_cell};

    /// The memory of a source that nothing has happened to.
    pub fn new(alloc: Global, layout: SourceLayout) -> SourceMemory
        ensures { seen_of result ≡ unused (layout_of layout) }
    {
        SourceMemory {
            layout,
            cell: 0,
            made: Vec::new(alloc),
            acknowledged: 0,
            waits: false,
        }
    }

    /// Firmware has one more block.
    pub fn raise(&mut self, block: &[u8]) -> Result<(), AllocError>
        requires block { IsRaised block.now }
        requires few { vec_len self.old.made + 1 < 2 ^ 32 - 1 }
        ensures ok { OnOk result (seen_of self.new ≡ raised block.now (seen_of self.old)) }
        ensures err { OnErr result (seen_of self.new ≡ seen_of self.old) }
    {
        let block = Bytes::copy(*self.made.allocator(), block)?;
        self.made.push(block)?;
        Ok(())
    }

    /// What the read ack register holds is set, outside of any access.
    pub fn set_cell(&mut self, register: &Region, value: u64)
        requires { option_map reach_of self.old.layout.ack ≡ Some (reach_of register.now) }
        ensures { seen_of self.new ≡ with_cell value (seen_of self.old) }
    {
        self.cell = register.low_bits(value);
    }

    // The bytes of the standing block, none where none stands.
    fn standing(&self) -> Option<&[u8]>
        ensures below { OnSome result (self.now.acknowledged < vec_len self.now.made) }
        ensures value { option_copied result ≡ standing (seen_of self.now) }
    {
        if self.waits {
            None
        } else {
            self.made.get(self.acknowledged).map(Bytes::as_slice)
        }
    }

    // A write that clears the standing block.
    fn clears(&self, at: &Region, value: u64) -> bool
        ensures below { OnTrue result (self.now.acknowledged < vec_len self.now.made) }
        ensures value { result ≡ (same_reach (reach_of at.now) (block_status (layout_of self.now.layout))
            && (value == 0) && is_some (standing (seen_of self.now))) }
    {
        at.is_same(&Region::memory(self.layout.area, 32)) && value == 0 && self.standing().is_some()
    }

    // This is the read ack register.
    fn is_ack(&self, at: &Region) -> bool
        ensures { result ≡ is_ack (layout_of self.now.layout) (reach_of at.now) }
    {
        match &self.layout.ack {
            Some(ack) => ack.is_same(at),
            None => false,
        }
    }

    // Where the area is, once a block has stood.
    fn status_value(&self) -> u64
        ensures value { result ≡ status_value (seen_of self.now) }
        ensures fits { result < 2 ^ self.now.layout.status.width }
    {
        if self.acknowledged > 0 || self.standing().is_some() {
            self.layout.area
        } else {
            0
        }
    }

    // The byte in a cell of the area, none where it is no cell of the area.
    fn held_in_area(&self, space: Space, address: u64) -> Option<u8>
        ensures { result ≡ held (area_cells self.now.layout.area self.now.layout.room)
            (area_byte (seen_of self.now)) space address None }
    {
        if !space.is_same(Space::Memory) {
            return None;
        }
        let place = address.checked_sub(self.layout.area)?;
        if place >= u64::from(self.layout.room) {
            return None;
        }
        let block = self.standing().unwrap_or(&[]);
        Some(block.get(place as usize).copied().unwrap_or(0))
    }

    // The byte in a cell of the read ack register, none where it is no cell of one.
    fn held_in_ack(&self, space: Space, address: u64) -> Option<u8>
        ensures { result ≡ ack_held (option_map reach_of self.now.layout.ack) self.now.cell space address }
    {
        match &self.layout.ack {
            Some(ack) => held_in(ack, self.cell, space, address),
            None => None,
        }
    }

    // The byte in a cell, 0 where the source has none there.
    #[tactic(auto, unfolding(crate::specs::Source::source_cells))]
    fn byte(&self, space: Space, address: u64) -> u8
        ensures { result ≡ unwrap_or (source_cells (seen_of self.now) space address) 0 }
    {
        match held_in(&self.layout.status, self.status_value(), space, address) {
            Some(byte) => byte,
            None => match self.held_in_area(space, address) {
                Some(byte) => byte,
                None => self.held_in_ack(space, address).unwrap_or(0),
            },
        }
    }

    // The same at any number; past the greatest address there is no cell.
    fn byte_at(&self, space: Space, address: u128) -> u8
        ensures { result ≡ byte_at (source_cells (seen_of self.now)) space address }
    {
        match u64::try_from(address) {
            Ok(address) => self.byte(space, address),
            Err(_) => 0,
        }
    }

    // Reads bytes from an address on, one by one.
    fn fill(&self, space: Space, first: u128, into: &mut [u8])
        requires { first < 2 ^ 65 }
        ensures { into.new ≡ bytes_at (source_cells (seen_of self.now)) space first (length into.old) }
    {
        for step in 0..into.len() {
            into[step] = self.byte_at(space, first + step as u128);
        }
    }

    // The bytes of a region, and zeros behind them.
    fn region_bytes(&self, at: &Region) -> [u8; 8]
        ensures { take (at.now.width / 8) result ≡ bytes_at (source_cells (seen_of self.now))
            at.now.space at.now.address (at.now.width / 8) }
    {
        let mut bytes = [0u8; 8];
        let count = usize::from(at.width / 8);
        self.fill(at.space, u128::from(at.address), &mut bytes[..count]);
        bytes
    }

    // The value of a region, byte by byte.
    fn value(&self, at: &Region) -> u64
        ensures value { result ≡ value_at (source_cells (seen_of self.now)) (reach_of at.now) }
        ensures fits { result < 2 ^ at.now.width }
    {
        let count = usize::from(at.width / 8);
        LittleEndian::read_uint(&self.region_bytes(at)[..count], count)
    }

    /// Reads the value of a region, the lowest byte first.
    pub fn read(&self, at: &Region) -> u64
        ensures value { result ≡ value_at (source_cells (seen_of self.now)) (reach_of at.now) }
        ensures fits { result < 2 ^ at.now.width }
    {
        if self.layout.status.is_same(at) {
            self.status_value()
        } else if self.is_ack(at) {
            self.cell
        } else {
            self.value(at)
        }
    }

    /// Writes the low bits of a value to a region, as many as it is wide.
    #[tactic(auto, unfolding(apei_base::specs::Firmware::after_access))]
    pub fn write(&mut self, at: &Region, value: u64)
        ensures { seen_of self.new ≡ after_access (write_of at.now value) (seen_of self.old) }
    {
        let value = at.low_bits(value);
        if self.clears(at, value) {
            self.acknowledged += 1;
            self.waits = self.layout.ack.is_some();
        } else if self.is_ack(at) {
            self.cell = value;
            self.waits = false;
        }
    }

    // The bytes that stand in the area, none where no block stands.
    fn shown_block(&self) -> &[u8]
        ensures { result.now ≡ unwrap_or (standing (seen_of self.now)) [] }
    {
        self.standing().unwrap_or(&[])
    }

    // The place in the area of so many bytes from an address on, if all of them are in the area.
    fn place_of(&self, first: u128, count: usize) -> Option<usize>
        requires { first < 2 ^ 65 }
        ensures { IfSome result (λ place.
            IsPlaceIn self.now.layout.area self.now.layout.room first count place) }
    {
        let place = first.checked_sub(u128::from(self.layout.area))?;
        if place + count as u128 <= u128::from(self.layout.room) {
            Some(place as usize)
        } else {
            None
        }
    }

    /// Copies memory from an address on, as many bytes as `into` has.
    pub fn copy(&self, first: u128, into: &mut [u8])
        requires { first < 2 ^ 65 }
        ensures { into.new
            ≡ bytes_at (source_cells (seen_of self.now)) Memory first (length into.old) }
    {
        match self.place_of(first, into.len()) {
            Some(place) => show(self.shown_block(), place, into),
            None => self.fill(Space::Memory, first, into),
        }
    }
}
