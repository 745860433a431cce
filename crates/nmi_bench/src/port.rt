//! The memory of one source, as quick as memory is: what a register or the area holds stands ready before an access.
ghost use Rattle.std.specs.Prelude.{◌≡◌, ◌<◌, ◌+◌, ◌%◌, ◌^◌, ◌&&◌, ◌==◌, true, false, length, is_some, unwrap_or, []};
ghost use Rattle.apei_base.specs.Bus.{Copies, same_reach, reach_of};
ghost use Rattle.apei_base.specs.Firmware.{Seen, shown, standing, block_status};
ghost use Rattle.apei_mem_bus.specs.OneSource.{IsPlainStep};
ghost use Rattle.nmi_bench.specs.Memory.{IsReady, port_layout, port_seen, register_at};

use crate::setting::LONG;
use apei_base::{Bus, BusFault, Firmware, Region, Space};

/// The address of the status address register, of 64 bits.
pub const STATUS: u64 = 0x1000;

/// The address of the read ack register, of 32 bits.
pub const ACK: u64 = 0x1008;

/// The address of the area, of 4,096 bytes.
pub const AREA: u64 = 0x2000;

// The length of a header in bytes.
const HEADER: usize = 20;

// How many bytes are behind the header.
const REST: usize = LONG - HEADER;

/// The memory of one source, which raises one block so often. Its registers have different widths, by which they are told apart
/// where they are read.
#[derive(Drop)]
pub struct Port {
    /// The block that is raised.
    pub block: [u8; LONG],
    /// How often it is raised.
    pub raised: usize,
    /// How many times it was acknowledged.
    pub acknowledged: usize,
    /// Whether the acknowledgement of a cleared block is awaited.
    pub waits: bool,
    /// Whether a block stands.
    pub stands: bool,
    /// What the status address register holds.
    pub status: u64,
    /// What the read ack register holds.
    pub cell: u32,
    pub ghost is: { IsReady block raised acknowledged waits stands status cell },
}

// Copies the header of the block, if that is what is asked for, and answers whether it is.
#[inline(always)]
fn copy_header(block: &[u8; LONG], into: &mut [u8]) -> bool
    ensures copied { result ≡ true → into.new ≡ shown 0 (length into.new) block.now }
    ensures kept { result ≡ false → into.new ≡ into.old }
{
    let (header, _rest) = block.split_at(HEADER);
    match (header.as_array::<HEADER>(), into.as_mut_array::<HEADER>()) {
        (Some(header), Some(into)) => {
            *into = *header;
            true
        }
        _ => false,
    }
}

// Copies what is behind the header, if that is what is asked for, and answers whether it is.
#[inline(always)]
fn copy_rest(block: &[u8; LONG], into: &mut [u8]) -> bool
    ensures copied { result ≡ true → into.new ≡ shown 20 (length into.new) block.now }
    ensures kept { result ≡ false → into.new ≡ into.old }
{
    let (_header, rest) = block.split_at(HEADER);
    match (rest.as_array::<REST>(), into.as_mut_array::<REST>()) {
        (Some(rest), Some(into)) => {
            *into = *rest;
            true
        }
        _ => false,
    }
}

// Copies the header of the block or what is behind it, if that is what is asked for, and answers whether it is.
#[inline(always)]
fn copy_part(block: &[u8; LONG], skip: usize, into: &mut [u8]) -> bool
    ensures copied { result ≡ true → into.new ≡ shown skip (length into.new) block.now }
    ensures kept { result ≡ false → into.new ≡ into.old }
{
    match skip {
        HEADER => copy_rest(block, into),
        0 => copy_header(block, into),
        _ => false,
    }
}

// Copies the bytes of a block from a place on, and zeros behind it.
#[cold]
#[inline(never)]
fn copy_slowly(block: &[u8], skip: u128, into: &mut [u8])
    requires { skip < 2 ^ 65 }
    ensures { into.new ≡ shown skip (length into.old) block.now }
{
    for step in 0..into.len() {
        into[step] = match usize::try_from(skip + step as u128) {
            Ok(place) => block.get(place).copied().unwrap_or(0),
            Err(_) => 0,
        };
    }
}

// Whether this is the register of 32 bits at an address of memory.
#[inline(always)]
#[tactic(auto, using(crate::proofs::PortLemmas::same_as))]
fn is_at(at: &Region, address: u64) -> bool
    ensures { result ≡ same_reach (register_at address 32) (reach_of at.now) }
{
    at.address == address && at.width == 32 && at.space.is_same(Space::Memory)
}

// Whether this is the first 32 bits of the area.
#[inline(always)]
#[tactic(auto, using(crate::proofs::PortLemmas::same_either_way))]
fn is_block_status(at: &Region) -> bool
    ensures { result ≡ same_reach (reach_of at.now) (block_status port_layout) }
{
    is_at(at, AREA)
}

impl Port {
    // A write that clears the standing block.
    #[inline(always)]
    #[tactic(auto, using(crate::proofs::PortLemmas::clears_is))]
    fn clears(&self, at: &Region, value: u64) -> bool
        ensures { result
            ≡ (same_reach (reach_of at.now) (block_status port_layout)
            && (value % 2 ^ at.now.width == 0) && is_some (standing (⟦<Port as Bus>⟧.state self.now))) }
    {
        value % 0x1_0000_0000 == 0 && self.stands && is_block_status(at)
    }

    // The bytes of the block that stands, none where none stands.
    #[tactic(auto, using(crate::proofs::PortLemmas::bytes_are))]
    fn standing(&self) -> &[u8]
        ensures { result.now ≡ unwrap_or (standing (⟦<Port as Bus>⟧.state self.now)) [] }
    {
        if self.stands { &self.block } else { &[] }
    }
}

// Copies from an address on, whatever stands there.
#[cold]
#[inline(never)]
#[tactic(auto, unfolding(apei_base::specs::Firmware::after_access, apei_base::specs::Firmware::IsAnswered))]
fn copy_from(address: u64, into: &mut [u8], port: &Port, skip: usize)
    ensures { IsPlainStep (⟦<Port as Bus>⟧.state port.now)
        (Copies (address + skip) into.new) (⟦<Port as Bus>⟧.state port.now) }
{
    let first = u128::from(address) + skip as u128;
    if let Some(place) = first.checked_sub(u128::from(AREA)) {
        copy_slowly(port.standing(), place, into);
    }
}

impl Bus for Port {
    ghost use Rattle.std.specs.Prelude.{None};
    ghost use Rattle.apei_base.specs.BusLaws.{untold_answers};

    ghost State = { Seen };

    ghost state = { λ p. port_seen p.block p.raised p.acknowledged p.waits p.cell };

    ghost step = { IsPlainStep };

    ghost cells = { λ _. None };

    ghost faults = { λ _. 0 };

    ghost answers = { λ before after access step. untold_answers access };

    ghost unmapped = { λ before after access step. tt };

    #[inline(always)]
    fn read(&mut self, at: &Region) -> Result<u64, BusFault> {
        if at.width > 32 {
            Ok(self.status)
        } else if at.width == 32 {
            Ok(u64::from(self.cell))
        } else {
            Ok(0)
        }
    }

    #[inline(always)]
    #[tactic(auto, using(crate::proofs::PortLemmas::ack_bits), unfolding(apei_base::specs::Firmware::after_access, apei_base::specs::Firmware::IsAnswered))]
    fn write(&mut self, at: &Region, value: u64) -> Result<(), BusFault> {
        if self.clears(at, value) {
            self.acknowledged += 1;
            self.stands = false;
            self.waits = true;
        } else if is_at(at, ACK) {
            self.cell = (value % 0x1_0000_0000) as u32;
            self.waits = false;
            self.stands = self.acknowledged < self.raised;
        }
        Ok(())
    }

    #[inline(always)]
    fn copy(&mut self, address: u64, skip: usize, into: &mut [u8]) -> Result<(), BusFault> {
        if address == AREA && self.stands && copy_part(&self.block, skip, into) {
            return Ok(());
        }
        copy_from(address, into, self, skip);
        Ok(())
    }
}

impl Firmware for Port {
    ghost use Rattle.std.proofs.Common.{refl};
    ghost use Rattle.nmi_bench.specs.MemoryLaws.{sound};

    ghost seen = { Self.state };

    ghost same = { λ one other equal. equal };

    ghost moves = { λ before after access step. step };

    ghost looks = { λ before after access step look. refl };

    ghost sound = { λ p. sound p.block p.raised p.acknowledged p.waits p.stands p.status p.cell p.is };
}
