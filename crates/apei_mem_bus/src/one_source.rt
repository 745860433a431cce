//! The smallest memory of one source that is a `Firmware`.
ghost use Rattle.std.specs.Prelude.{◌≡◌, ◌<◌, ◌&&◌, ◌==◌, ◌%◌, ◌^◌, ◌+◌, ℕ, Some, None, is_some, option_map, unwrap_or, option_copied, vec_len, OnSome, length, slice_index, take, drop, IsTrue, IfOk};
ghost use Rattle.std.specs.Bool.{OnTrue};
ghost use Rattle.std.proofs.Props.{props};
ghost use Rattle.apei_base.specs.Bus.{reach_of, same_reach};
ghost use Rattle.apei_base.specs.Firmware.{Seen, is_ack, standing, block_status, status_value, shown};
ghost use Rattle.apei_mem_bus.specs.OneSource.{seen_by_parts, raised_prop, fits_prop, IsWhole, IsPlainStep};
ghost use Rattle.apei_base.specs.Width.{is_width};

use apei_base::{Bus, BusFault, Bytes, Firmware, Region, Space};

/// The memory of one source of either version, for tests of its receivers. It fails at no access and tells no cells.
///
/// Source: own choice.
#[derive(Drop)]
pub struct OneSource {
    /// The status address register.
    pub status: Region,
    /// The read ack register, none where the source is of version 1.
    pub ack: Option<Region>,
    /// The address of the area.
    pub area: u64,
    /// The length of the area in bytes.
    pub room: u32,
    /// What the read ack register holds, 0 where there is none.
    pub cell: u64,
    /// All blocks that were made, in order.
    pub made: Vec<Bytes>,
    /// How many of them are acknowledged.
    pub acknowledged: usize,
    /// Whether the acknowledgement of a cleared block is awaited.
    pub waits: bool,
    pub ghost is: { IsWhole (seen_by_parts (reach_of status) (option_map reach_of ack)
        area room cell made.items acknowledged waits) } by { Prim.hlevel (props, raised_prop, fits_prop) },
}

// The bytes of a block from a place on, and zeros behind it.
fn show(block: &[u8], skip: u128, into: &mut [u8])
    requires { skip < 2 ^ 65 }
    ensures { into.new ≡ shown skip (length into.old) block.now }
{
    for step in 0..into.len() {
        into[step] = match usize::try_from(skip + step as u128) {
            Ok(place) => block.get(place).copied().unwrap_or(0),
            Err(_) => 0,
        };
    }
}

impl OneSource {
    // The bytes of the standing block, none where none stands.
    fn standing(&self) -> Option<&[u8]>
        ensures below { OnSome result (self.now.acknowledged < vec_len self.now.made) }
        ensures value { option_copied result ≡ standing (⟦<OneSource as Bus>⟧.state self.now) }
    {
        if self.waits {
            None
        } else {
            self.made.get(self.acknowledged).map(Bytes::as_slice)
        }
    }

    // A write that clears the standing block.
    fn clears(&self, at: &Region, value: u64) -> bool
        ensures below { OnTrue result (self.now.acknowledged < vec_len self.now.made) }
        ensures value { result
            ≡ (same_reach (reach_of at.now)
            (block_status (⟦<OneSource as Bus>⟧.state self.now).layout)
            && (value == 0) && is_some (standing (⟦<OneSource as Bus>⟧.state self.now))) }
    {
        at.is_same(&Region::memory(self.area, 32)) && value == 0 && self.standing().is_some()
    }

    // This is the read ack register.
    fn is_ack(&self, at: &Region) -> bool
        ensures { result ≡ is_ack (⟦<OneSource as Bus>⟧.state self.now).layout (reach_of at.now) }
    {
        match &self.ack {
            Some(ack) => ack.is_same(at),
            None => false,
        }
    }

    // Where the area is, once a block has stood.
    fn status_value(&self) -> u64
        ensures value { result ≡ status_value (⟦<OneSource as Bus>⟧.state self.now) }
        ensures fits { result < 2 ^ self.now.status.width }
    {
        if self.acknowledged > 0 || self.standing().is_some() {
            self.area
        } else {
            0
        }
    }
}

impl Bus for OneSource {
    ghost use Rattle.apei_base.specs.BusLaws.{untold_answers};

    ghost State = { Seen };

    ghost state = { λ s. seen_by_parts (reach_of s.status) (option_map reach_of s.ack)
        s.area s.room s.cell s.made.items s.acknowledged s.waits };

    ghost step = { IsPlainStep };

    ghost cells = { λ _. None };

    ghost faults = { λ _. 0 };

    ghost answers = { λ before after access step. untold_answers access };

    ghost unmapped = { λ before after access step. tt };

    #[tactic(auto, using(crate::proofs::ApartLemmas::apart_from_status), unfolding(apei_base::specs::Firmware::after_access, apei_base::specs::Firmware::IsAnswered))]
    fn read(&mut self, at: &Region) -> Result<u64, BusFault> {
        if self.status.is_same(at) {
            Ok(self.status_value())
        } else if self.is_ack(at) {
            Ok(self.cell)
        } else {
            Ok(0)
        }
    }

    #[tactic(auto, unfolding(apei_base::specs::Firmware::after_access, apei_base::specs::Firmware::IsAnswered))]
    fn write(&mut self, at: &Region, value: u64) -> Result<(), BusFault> {
        let value = at.low_bits(value);
        if self.clears(at, value) {
            self.acknowledged += 1;
            self.waits = self.ack.is_some();
        } else if self.is_ack(at) {
            self.cell = value;
            self.waits = false;
        }
        Ok(())
    }

    #[tactic(auto, unfolding(apei_base::specs::Firmware::after_access, apei_base::specs::Firmware::IsAnswered))]
    fn copy(&mut self, address: u64, skip: usize, into: &mut [u8]) -> Result<(), BusFault> {
        let first = u128::from(address) + skip as u128;
        let block = self.standing().unwrap_or(&[]);
        if let Some(place) = first.checked_sub(u128::from(self.area)) {
            show(block, place, into);
        }
        Ok(())
    }
}

impl Firmware for OneSource {
    ghost use Rattle.std.proofs.Common.{refl};

    ghost seen = { Self.state };

    ghost same = { λ one other equal. equal };

    ghost moves = { λ before after access step. step };

    ghost looks = { λ before after access step look. refl };

    ghost sound = { λ port. port.is.sound };
}
