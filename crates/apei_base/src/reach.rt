//! What one access of a region reaches, and what it can write there.
ghost use Rattle.std.specs.Prelude.{◌≡◌, ◌<◌, ◌%◌, ◌^◌};
ghost use Rattle.apei_base.specs.Bus.{same_space, same_reach, reach_of};

use crate::{Region, Space};

impl Space {
    /// Whether both are memory, or both are ports.
    pub fn is_same(self, other: Space) -> bool
        ensures { result ≡ same_space self other }
    {
        match self {
            Space::Memory => other == Space::Memory,
            Space::Port => other == Space::Port,
        }
    }
}

impl Region {
    /// Whether both reach the same cells in one access.
    pub fn is_same(&self, other: &Region) -> bool
        ensures { result ≡ same_reach (reach_of self.now) (reach_of other.now) }
    {
        self.space.is_same(other.space)
            && self.address == other.address
            && self.width == other.width
    }

    /// The low bits of a value, as many as the region is wide.
    pub fn low_bits(&self, value: u64) -> u64
        ensures value { result ≡ value % 2 ^ self.now.width }
        ensures fits { result < 2 ^ self.now.width }
    {
        match self.width {
            8 => value % 0x100,
            16 => value % 0x1_0000,
            32 => value % 0x1_0000_0000,
            _ => value,
        }
    }
}
