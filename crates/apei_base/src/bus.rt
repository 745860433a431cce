//! The memory and the I/O ports of a machine, as a trait.
ghost use Rattle.std.specs.Prelude.{◌≡◌, ◌<◌, ℕ, ◌+◌, ◌^◌, Option, IfOk, OnErr};
ghost use Rattle.apei_base.specs.Bus.{Access, Reads, Copies, Cells, Answers, IsOneAccess, CountsFaults, KeepsUnmapped, reach_of, write_of};

use crate::Region;

/// An access of a bus failed. It changed nothing.
#[derive(Clone, Copy, Debug, PartialEq, Eq)]
pub struct BusFault;

/// The memory and the I/O ports of a machine, as a driver sees them.
///
/// A cell is one byte, by its space and address. One that is not mapped reads as 0 and drops what is written.
pub trait Bus {
    /// What an access may depend on, and change.
    ghost State: { Type 0 };

    /// The state of the bus.
    ghost state: { Self → State };

    /// An access that succeeds leads from one state to another.
    ghost step: { State → Access → State → Type 0 };

    /// The cells, where they are told.
    ghost cells: { State → Option Cells };

    /// How many accesses have failed.
    ghost faults: { Self → ℕ };

    /// Reads the value of a region, the lowest byte first.
    fn read(&mut self, at: &Region) -> Result<u64, BusFault>
        ensures access { IsOneAccess step (Reads (reach_of at.now))
            (state self.old) result (state self.new) }
        ensures fits { IfOk result (λ value. value < 2 ^ at.now.width) }
        ensures count { CountsFaults result (faults self.old) (faults self.new) };

    /// Writes the low bits of a value to a region, as many as it is wide, the lowest byte first.
    fn write(&mut self, at: &Region, value: u64) -> Result<(), BusFault>
        ensures access { IsOneAccess step (λ _. write_of at.now value)
            (state self.old) result (state self.new) }
        ensures count { CountsFaults result (faults self.old) (faults self.new) };

    /// Copies memory from `address + skip` on, as many bytes as `into` has. A failure leaves `into` as it was.
    fn copy(&mut self, address: u64, skip: usize, into: &mut [u8]) -> Result<(), BusFault>
        ensures access { IsOneAccess step (λ _. Copies (address + skip) into.new)
            (state self.old) result (state self.new) }
        ensures kept { OnErr result (into.new ≡ into.old) }
        ensures count { CountsFaults result (faults self.old) (faults self.new) };

    /// Where the cells are told, a read answers their value and a copy their bytes.
    ghost answers: { (before after : State) (access : Access) → step before access after
        → Answers (cells before) access };

    /// Where the cells are told, one that is not mapped stays so, whatever is written.
    ghost unmapped: { (before after : State) (access : Access) → step before access after
        → KeepsUnmapped (cells before) (cells after) };
}
