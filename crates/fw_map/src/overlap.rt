//! Which registers overlap.
ghost use Rattle.std.specs.Prelude.{◌≡◌, ◌≤◌, ◌<◌, ℕ, true, false, length, slice_index_or, IfSome, IsNone, IsTrue, MatchOption};
ghost use Rattle.fw_map.specs.Overlap.{is_injection, clash, AreApart, IsFirstClash, Names, IsOverlap, IsOverlapError, NamesError, IsFirstOf};
ghost use Rattle.fw_map.specs.declared.run.Register.{Register};

use crate::{FwError, Owner, Register};

impl Owner {
    // Whether it is the injection table.
    fn is_injection(self) -> bool
        ensures { result ≡ is_injection self }
    {
        match self {
            Owner::Source(_) => false,
            Owner::Injection => true,
        }
    }
}

// Whether two registers share a cell, and are not both of the injection table.
fn clash(one: &Register, other: &Register) -> bool
    ensures { result ≡ clash one.now other.now }
{
    one.run.shares(&other.run) && !(one.owner.is_injection() && other.owner.is_injection())
}

// The place of the first register that clashes with a later one.
fn first_clash(registers: &[Register], later: &Register) -> Option<usize>
    ensures { IsFirstOf registers.now later.now result }
{
    for (place, register) in registers.iter().enumerate() {
        if clash(register, later) {
            return Some(place);
        }
    }
    None
}

// The overlap of two registers that clash.
fn overlap_of(earlier: &Register, later: &Register) -> FwError
    requires { clash earlier.now later.now ≡ true }
    ensures { NamesError earlier.now later.now result }
{
    FwError::Overlap {
        first: earlier.owner,
        second: later.owner,
        space: earlier.run.space,
        address: earlier.run.first.max(later.run.first),
    }
}

/// The first overlap of registers of which only so many at the front are of sources: with these alone another register can
/// overlap.
pub(crate) fn overlap(registers: &[Register], sources: usize) -> Option<FwError>
    requires { (k : ℕ) (none : Register) → sources ≤ k → k < length registers.now
        → is_injection (slice_index_or registers.now k none).owner ≡ true }
    ensures none { IsNone result → AreApart registers.now }
    ensures some { IfSome result (IsOverlapError registers.now) }
{
    for (place, later) in registers.iter().enumerate() {
        let earlier = &registers[..place.min(sources)];
        if let Some(first) = first_clash(earlier, later) {
            return Some(overlap_of(&earlier[first], later));
        }
    }
    None
}
