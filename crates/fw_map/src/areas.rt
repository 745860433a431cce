//! The areas of a machine, placed one after another.
ghost use Rattle.std.specs.Prelude.{◌≡◌, ◌≤◌, ◌<◌, ◌^◌, ◌++◌, IfOk, IfErr, OnOk, IfSome, IsNone};
ghost use Rattle.std.specs.List.{AllByRecursion};
ghost use Rattle.apei_base.specs.Region.{access_width};
ghost use Rattle.apei_hest.specs.Sound.{IsSound};
ghost use Rattle.fw_map.specs.Areas.{AreAreasOf, IsAreaOf, IsNarrowAt, HaveNoAreas};
ghost use Rattle.fw_map.specs.Placement.{place_at, IsPlaced, ArePlacedBehind};
ghost use Rattle.fw_map.specs.Taken.{AreSorted, TakeSame, TakesAlso};
ghost use Rattle.apei_base.specs.declared.region.Space.TheVariants.{Memory};

use crate::place::{lowest, place_at};
use crate::taken::insert;
use crate::{FwError, Run, Trigger};
use apei_base::Space;
use apei_hest::Ghes;
use std::alloc::{AllocError, Global};

// How long the trigger table and the trigger cell are, in bytes.
const TRIGGER_TABLE: u32 = 48;

const TRIGGER_CELL: u32 = 4;

// The address of the place of a number, where a register of so many bits can say it.
fn address_in(number: u64, width: u8) -> Option<u64>
    requires { width ≤ 64 }
    ensures some { IfSome result (λ address. address ≡ place_at number) }
    ensures fits { IfSome result (λ address. address < 2 ^ width) }
    ensures none { IsNone result → 2 ^ width ≤ place_at number }
{
    let place = place_at(number);
    if place < 1u128 << width {
        Some(place as u64)
    } else {
        None
    }
}

// How wide the status address register of a source is, in bits.
fn status_width(ghes: &Ghes) -> u8
    requires { IsSound ghes.now }
    ensures value { result ≡ access_width ghes.now.status }
    ensures most { result ≤ 64 }
{
    let Ok(region) = ghes.status.check() else {
        unreachable!()
    };
    region.width
}

// So many bytes of memory from an address on, which are taken from now on.
fn take(taken: &mut Vec<Run>, first: u64, bytes: u32) -> Result<Run, AllocError>
    requires { AreSorted taken.old.items }
    ensures sorted { AreSorted taken.new.items }
    ensures area { IfOk result
        (λ area. area ≡ record { space = Memory; first = first; bytes = bytes }) }
    ensures also { IfOk result (λ area. TakesAlso area taken.old.items taken.new.items) }
{
    let area = Run {
        space: Space::Memory,
        first,
        bytes,
    };
    insert(taken, area)?;
    Ok(area)
}

// The area of a source, which is taken from now on.
fn source_area(taken: &mut Vec<Run>, ghes: &Ghes) -> Result<Run, FwError>
    requires sorted { AreSorted taken.old.items }
    requires sound { IsSound ghes.now }
    ensures sorted { AreSorted taken.new.items }
    ensures area { IfOk result (IsAreaOf taken.old.items ghes.now) }
    ensures also { IfOk result (λ area. TakesAlso area taken.old.items taken.new.items) }
    ensures refused { IfErr result (IsNarrowAt taken.old.items ghes.now) }
{
    let bytes = ghes.limit();
    let number = lowest(taken, bytes);
    match address_in(number, status_width(ghes)) {
        None => Err(FwError::Narrow(ghes.id)),
        Some(first) => Ok(take(taken, first, bytes)?),
    }
}

/// The areas of sources, one after another, which are taken from now on.
pub(crate) fn source_areas(
    alloc: Global,
    taken: &mut Vec<Run>,
    sources: &[Ghes],
) -> Result<Vec<Run>, FwError>
    requires sorted { AreSorted taken.old.items }
    requires sound { AllByRecursion IsSound sources.now }
    ensures sorted { AreSorted taken.new.items }
    ensures found { IfOk result (λ areas. AreAreasOf taken.old.items sources.now areas.items) }
    ensures also { IfOk result
        (λ areas. TakeSame taken.new.items (taken.old.items ++ areas.items)) }
    ensures refused { IfErr result (HaveNoAreas taken.old.items sources.now) }
{
    let mut areas = Vec::new(alloc);
    for ghes in sources {
        match source_area(taken, ghes) {
            Ok(area) => areas.push(area)?,
            Err(error) => return Err(error),
        }
    }
    Ok(areas)
}

// An area of so many bytes, which is taken from now on. No table in memory is so long that no address is left.
fn plain_area(taken: &mut Vec<Run>, bytes: u32) -> Result<Run, AllocError>
    requires { AreSorted taken.old.items }
    ensures sorted { AreSorted taken.new.items }
    ensures bytes { IfOk result (λ area. area.bytes ≡ bytes) }
    ensures placed { IfOk result (IsPlaced taken.old.items) }
    ensures also { IfOk result (λ area. TakesAlso area taken.old.items taken.new.items) }
{
    match address_in(lowest(taken, bytes), 64) {
        None => Err(AllocError),
        Some(first) => take(taken, first, bytes),
    }
}

/// The areas of the injection table, which are taken from now on.
pub(crate) fn trigger_areas(taken: &mut Vec<Run>) -> Result<Trigger, AllocError>
    requires { AreSorted taken.old.items }
    ensures { IfOk result
        (λ trigger. ArePlacedBehind taken.old.items trigger.table trigger.cell) }
{
    Ok(Trigger {
        table: plain_area(taken, TRIGGER_TABLE)?,
        cell: plain_area(taken, TRIGGER_CELL)?,
    })
}
