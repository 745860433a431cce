//! The map of a machine.
ghost use Rattle.std.specs.Prelude.{◌≡◌, ◌++◌, IfOk, IfErr, OnOk, option_copied};
ghost use Rattle.std.specs.List.{AllByRecursion};
ghost use Rattle.apei_hest.specs.Refusal.{enabled};
ghost use Rattle.apei_hest.specs.Sound.{IsSound};
ghost use Rattle.fw_map.specs.Apart.{AreToldApart};
ghost use Rattle.fw_map.specs.Areas.{IsTriggerOf};
ghost use Rattle.fw_map.specs.Map.{IsMapOf, IsRefusedWith};
ghost use Rattle.fw_map.specs.Overlap.{AreApart, Overlaps};
ghost use Rattle.fw_map.specs.Registers.{registers_of, entries_of, structure_of, injection_registers};
ghost use Rattle.fw_map.specs.Taken.{AreSorted};

use crate::areas::{source_areas, trigger_areas};
use crate::overlap::overlap;
use crate::registers::{enabled_sources, push_entries, push_sources};
use crate::taken::sorted_runs;
use crate::{FwError, Register, Run};
use apei_einj::Einj;
use apei_hest::{Ghes, Hest};
use std::alloc::{AllocError, Global};

// The action whose anchor has the address structure at its register.
const SET_TYPE_WITH_ADDRESS: u8 = 8;

/// Where the firmware that injects keeps what it tells: the trigger table and the cell that triggers.
///
/// Source: Own choice.
#[derive(Clone, Copy, Debug, PartialEq, Eq)]
pub struct Trigger {
    /// The cells of the trigger table.
    pub table: Run,
    /// The trigger cell.
    pub cell: Run,
}

/// The memory map of a machine.
///
/// Source: Own choice.
#[derive(Debug, Drop)]
pub struct Map {
    /// The registers: by source in table order, the status address before the read ack register, and then those of the
    /// entries of the injection table, in table order.
    pub registers: Vec<Register>,
    /// The area of each enabled source, in table order.
    pub areas: Vec<Run>,
    /// The areas of the injection table, where the machine has one.
    pub trigger: Option<Trigger>,
}

// Where the entry begins in its table at whose register the address structure stands.
fn structure_of(einj: &Einj) -> Option<u32>
    ensures { result ≡ structure_of einj.now }
{
    match einj.anchor(SET_TYPE_WITH_ADDRESS) {
        None => None,
        Some(entry) => Some(entry.at),
    }
}

// Adds the registers of an injection table, if there is one.
fn push_injection(registers: &mut Vec<Register>, einj: Option<&Einj>) -> Result<(), AllocError>
    ensures { OnOk result (registers.new.items
        ≡ registers.old.items ++ injection_registers (entries_of (option_copied einj.entry))) }
{
    match einj {
        None => Ok(()),
        Some(einj) => push_entries(registers, structure_of(einj), einj.entries()),
    }
}

// The registers of a machine, of which no two clash.
fn registers_of(
    alloc: Global,
    sources: &[Ghes],
    einj: Option<&Einj>,
) -> Result<Vec<Register>, FwError>
    requires { AllByRecursion IsSound sources.now }
    ensures found { IfOk result (λ registers. registers.items
        ≡ registers_of sources.now (entries_of (option_copied einj.entry))) }
    ensures apart { IfOk result (λ registers. AreApart registers.items) }
    ensures refused { IfErr result
        (Overlaps (registers_of sources.now (entries_of (option_copied einj.entry)))) }
{
    let mut registers = Vec::new(alloc);
    push_sources(&mut registers, sources)?;
    let own = registers.len();
    push_injection(&mut registers, einj)?;
    match overlap(&registers, own) {
        None => Ok(registers),
        Some(error) => Err(error),
    }
}

// The areas of the injection table, if there is one, which are taken from now on.
fn trigger_of(taken: &mut Vec<Run>, einj: Option<&Einj>) -> Result<Option<Trigger>, AllocError>
    requires { AreSorted taken.old.items }
    ensures { IfOk result (IsTriggerOf taken.old.items (option_copied einj.entry)) }
{
    match einj {
        None => Ok(None),
        Some(_) => Ok(Some(trigger_areas(taken)?)),
    }
}

// The map of a machine with these enabled sources.
fn map_of(alloc: Global, sources: &[Ghes], einj: Option<&Einj>) -> Result<Map, FwError>
    requires { AllByRecursion IsSound sources.now }
    ensures found { IfOk result (IsMapOf sources.now (option_copied einj.entry)) }
    ensures apart { IfOk result (λ map. AreToldApart sources.now map.areas.items) }
    ensures refused { IfErr result (IsRefusedWith sources.now (option_copied einj.entry)) }
{
    let registers = match registers_of(alloc, sources, einj) {
        Ok(registers) => registers,
        Err(error) => return Err(error),
    };
    let mut taken = sorted_runs(alloc, &registers)?;
    let areas = match source_areas(alloc, &mut taken, sources) {
        Ok(areas) => areas,
        Err(error) => return Err(error),
    };
    Ok(Map {
        registers,
        areas,
        trigger: trigger_of(&mut taken, einj)?,
    })
}

impl Map {
    /// The map of the machine that has these tables.
    ///
    /// Each area stands in memory at the lowest multiple of 0x10000 from 0x10000000 on where it shares no cell with a
    /// register or an earlier area. An overlap is refused first, and then the first source in table order whose status
    /// address register is too narrow for the address of its area.
    /// Source: Own choice.
    pub fn of(alloc: Global, hest: &Hest, einj: Option<&Einj>) -> Result<Map, FwError>
        ensures found { IfOk result
            (λ map. IsMapOf (enabled hest.now) (option_copied einj.entry) map) }
        ensures apart { IfOk result (λ map. AreToldApart (enabled hest.now) map.areas.items) }
        ensures refused { IfErr result
            (λ error. IsRefusedWith (enabled hest.now) (option_copied einj.entry) error) }
    {
        let sources = enabled_sources(alloc, hest.sources())?;
        map_of(alloc, &sources, einj)
    }
}
