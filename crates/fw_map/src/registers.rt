//! The registers that tables name, each with its owner.
ghost use Rattle.std.specs.Prelude.{◌≡◌, ◌++◌, None, IfOk, OnOk};
ghost use Rattle.std.specs.List.{flat_map, AllByRecursion};
ghost use Rattle.apei_base.specs.Region.{gas_refusal};
ghost use Rattle.apei_hest.specs.Refusal.{enabled};
ghost use Rattle.apei_hest.specs.Sound.{IsSound};
ghost use Rattle.apei_einj.specs.Table.{IsRunnable};
ghost use Rattle.fw_map.specs.Registers.{gas_run, source_registers, is_structure, entry_run, entry_registers};

use crate::{Owner, Register, Run};
use apei_base::Gas;
use apei_einj::{Entry, address_structure};
use apei_hest::{Ghes, Source};
use std::alloc::{AllocError, Global};

// The code of the instruction that has no register.
const NO_OPERATION: u8 = 4;

/// The enabled generic sources among the sources of a table, in table order.
pub fn enabled_sources(alloc: Global, sources: &[Source]) -> Result<Vec<Ghes>, AllocError>
    ensures { IfOk result (λ found. found.items ≡ enabled sources.now) }
{
    let mut found = Vec::new(alloc);
    for source in sources {
        if let Source::Ghes(ghes) = source {
            if ghes.enabled {
                found.push(*ghes)?;
            }
        }
    }
    Ok(found)
}

// The cells of the register that a generic address names.
fn gas_run(gas: &Gas) -> Run
    requires { gas_refusal gas.now ≡ None }
    ensures { result ≡ gas_run gas.now }
{
    let Ok(region) = gas.check() else {
        unreachable!()
    };
    Run {
        space: region.space,
        first: region.address,
        bytes: u32::from(region.width / 8),
    }
}

// Adds the registers of a source.
fn push_source(registers: &mut Vec<Register>, ghes: &Ghes) -> Result<(), AllocError>
    requires { IsSound ghes.now }
    ensures { OnOk result
        (registers.new.items ≡ registers.old.items ++ source_registers ghes.now) }
{
    let owner = Owner::Source(ghes.id);
    registers.push(Register {
        owner,
        run: gas_run(&ghes.status),
    })?;
    if let Some(ack) = &ghes.ack {
        registers.push(Register {
            owner,
            run: gas_run(&ack.register),
        })?;
    }
    Ok(())
}

/// Adds the registers of sources, in order.
pub(crate) fn push_sources(
    registers: &mut Vec<Register>,
    sources: &[Ghes],
) -> Result<(), AllocError>
    requires { AllByRecursion IsSound sources.now }
    ensures { OnOk result
        (registers.new.items ≡ registers.old.items ++ flat_map source_registers sources.now) }
{
    for ghes in sources {
        push_source(registers, ghes)?;
    }
    Ok(())
}

// Whether the address structure stands at the register of the entry that begins here.
fn is_structure(structure: Option<u32>, at: u32) -> bool
    ensures { result ≡ is_structure structure at }
{
    match structure {
        None => false,
        Some(place) => place == at,
    }
}

// The cells of an entry that has a register.
fn entry_run(structure: Option<u32>, entry: &Entry) -> Run
    requires { gas_refusal entry.now.register ≡ None }
    ensures { result ≡ entry_run structure entry.now }
{
    let mut run = gas_run(&entry.register);
    if is_structure(structure, entry.at) {
        run.bytes = address_structure::LENGTH as u32;
    }
    run
}

// Adds the register of an entry, if it has one.
fn push_entry(
    registers: &mut Vec<Register>,
    structure: Option<u32>,
    entry: &Entry,
) -> Result<(), AllocError>
    requires { IsRunnable entry.now }
    ensures { OnOk result
        (registers.new.items ≡ registers.old.items ++ entry_registers structure entry.now) }
{
    if entry.instruction != NO_OPERATION {
        registers.push(Register {
            owner: Owner::Injection,
            run: entry_run(structure, entry),
        })?;
    }
    Ok(())
}

/// Adds the registers of entries, in order, where the address structure stands at the register of one of them.
pub(crate) fn push_entries(
    registers: &mut Vec<Register>,
    structure: Option<u32>,
    entries: &[Entry],
) -> Result<(), AllocError>
    requires { AllByRecursion IsRunnable entries.now }
    ensures { OnOk result (registers.new.items
        ≡ registers.old.items ++ flat_map (entry_registers structure) entries.now) }
{
    for entry in entries {
        push_entry(registers, structure, entry)?;
    }
    Ok(())
}
