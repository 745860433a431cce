//! How the machine is made of an injection table.
ghost use Rattle.std.specs.Prelude.{◌≡◌, ◌≢◌, ◌++◌, ◌∷◌, [], None, Some, IsSome, IfOk, OnOk};
ghost use Rattle.apei_einj.specs.Anchor.{anchor_of};
ghost use Rattle.apei_einj.specs.Refusal.{entry_refusal, first_refusal};
ghost use Rattle.fw_einj.specs.Machine.{machine_of};
ghost use Rattle.fw_einj.specs.New.{IsAsked, IsBoard, IsNew, register_run, register_runs, structure_runs, port_runs};

use crate::board::{Asked, Board};
use crate::{AddressStructure, EinjPort, Register, Setup};
use apei_base::Space;
use apei_einj::{Einj, Entry, address_structure};
use fw_cells::Cells;
use std::alloc::{AllocError, Global};

// Cells that follow one another: their space, the address of the first, and how many they are.
type Run = (Space, u64, u32);

// The code of an instruction that does nothing, and has no register.
const NO_OPERATION: u8 = 4;

// The register of the anchor of an action.
fn register_of(einj: &Einj, action: u8) -> Register
    requires { IsSome (anchor_of action einj.now) }
    ensures { anchor_of action einj.now ≡ Some result.entry }
{
    let _entries = einj.entries();
    match einj.anchor(action) {
        Some(anchor) => Register { entry: *anchor },
        None => unreachable!(),
    }
}

// Where the error type is told.
fn asked_of(einj: &Einj) -> Asked
    ensures { IsAsked einj.now result }
{
    let _entries = einj.entries();
    match einj.anchor(8) {
        Some(anchor) => Asked::Structure(AddressStructure {
            at: anchor.register.address,
        }),
        None => Asked::Field(register_of(einj, 2)),
    }
}

// The registers of a table.
fn board_of(einj: &Einj, table: u64, cell: u64) -> Board
    ensures { IsBoard einj.now table cell result }
{
    let _entries = einj.entries();
    Board {
        trigger: register_of(einj, 1),
        types: register_of(einj, 3),
        execute: register_of(einj, 5),
        busy: register_of(einj, 6),
        status: register_of(einj, 7),
        asked: asked_of(einj),
        table,
        cell,
    }
}

// The cells of the register of an entry.
fn register_run(entry: &Entry) -> Run
    requires refused { entry_refusal entry.now ≡ None }
    requires register { entry.now.instruction ≢ 4 }
    ensures { result ≡ register_run entry.now }
{
    let region = entry.region();
    (region.space, region.address, u32::from(region.width / 8))
}

// Adds the cells of the register of an entry, if it has one.
fn add_register(runs: &mut Vec<Run>, entry: &Entry) -> Result<(), AllocError>
    requires { entry_refusal entry.now ≡ None }
    ensures { OnOk result
        (runs.new.items ≡ runs.old.items ++ register_runs (entry.now ∷ [])) }
{
    if entry.instruction == NO_OPERATION {
        return Ok(());
    }
    runs.push(register_run(entry))?;
    Ok(())
}

// The cells of the registers of entries.
fn register_runs(alloc: Global, entries: &[Entry]) -> Result<Vec<Run>, AllocError>
    requires { first_refusal entries.now ≡ None }
    ensures { IfOk result (λ runs. runs.items ≡ register_runs entries.now) }
{
    let mut runs = Vec::new(alloc);
    for entry in entries {
        add_register(&mut runs, entry)?;
    }
    Ok(runs)
}

// Adds the cells of the address structure, if there is one.
fn add_structure(runs: &mut Vec<Run>, asked: &Asked) -> Result<(), AllocError>
    ensures { OnOk result (runs.new.items ≡ runs.old.items ++ structure_runs asked.now) }
{
    match asked {
        Asked::Structure(structure) => {
            let length = address_structure::LENGTH as u32;
            runs.push((Space::Memory, structure.at, length))?;
        }
        Asked::Field(_) => {}
    }
    Ok(())
}

// The cells that the port reaches.
fn port_runs(alloc: Global, entries: &[Entry], board: &Board) -> Result<Vec<Run>, AllocError>
    requires { first_refusal entries.now ≡ None }
    ensures { IfOk result (λ runs. runs.items ≡ port_runs entries.now board.now) }
{
    let mut runs = register_runs(alloc, entries)?;
    add_structure(&mut runs, &board.asked)?;
    runs.push((Space::Memory, board.table, 48))?;
    runs.push((Space::Memory, board.cell, 4))?;
    Ok(runs)
}

impl EinjPort {
    /// The machine of an injection table, whose trigger table and trigger cell are at these addresses. Its cells are 0.
    pub fn new(alloc: Global, einj: &Einj, table: u64, cell: u64) -> Result<EinjPort, AllocError>
        ensures { IfOk result (λ port. IsNew einj.now table cell (machine_of port)) }
    {
        let board = board_of(einj, table, cell);
        let runs = port_runs(alloc, einj.entries(), &board)?;
        Ok(EinjPort {
            board,
            setup: Setup::NONE,
            cells: Cells::new(alloc, runs.as_slice())?,
            busy: 0,
            armed: None,
            made: None,
        })
    }
}
