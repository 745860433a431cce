//! Makes the table, its buffers and its seats.
ghost use Rattle.std.specs.Prelude.{◌≡◌, ℕ, ◌+◌, ◌*◌, ◌<◌, ◌≤◌, [], Some, length, replicate, IfOk};
ghost use mathlib.Core.Option.{some};
ghost use lib.ListN.{get_elem?};
ghost use Rattle.ghes_rule.specs.declared.views.Cell.{Cell};
ghost use Rattle.ghes_rule.specs.Kept.{first_work};
ghost use Rattle.ghes_rule.specs.Seen.{AreFirst, AreEmptyCells, at_work};

use crate::pass::Pass;
use crate::shared::Shared;
use crate::steps::let_all_go;
use crate::views::Cell;
use crate::words::{About, Board};
use crate::work::{Trail, Work};
use atomic_table::Table;
use ghes_call::Packet;
use std::alloc::{AllocError, Global};

// The slots, each with an empty packet.
fn cells(alloc: Global, slots: usize, block_len: usize) -> Result<Vec<Option<Cell>>, AllocError>
    ensures { IfOk result (λ v. AreEmptyCells block_len slots v.items) }
{
    let mut cells = Vec::with_capacity(alloc, slots)?;
    for _ in 0..slots {
        let packet = Packet::empty(alloc, block_len)?;
        cells.push(Some(Cell {
            packet,
            pass: 0,
            turn: 0,
        }))?;
    }
    Ok(cells)
}

// The table, with every pass ended.
fn lay(
    alloc: Global,
    slots: usize,
    block_len: usize,
    contexts: usize,
) -> Result<(Shared, Work), AllocError>
    requires { (0 < slots) × (slots ≤ 64) × (contexts ≤ 16) × (block_len ≤ 65536) }
    ensures slots { IfOk result (λ r. r.0.slots ≡ slots) }
    ensures work { IfOk result (λ r. r.1 ≡ record { table = r.0; view = first_work block_len slots contexts }) }
{
    let cells = cells(alloc, slots, block_len)?;
    let words = Vec::from_elem(alloc, 0u64, 2 * slots + 2)?;
    let trail = Trail {
        cursor: 0,
        slots: Vec::with_capacity(alloc, slots)?,
    };
    let about = About {
        room: block_len as u64,
        slots: slots as u64,
        contexts: contexts as u64,
    };
    let Ok((table, seat)) = Table::new(alloc, words.as_slice(), cells, &about) else {
        return Err(AllocError);
    };
    Ok((
        Shared {
            table,
            slots,
            block_len,
        },
        Work { seat, trail },
    ))
}

impl Shared {
    /// Makes a table of 1 to 64 slots, whose packets have room for 20 to 65,536 bytes, and the seats of 1 to 16 contexts and of
    /// the decoder.
    ///
    /// All slots are free, nothing was pushed, and no context has a fatal block. The passes stand by number, from 0 on.
    /// All memory of packets and seats is made here. Source: own choice.
    pub fn build(
        alloc: Global,
        slots: usize,
        block_len: usize,
        contexts: usize,
    ) -> Result<(Shared, Work, Vec<Pass>), AllocError>
        requires slots { (0 < slots) × (slots ≤ 64) }
        requires block_len { (20 ≤ block_len) × (block_len ≤ 65536) }
        requires contexts { (0 < contexts) × (contexts ≤ 16) }
        ensures slots { IfOk result (λ r. r.0.slots ≡ slots) }
        ensures work { IfOk result (λ r. r.1 ≡ record { table = r.0; view = at_work block_len slots contexts }) }
        ensures passes { IfOk result (λ r. AreFirst r.0 block_len slots contexts r.2.items) }
    {
        let (shared, work) = lay(alloc, slots, block_len, contexts)?;
        let passes = Vec::with_capacity(alloc, contexts)?;
        let mut work = work;
        let passes = let_all_go(&shared, &mut work, passes, contexts);
        Ok((shared, work, passes))
    }
}
