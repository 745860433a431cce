//! The lines of read ack cells.
ghost use Rattle.std.specs.Prelude.{◌≡◌, ◌≤◌, ◌++◌, OnOk};
ghost use Rattle.std.specs.List.{flat_map};
ghost use Rattle.ghes_report.specs.Cell.{width_at, bytes_in, cell_line};

use crate::lines::numbered;
use cper_text::{Text, low_digits};
use std::alloc::AllocError;

/// The access width of the read ack register of the source at a position, in bits, and 0 where there is none.
pub(crate) fn width_at(widths: &[u8], source: usize) -> u8
    ensures { result ≡ width_at widths.now source }
{
    match widths.get(source) {
        Some(width) => *width,
        None => 0,
    }
}

// How many bytes a register of so many bits has, eight at most.
fn bytes_in(width: u8) -> usize
    ensures value { result ≡ bytes_in width }
    ensures few { result ≤ 8 }
{
    usize::from(width / 8).min(8)
}

// Adds the line of a cell.
#[tactic(auto, using(cper_text::proofs::Joining::grouped), unfolding(crate::specs::Cell::cell_line))]
fn cell_line(text: &mut Text, id: u16, width: u8, cell: u64) -> Result<(), AllocError>
    ensures ok { OnOk result (text.new.added ≡ text.old.added ++ cell_line id width cell) }
    ensures front { text.new.front ≡ text.old.front }
{
    numbered(text, "cell ", u32::from(id))?;
    text.put(b": 0x")?;
    low_digits(text, bytes_in(width), cell)?;
    text.put(b"\n")
}

/// Adds the lines of read ack cells of one source, of so many bits.
pub(crate) fn cells_text(
    text: &mut Text,
    id: u16,
    width: u8,
    cells: &[u64],
) -> Result<(), AllocError>
    ensures ok { OnOk result (text.new.added ≡ text.old.added ++ flat_map (cell_line id width) cells.now) }
    ensures front { text.new.front ≡ text.old.front }
{
    for cell in cells {
        cell_line(text, id, width, *cell)?;
    }
    Ok(())
}
