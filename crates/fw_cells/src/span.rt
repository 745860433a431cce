//! How a list of runs becomes runs in order: stretches of cells by their places among all cells, sorted and joined.
ghost use Rattle.std.specs.Prelude.{◌≡◌, ◌<◌, ◌≤◌, ◌+◌, ◌^◌, ℕ, IfOk, map, replicate};
ghost use Rattle.std.specs.List.Sorted.{IsNonDecreasingBy};
ghost use Rattle.apei_base.specs.declared.region.Space.{Space};
ghost use Rattle.fw_cells.specs.Mapping.{is_in_runs};
ghost use Rattle.fw_cells.specs.Runs.{place_of, cells_of, AreRuns};
ghost use Rattle.fw_cells.specs.Spans.{span_of, covers, run_of, IsSpan, AreSpans, AreApart, CoversRuns, AreSorted};
ghost use Rattle.fw_cells.specs.Mapping.{IsMapped};

use crate::CellRun;
use crate::run::place_of;
use apei_base::{Bytes, Space};
use std::alloc::{AllocError, Global};

/// Cells by their places among all cells: from one on, up to another that is not in.
#[derive(Clone, Copy)]
pub struct Span {
    pub start: u128,
    pub end: u128,
}

// So many cells from an address of a space on, none past the greatest address.
fn span_of(space: Space, first: u64, count: u32) -> Span
    ensures { result ≡ span_of space first count }
{
    let start = place_of(space, first);
    let room = (1u128 << 64) - u128::from(first);
    Span {
        start,
        end: start + u128::from(count).min(room),
    }
}

// The stretches of a list of runs, without those that have no cell.
fn spans_of(alloc: Global, mapped: &[(Space, u64, u32)]) -> Result<Vec<Span>, AllocError>
    ensures each { IfOk result (λ spans. AreSpans spans.items) }
    ensures covers { IfOk result (λ spans. CoversRuns spans.items mapped.now) }
{
    let mut spans = Vec::new(alloc);
    for (space, first, count) in mapped {
        if *count > 0 {
            spans.push(span_of(*space, *first, *count))?;
        }
    }
    Ok(spans)
}

// The same, in the order of their first places.
fn sorted_spans(alloc: Global, mapped: &[(Space, u64, u32)]) -> Result<Vec<Span>, AllocError>
    ensures each { IfOk result (λ spans. AreSpans spans.items) }
    ensures covers { IfOk result (λ spans. CoversRuns spans.items mapped.now) }
    ensures sorted { IfOk result (λ spans. AreSorted spans.items) }
{
    let mut spans = spans_of(alloc, mapped)?;
    spans.sort_by_key(|span| span.start)?;
    Ok(spans)
}

// Stretches that share a place or adjoin are joined.
fn joined_spans(alloc: Global, spans: &[Span]) -> Result<Vec<Span>, AllocError>
    requires each { AreSpans spans.now }
    requires sorted { AreSorted spans.now }
    ensures each { IfOk result (λ joined. AreSpans joined.items) }
    ensures covers { IfOk result (λ joined. (place : ℕ)
        → covers joined.items place ≡ covers spans.now place) }
    ensures apart { IfOk result (λ joined. AreApart joined.items) }
{
    let mut joined = Vec::new(alloc);
    let Some((first, rest)) = spans.split_first() else {
        return Ok(joined);
    };
    let mut held = *first;
    for next in rest {
        if next.start <= held.end {
            held.end = held.end.max(next.end);
        } else {
            joined.push(held)?;
            held = *next;
        }
    }
    joined.push(held)?;
    Ok(joined)
}

// So many zeros.
fn zeros(alloc: Global, count: u128) -> Result<Bytes, AllocError>
    ensures { IfOk result (λ bytes. bytes ≡ replicate count 0) }
{
    let Ok(count) = usize::try_from(count) else {
        return Err(AllocError);
    };
    Ok(Bytes(vec![in alloc; 0u8; count]?))
}

// The cells of a stretch, all 0.
fn run_of(alloc: Global, span: Span) -> Result<CellRun, AllocError>
    requires { IsSpan span }
    ensures { IfOk result (λ run. run ≡ run_of span) }
{
    let bytes = zeros(alloc, span.end - span.start)?;
    let ports = 1 << 65;
    if span.start < ports {
        Ok(CellRun {
            space: Space::Memory,
            first: span.start as u64,
            bytes,
        })
    } else {
        Ok(CellRun {
            space: Space::Port,
            first: (span.start - ports) as u64,
            bytes,
        })
    }
}

// The runs of stretches.
fn runs_of(alloc: Global, spans: &[Span]) -> Result<Vec<CellRun>, AllocError>
    requires { AreSpans spans.now }
    ensures { IfOk result (λ runs. runs.items ≡ map run_of spans.now) }
{
    let mut runs = Vec::new(alloc);
    for span in spans {
        runs.push(run_of(alloc, *span)?)?;
    }
    Ok(runs)
}

/// The runs of the cells that are listed, all 0, in order.
pub fn mapped_runs(alloc: Global, mapped: &[(Space, u64, u32)]) -> Result<Vec<CellRun>, AllocError>
    ensures order { IfOk result (λ runs. AreRuns runs.items) }
    ensures mapped { IfOk result (λ runs. IsMapped (cells_of runs.items) mapped.now) }
{
    let spans = sorted_spans(alloc, mapped)?;
    let joined = joined_spans(alloc, spans.as_slice())?;
    runs_of(alloc, joined.as_slice())
}
