//! A writer and its readers, made together.
ghost use Rattle.std.specs.Prelude.{◌≡◌, ◌≤◌, ◌<◌, ◌^◌, [], All, vec_len, IfOk};
ghost use Rattle.ghes_throttle.specs.Shown.{Knows};

use crate::reader::ThrottleReader;
use crate::writer::ThrottleWriter;
use std::alloc::{AllocError, Global};
use std::sync::Wait;

// `left_right` wants one place at least.
fn at_least_one(readers: usize) -> usize
    requires { readers < 2 ^ 32 }
    ensures { (0 < result) × (result < 2 ^ 32) }
{
    if readers == 0 { 1 } else { readers }
}

/// A writer with an empty list, and so many readers, which have seen it.
///
/// Blocks of reports have at most `block_len` bytes. Here alone want of memory stands for one cause more: `left_right`
/// names none where it refuses a reader, which it does from 2^32 readers on.
pub fn throttle<R: Wait>(
    rt: &R,
    alloc: Global,
    block_len: usize,
    readers: usize,
) -> Result<(ThrottleWriter, Vec<ThrottleReader>), AllocError>
    ensures list { IfOk result (λ made. (made.0.list ≡ []) × (made.0.block_len ≡ block_len)) }
    ensures readers { IfOk result (λ made. vec_len made.1 ≡ readers) }
    ensures seen { IfOk result (λ made. All (Knows made.0.book []) made.1.items) }
{
    if readers > u32::MAX as usize {
        return Err(AllocError);
    }
    let mut writer = ThrottleWriter::new(rt, alloc, block_len, at_least_one(readers))?;
    match writer.readers(readers) {
        Ok(all) => Ok((writer, all)),
        Err(_) => {
            writer.end(rt);
            Err(AllocError)
        }
    }
}
