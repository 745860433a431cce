//! Cuts bytes at the first of some marks: a script at a line feed, and a line at a space.
ghost use Rattle.memchr.specs.Find.{is_byte, IsFirstByte};
ghost use Rattle.ghes_script.specs.Cut.{IsCutAt};

use memchr::memchr;

/// What stands before the first mark, and what stands behind it. Without a mark, the whole stands before.
pub(crate) fn cut_at(mark: u8, bytes: &[u8]) -> (&[u8], &[u8])
    ensures { IsCutAt mark bytes.now result.0.now result.1.now }
{
    match memchr(mark, bytes) {
        Some(end) => {
            let (front, rest) = bytes.split_at(end);
            (front, rest.split_at(1).1)
        }
        None => bytes.split_at(bytes.len()),
    }
}

// The first place of a mark, looked for one byte after another.
fn near(mark: u8, bytes: &[u8]) -> Option<usize>
    ensures { IsFirstByte (is_byte mark) bytes.now result }
{
    let mut at = 0;
    while at < bytes.len() {
        if bytes[at] == mark {
            return Some(at);
        }
        at += 1;
    }
    None
}

/// As `cut_at`, and quicker where the mark is near.
pub(crate) fn cut_near(mark: u8, bytes: &[u8]) -> (&[u8], &[u8])
    ensures { IsCutAt mark bytes.now result.0.now result.1.now }
{
    match near(mark, bytes) {
        Some(end) => {
            let (front, rest) = bytes.split_at(end);
            (front, rest.split_at(1).1)
        }
        None => (bytes, &[]),
    }
}
