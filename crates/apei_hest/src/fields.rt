//! The fields of a structure, each read at its offset.
ghost use Rattle.std.specs.Prelude.{◌≡◌, ◌≤◌, length};
ghost use Rattle.apei_hest.specs.Source.{notify_of, ack_of, ghes_of};

use crate::{Ack2, Ghes, Notify};
use apei_base::{gas_at, u16_at, u32_at, u64_at};

// The notification structure at the front of the bytes.
fn notify_of(bytes: &[u8]) -> Notify
    requires { 28 ≤ length bytes.now }
    ensures { result ≡ notify_of bytes.now }
{
    Notify {
        kind: bytes[0],
        length: bytes[1],
        write_enable: u16_at(bytes, 2),
        poll: u32_at(bytes, 4),
        vector: u32_at(bytes, 8),
        poll_threshold: u32_at(bytes, 12),
        poll_window: u32_at(bytes, 16),
        error_threshold: u32_at(bytes, 20),
        error_window: u32_at(bytes, 24),
    }
}

/// How the generic source of version 2 is acknowledged whose structure begins the bytes.
pub(crate) fn ack_of(bytes: &[u8]) -> Ack2
    requires { 92 ≤ length bytes.now }
    ensures { result ≡ ack_of bytes.now }
{
    Ack2 {
        register: gas_at(bytes, 64),
        preserve: u64_at(bytes, 76),
        write: u64_at(bytes, 84),
    }
}

/// The generic source whose structure begins the bytes, at `at` in its table, and that is acknowledged in this way.
#[tactic(auto, unfolding(crate::specs::Source::ghes_of))]
pub(crate) fn ghes_of(bytes: &[u8], at: u32, ack: Option<Ack2>) -> Ghes
    requires { 64 ≤ length bytes.now }
    ensures { result ≡ ghes_of bytes.now at ack }
{
    let (_front, notify) = bytes.split_at(32);
    Ghes {
        id: u16_at(bytes, 2),
        at,
        related: u16_at(bytes, 4),
        flags: bytes[6],
        enabled: bytes[7] != 0,
        records: u32_at(bytes, 8),
        sections: u32_at(bytes, 12),
        raw: u32_at(bytes, 16),
        status: gas_at(bytes, 20),
        notify: notify_of(notify),
        block_length: u32_at(bytes, 60),
        ack,
    }
}
