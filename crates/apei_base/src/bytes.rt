//! Bytes that a contract sees as a list.
ghost use Rattle.std.specs.Prelude.{◌≡◌, ℕ, List, IfOk};

use std::alloc::{AllocError, Global};
use std::marker::Model;

/// Bytes that a contract sees as a list.
#[derive(Debug, Drop)]
pub struct Bytes(pub Vec<u8>);

impl Model for Bytes {
    ghost Value = { List ℕ };

    ghost view = { λ b. b.0.items };
}

impl Bytes {
    /// A copy of the bytes.
    pub fn copy(alloc: Global, bytes: &[u8]) -> Result<Bytes, AllocError>
        ensures { IfOk result (λ copied. copied ≡ bytes.now) }
    {
        Ok(Bytes(Vec::from_slice(alloc, bytes)?))
    }

    /// The bytes, lent.
    pub fn as_slice(&self) -> &[u8]
        ensures { result.now ≡ self.now }
    {
        &self.0
    }
}
