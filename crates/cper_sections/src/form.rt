//! How a field is read.

/// As one number, as its bytes, or as a text up to its first 0 (own choice).
#[derive(Clone, Copy, Debug, PartialEq, Eq)]
pub enum Form {
    Number,
    Bytes,
    Text,
}
