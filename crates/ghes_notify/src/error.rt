//! What names a registered handler, and the refusals of a chain.

/// A handler of a chain. No other handler of that chain ever has it.
#[derive(Clone, Copy, Debug, PartialEq, Eq)]
pub struct HandlerId {
    pub(crate) number: u64,
}

/// This handler answered that memory ran out. The delivery stands.
#[derive(Clone, Copy, Debug, PartialEq, Eq)]
pub struct HandlerMemory(pub HandlerId);

/// Why a handler was not registered. It comes back.
#[derive(Drop)]
pub enum RegisterError<H> {
    OutOfMemory(H),
    /// 32 handlers are registered.
    Full(H),
}
