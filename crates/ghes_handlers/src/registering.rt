//! How the handlers of a replay are registered.
ghost use Rattle.std.specs.Prelude.{◌≡◌, ◌≤◌, ◌+◌, ◌++◌, ◌∷◌};
ghost use Rattle.std.specs.Prelude.{vec_len, vec_capacity, length, IfOk, IfErr};
ghost use Rattle.ghes_handlers.specs.Registering.{chain_of, refused_of};

use ghes_notify::{Handler, NotifierChain, RegisterError};
use std::alloc::Global;

/// Memory ran out. The handlers come back in their order.
#[derive(Drop)]
pub struct HandlersBack<H> {
    pub handlers: Vec<H>,
}

// Puts handlers before others, in a list that has room for all.
fn put_before<H: Handler>(front: Vec<H>, rest: Vec<H>) -> Vec<H>
    requires room { vec_len front + vec_len rest ≤ vec_capacity rest }
    ensures { result.items ≡ front.items ++ rest.items }
{
    let mut before = front;
    let mut all = rest;
    while let Some(handler) = before.pop() {
        let fits = all.insert(0, handler).is_ok();
        prove!(fits);
    }
    all
}

// The handler that was refused.
fn refused_of<H: Handler>(refused: RegisterError<H>) -> H
    ensures { result ≡ refused_of refused }
{
    match refused {
        RegisterError::OutOfMemory(handler) | RegisterError::Full(handler) => handler,
    }
}

// All handlers, where one was refused: those before it, it, and those behind it.
fn give_back<H: Handler>(
    chain: NotifierChain<H>,
    refused: RegisterError<H>,
    behind: Vec<H>,
) -> HandlersBack<H>
    requires room { length chain.handlers + 1 + vec_len behind ≤ vec_capacity behind }
    ensures { result.handlers.items ≡ chain.handlers ++ refused_of refused ∷ behind.items }
{
    let mut rest = behind;
    let fits = rest.insert(0, refused_of(refused)).is_ok();
    prove!(fits);
    HandlersBack {
        handlers: put_before(chain.into_handlers(), rest),
    }
}

/// The chain of these handlers, at most 32: they are registered in order, each with priority 0.
///
/// Where memory runs out all of them come back, in their order. Source: own choice.
pub fn with_handlers<H: Handler>(
    alloc: Global,
    handlers: Vec<H>,
) -> Result<NotifierChain<H>, HandlersBack<H>>
    requires few { vec_len handlers ≤ 32 }
    ensures ok { IfOk result (λ chain. chain ≡ chain_of handlers.items) }
    ensures err { IfErr result (λ back. back.handlers.items ≡ handlers.items) }
{
    let mut rest = handlers;
    let mut chain = match NotifierChain::new(alloc) {
        Ok(chain) => chain,
        Err(_) => return Err(HandlersBack { handlers: rest }),
    };
    while !rest.is_empty() {
        let handler = rest.remove(0);
        if let Err(refused) = chain.register(handler, 0) {
            return Err(give_back(chain, refused, rest));
        }
    }
    Ok(chain)
}
