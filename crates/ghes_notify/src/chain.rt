//! The chain of registered handlers.
ghost use Rattle.std.specs.Prelude.{◌≡◌, ◌<◌, ◌-◌, ◌^◌, ℕ, [], length, slice_get, Some, None, IfOk, IfErr, OnOk, OnErr, IfSome, IfNone, Err};
ghost use Rattle.ghes_notify.specs.declared.error.RegisterError.TheVariants.{Full};
ghost use Rattle.ghes_notify.specs.Delivery.{delivery_of, Delivers};
ghost use Rattle.ghes_notify.specs.Order.{AreBelow, call_order, place_of};
ghost use Rattle.ghes_notify.specs.Chain.{registered, unregistered, delivered, IsRefusalOf};

use crate::deliver::deliver;
use crate::error::{HandlerId, HandlerMemory, RegisterError};
use crate::handler::Handler;
use crate::order::{Rank, Tag, place_of, rank_all, rank_in};
use std::alloc::{AllocError, Global};
use std::marker::Model;

/// So many handlers a chain has at most.
const MOST: usize = 32;

/// Registered handlers, which are called by falling priority, equals in order of registration.
///
/// Contracts see the handlers with their numbers and priorities, in order of registration.
/// Source: after Linux 6.1, kernel/notifier.c; the limit and the numbers: own choice.
#[derive(Drop)]
pub struct NotifierChain<H> {
    handlers: Vec<H>,
    tags: Vec<Tag>,
    order: Vec<Rank>,
    made: u64,
}

impl<H> Model for NotifierChain<H> {
    ghost use Rattle.std.specs.Prelude.{◌≡◌, ◌≤◌, vec_len, vec_capacity};
    ghost use Rattle.ghes_notify.specs.Order.{call_order, AreBelow};
    ghost use Rattle.ghes_notify.specs.Chain.{Registered};

    ghost Value = { Registered H };

    ghost view = { λ c. record { handlers = c.handlers.items; tags = c.tags.items; made = c.made } };

    ghost invariant = { λ c. (vec_len c.handlers ≡ vec_len c.tags) × (vec_len c.order ≡ vec_len c.tags) × (c.order.items ≡ call_order c.tags.items) × (vec_len c.tags ≤ 32) × (32 ≤ vec_capacity c.tags) × (32 ≤ vec_capacity c.order) × AreBelow c.made c.tags.items };
}

impl<H: Handler> NotifierChain<H> {
    /// No handler.
    pub fn new(alloc: Global) -> Result<NotifierChain<H>, AllocError>
        ensures { IfOk result (λ chain. chain ≡ record { handlers = []; tags = []; made = 0 }) }
    {
        Ok(NotifierChain {
            handlers: Vec::new(alloc),
            tags: Vec::with_capacity(alloc, MOST)?,
            order: Vec::with_capacity(alloc, MOST)?,
            made: 0,
        })
    }

    /// Registers a handler, behind those of the same or a higher priority.
    ///
    /// Refused where 32 handlers are registered. The handler comes back in the error.
    #[tactic(auto, using(crate::proofs::Ordering::call_order_last, crate::proofs::Ordering::below_push))]
    pub fn register(&mut self, handler: H, priority: i32) -> Result<HandlerId, RegisterError<H>>
        requires few { self.old.made < 2 ^ 64 - 1 }
        ensures id { IfOk result (λ id. id.number ≡ self.old.made) }
        ensures fresh { IfOk result (λ id. AreBelow id.number self.old.tags) }
        ensures ok { OnOk result (self.new ≡ registered self.old handler priority) }
        ensures room { OnOk result (length self.old.handlers < 32) }
        ensures err { OnErr result (self.new ≡ self.old) }
        ensures cause { IfErr result (IsRefusalOf self.old handler) }
        ensures full { length self.old.handlers ≡ 32 → result ≡ Err (Full handler) }
    {
        if self.handlers.len() >= MOST {
            return Err(RegisterError::Full(handler));
        }
        if let Err(refused) = self.handlers.push(handler) {
            return Err(RegisterError::OutOfMemory(refused.value));
        }
        let tag = Tag {
            id: self.made,
            priority,
        };
        rank_in(
            &mut self.order,
            Rank {
                tag,
                place: self.tags.len(),
            },
        );
        let fits = self.tags.push(tag).is_ok();
        prove!(fits);
        self.made += 1;
        Ok(HandlerId { number: tag.id })
    }

    /// Takes a handler out. None, and nothing changes, where none is registered under this id. It takes no memory.
    pub fn unregister(&mut self, id: HandlerId) -> Option<H>
        ensures none { IfNone result ((place_of self.old.tags id.number ≡ None) × (self.new ≡ self.old)) }
        ensures some { IfSome result (λ handler. (place : ℕ) × (place_of self.old.tags id.number ≡ Some place) × (slice_get self.old.handlers place ≡ Some handler) × (self.new ≡ unregistered self.old place)) }
    {
        match place_of(&self.tags, id.number) {
            None => None,
            Some(place) => Some(self.take_out(place)),
        }
    }

    #[tactic(auto, using(crate::proofs::Ordering::below_remove))]
    fn take_out(&mut self, place: usize) -> H
        requires { place < length self.old.handlers }
        ensures handler { slice_get self.old.handlers place ≡ Some result }
        ensures rest { self.new ≡ unregistered self.old place }
    {
        self.tags.remove(place);
        let handler = self.handlers.remove(place);
        rank_all(&self.tags, &mut self.order);
        handler
    }

    /// Tells the handlers of a delivery, up to and with the first that does not answer `Go`.
    ///
    /// Where that one answered `NoMemory`, its id is the error. The delivery stands.
    pub fn call(&mut self, source: u16, seq: u32, block: &[u8]) -> Result<(), HandlerMemory>
        ensures delivery { Delivers H.stands H.answers (delivery_of source seq block.now) (call_order self.old.tags) self.old.handlers self.new.handlers result }
        ensures kept { self.new ≡ delivered self.old self.new.handlers }
    {
        deliver(&self.order, &mut self.handlers, source, seq, block)
    }

    /// The handlers, in order of registration. It takes no memory.
    pub fn into_handlers(self) -> Vec<H>
        ensures { result.items ≡ self.handlers }
    {
        let NotifierChain {
            handlers,
            tags: _,
            order: _,
            made: _,
        } = self;
        handlers
    }
}
