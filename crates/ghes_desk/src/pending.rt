//! The packets that wait for delivery.
ghost use Rattle.std.specs.Prelude.{◌≡◌, ◌<◌, ◌∷◌, ◌++◌, [], map, length, nat_le, IfOk};
ghost use Rattle.ghes_call.specs.Packet.{seen_of};
ghost use Rattle.ghes_desk.specs.Pending.{is_full};

use ghes_call::Packet;
use std::alloc::{AllocError, Global};
use std::marker::Model;

/// The packets that wait for delivery, the oldest first, and how many there may be at most.
///
/// The list has its memory from the start, so that a push takes none.
#[derive(Debug, Drop)]
pub struct Pending {
    packets: Vec<Packet>,
    slots: usize,
}

impl Model for Pending {
    ghost use Rattle.std.specs.Prelude.{map, ◌≤◌, vec_capacity};
    ghost use Rattle.ghes_call.specs.Packet.{seen_of};
    ghost use Rattle.ghes_desk.specs.Pending.{PendingSeen};

    ghost Value = { PendingSeen };

    ghost view = { λ p. record { packets = map seen_of p.packets.items; slots = p.slots } };

    ghost invariant = { λ p. p.slots ≤ vec_capacity p.packets };
}

impl Pending {
    /// Nothing is pending, and so many packets may be.
    pub fn new(alloc: Global, slots: usize) -> Result<Pending, AllocError>
        ensures { IfOk result (λ pending. pending ≡ record { packets = []; slots = slots }) }
    {
        Ok(Pending {
            packets: Vec::with_capacity(alloc, slots)?,
            slots,
        })
    }

    /// Whether each slot is taken.
    pub fn is_full(&self) -> bool
        ensures { result ≡ is_full self.now }
    {
        self.slots <= self.packets.len()
    }

    /// The packets, the oldest first.
    pub fn packets(&self) -> &[Packet]
        ensures { map seen_of result.now ≡ self.now.packets }
    {
        &self.packets
    }

    /// One more packet, where a slot is free. It takes no memory.
    pub fn push(&mut self, packet: Packet)
        requires { length self.old.packets < self.old.slots }
        ensures { self.new ≡ record self.old { packets = self.old.packets ++ seen_of packet ∷ [] } }
    {
        let fits = self.packets.push(packet).is_ok();
        prove!(fits);
    }

    /// Nothing is pending from here on.
    pub fn clear(&mut self)
        ensures { self.new ≡ record self.old { packets = [] } }
    {
        self.packets.clear();
    }
}
