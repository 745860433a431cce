//! What came out, and in which order.

use ghes_call::Packet;

/// How many packets were taken, and whether those of each context came in order.
///
/// Source: own choice.
#[derive(Drop)]
pub struct Tally {
    next: [u32; 16],
    taken: u64,
    in_order: bool,
}

impl Tally {
    /// Nothing was taken yet. Each context numbers its packets from 0 on.
    pub fn new() -> Tally {
        Tally {
            next: [0; 16],
            taken: 0,
            in_order: true,
        }
    }

    /// Notes a packet: its `source` is the number of its context, and its `seq` the next of that context.
    pub fn note(&mut self, packet: &Packet) {
        self.taken = self.taken.saturating_add(1);
        match self.next.get_mut(usize::from(packet.source)) {
            Some(next) => {
                if *next != packet.seq {
                    self.in_order = false;
                }
                *next = packet.seq.wrapping_add(1);
            }
            None => self.in_order = false,
        }
    }

    /// How many packets were taken.
    pub fn taken(&self) -> u64 {
        self.taken
    }

    /// Whether the packets of each context came in order, none left out.
    pub fn is_in_order(&self) -> bool {
        self.in_order
    }
}
