//! The decoder takes what the callers made pending.
ghost use Rattle.std.specs.Prelude.{◌≡◌, ◌<◌};
ghost use Rattle.ghes_rule.specs.declared.views.Hand.TheVariants.{Bare};

use ghes_chain::{Took, give, take};
use ghes_rule::{Shared, Work};
use ghes_steps::Steps;
use std::sync::Wait;
use std::sync::atomic::{AtomicU64, Ordering};
use std::sync::ledger::{Blank, Ledger};

/// The number of the last packet of each source that was taken, and whether each was one more than the one before.
#[derive(Clone, Copy)]
pub struct Taken {
    pub last: [u32; 4],
    pub in_order: bool,
}

impl Taken {
    /// Nothing was taken.
    pub fn none() -> Taken {
        Taken {
            last: [0; 4],
            in_order: true,
        }
    }

    // Enters a packet.
    fn enter(&mut self, source: u16, number: u32) {
        let source = usize::from(source % 4);
        self.in_order &= self.last[source].checked_add(1) == Some(number);
        self.last[source] = number;
    }
}

/// Takes a packet, if one is there, and gives its slot back. It answers whether nothing is pending.
pub fn take_one<L: Ledger>(
    shared: &Shared,
    work: &mut Work,
    taken: &mut Taken,
    steps: &mut Steps<L>,
) -> bool
    requires { (work.old.table ≡ shared.now) × (work.old.view.held ≡ Bare) }
    ensures { (work.new.table ≡ work.old.table) × (work.new.view.held ≡ Bare) }
{
    match take(shared, work, steps) {
        Took::Packet(held) => {
            taken.enter(held.packet().source, held.packet().seq);
            give(shared, held, work, steps);
            false
        }
        Took::Empty => true,
        Took::Again => false,
    }
}

/// Takes packets until so many callers have ended and nothing is pending.
pub fn take_all<R: Wait, L: Ledger>(
    rt: &R,
    blank: Blank,
    shared: &Shared,
    work: &mut Work,
    ended: &AtomicU64,
    callers: u64,
) -> Taken
    requires blank { (blank.name ≡ L.name) × (blank.parts ≡ L.parts) × (0 < blank.parts) }
    requires work { (work.old.table ≡ shared.now) × (work.old.view.held ≡ Bare) }
{
    let mut steps = Steps::<L>::new(blank);
    let mut taken = Taken::none();
    for _ in rt.forever() {
        // Loaded before the take, so that nothing can be pushed behind a take that finds nothing.
        let over = ended.load(Ordering::SeqCst) == callers;
        if take_one(shared, work, &mut taken, &mut steps) && over {
            return taken;
        }
    }
    unreachable!()
}
