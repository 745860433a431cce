//! A quiet moment: the decoder has every pass.
ghost use Rattle.std.specs.Prelude.{◌≡◌, ℕ, ◌+◌, ◌≤◌, ◌<◌, true, [], length, vec_capacity, IfSome, IfNone};
ghost use Rattle.ghes_rule.specs.declared.views.Hand.TheVariants.{Bare, Full};
ghost use Rattle.ghes_rule.specs.Moves.{all_back, outs, view_at, AllTaken, IsSameButPasses, Settled, SettledIf, with_given, with_look};
ghost use Rattle.ghes_rule.specs.Seen.{AreLetOut};
ghost use Rattle.ghes_chain.specs.Take.{HasTaken, IsEmpty};
ghost use Rattle.ghes_chain.specs.Gather.{AreAll, Has};

use crate::taking::{get_chain, walk_all};
use ghes_rule::{
    Held, Pass, Shared, Work, let_all_go, put_back, settle, take_in, take_out, work_stopped,
};
use ghes_steps::Steps;
use std::marker::Model;
use std::sync::ledger::Ledger;

/// The decoder with every pass. A contract sees it as the decoder.
///
/// It must be spent by letting the passes out. Source: own choice.
#[derive(Drop)]
pub struct Gathered {
    work: Work,
    passes: Vec<Pass>,
    contexts: usize,
}

impl Model for Gathered {
    ghost use Rattle.ghes_rule.specs.Seen.{WorkSeen};
    ghost use Rattle.ghes_chain.specs.Gather.{IsQuiet};

    ghost Value = { WorkSeen };

    ghost view = { λ g. g.work };

    ghost invariant = { λ g. IsQuiet g.work.view g.contexts g.passes };
}

// Takes all passes in, from the last of the vector on.
fn take_all_in(shared: &Shared, work: &mut Work, passes: &mut Vec<Pass>)
    requires belongs { work.old.table ≡ shared.now }
    requires all { AreAll shared.now (length work.old.view.passes) passes.old.items }
    ensures belongs { work.new.table ≡ work.old.table }
    ensures same { IsSameButPasses work.old.view work.new.view }
    ensures back { all_back work.new.view.passes ≡ true }
    ensures has { Has passes.old.items work.new.view }
    ensures vector { (passes.new.items ≡ []) × (vec_capacity passes.new ≡ vec_capacity passes.old) }
{
    while let Some(pass) = passes.pop() {
        take_in(shared, work, pass);
    }
}

/// Takes all passes in that are out, in any order. None of them holds a claim.
///
/// From then on the decoder knows what each context pushed and claimed, and that no push is half made. It takes no memory and does not
/// wait. Source: own choice.
pub fn gather(shared: &Shared, work: Work, passes: Vec<Pass>) -> Gathered
    requires belongs { work.table ≡ shared.now }
    requires all { AreAll shared.now (length work.view.passes) passes.items }
    ensures belongs { result.table ≡ work.table }
    ensures same { IsSameButPasses work.view result.view }
    ensures back { all_back result.view.passes ≡ true }
    ensures has { Has passes.items result.view }
    ensures settled { Settled result.view }
{
    let mut work = work;
    let mut passes = passes;
    let contexts = passes.len();
    take_all_in(shared, &mut work, &mut passes);
    settle(shared, &mut work);
    Gathered {
        work,
        passes,
        contexts,
    }
}

// Takes the oldest packet that is pending.
fn take_oldest<L: Ledger>(shared: &Shared, work: &mut Work, steps: &mut Steps<L>) -> Option<Held>
    requires belongs { work.old.table ≡ shared.now }
    requires bare { work.old.view.held ≡ Bare }
    requires back { all_back work.old.view.passes ≡ true }
    ensures belongs { work.new.table ≡ work.old.table }
    ensures found { IfSome result (λ held. HasTaken work.old.view work.new.view held) }
    ensures none { IfNone result (IsEmpty work.old.view work.new.view × AllTaken work.old.view) }
    ensures some { IfSome result (λ _. AllTaken work.old.view → ⊥) }
    ensures settled { SettledIf work.new.view }
    ensures cost { steps.new ≤ steps.old + shared.now.slots + 3 }
{
    if !get_chain(shared, work, steps) {
        return None;
    }
    walk_all(shared, work, steps);
    Some(take_out(shared, work, steps))
}

impl Gathered {
    /// Takes the oldest packet that is pending, and answers `None` exactly where nothing is.
    pub fn take_last<L: Ledger>(&mut self, shared: &Shared, steps: &mut Steps<L>) -> Option<Held>
        requires belongs { self.old.table ≡ shared.now }
        requires bare { self.old.view.held ≡ Bare }
        ensures belongs { self.new.table ≡ self.old.table }
        ensures found { IfSome result (λ held. HasTaken self.old.view self.new.view held) }
        ensures none { IfNone result (IsEmpty self.old.view self.new.view × AllTaken self.old.view) }
        ensures some { IfSome result (λ _. AllTaken self.old.view → ⊥) }
        ensures settled { Settled self.new.view }
        ensures cost { steps.new ≤ steps.old + shared.now.slots + 3 }
    {
        take_oldest(shared, &mut self.work, steps)
    }

    /// Empties the packet, puts it back and frees its slot.
    pub fn give<L: Ledger>(&mut self, shared: &Shared, held: Held, steps: &mut Steps<L>)
        requires belongs { self.old.table ≡ shared.now }
        requires own { self.old.view.held ≡ Full held.slot held.turn }
        requires room { self.old.view.room ≤ held.cell.packet.bytes.room }
        ensures work { self.new ≡ record self.old { view = with_given self.old.view } }
        ensures settled { Settled self.new.view }
        ensures cost { steps.new ≡ steps.old + 2 }
    {
        put_back(shared, held, &mut self.work, steps);
    }

    /// Whether the panic word is set, by one load.
    pub fn stopped<L: Ledger>(&mut self, shared: &Shared, steps: &mut Steps<L>) -> bool
        requires belongs { self.old.table ≡ shared.now }
        ensures work { self.new ≡ record self.old { view = with_look self.old.view result } }
        ensures settled { Settled self.new.view }
        ensures cost { steps.new ≡ steps.old + 1 }
    {
        work_stopped(shared, &mut self.work, steps)
    }

    /// Lets all passes out, in order of their numbers, in the vector that was gathered.
    pub fn spread(self, shared: &Shared) -> (Work, Vec<Pass>)
        requires belongs { self.table ≡ shared.now }
        ensures work { result.0 ≡ record self { view = record self.view { passes = outs (length self.view.passes) self.view.passes } } }
        ensures passes { AreLetOut self.table self.view (length self.view.passes) result.1.items }
        ensures settled { Settled self.view }
    {
        let Gathered {
            work,
            passes,
            contexts,
        } = self;
        let mut work = work;
        let passes = let_all_go(shared, &mut work, passes, contexts);
        (work, passes)
    }
}
