//! The decoder takes passes in, and lets them out again. Each step here is a load of word 0.
ghost use Rattle.std.specs.Prelude.{◌≡◌, ℕ, ◌<◌, ◌≤◌, true, [], length, vec_capacity};
ghost use Rattle.ghes_rule.specs.declared.views.Stage.TheVariants.{Idle};
ghost use Rattle.ghes_rule.specs.Moves.{all_back, first_back, without_first, let_out, view_at, joined, outs, SettledIf};
ghost use Rattle.ghes_rule.specs.Seen.{AreLetOut};

use crate::pass::Pass;
use crate::plays::{LetOut, Settle, TakeIn};
use crate::shared::Shared;
use crate::work::Work;

/// Takes a pass in that holds no claim.
pub fn take_in(shared: &Shared, work: &mut Work, pass: Pass)
    requires work { work.old.table ≡ shared.now }
    requires pass { pass.table ≡ shared.now }
    requires idle { pass.view.stage ≡ Idle }
    ensures { work.new ≡ record work.old { view = joined work.old.view pass.view } }
{
    let Pass { number: _, seat } = pass;
    shared
        .table
        .shared
        .join_seat::<TakeIn>(&mut work.seat, seat);
}

/// Learns what is settled, by one more load: a join tells its caller nothing of the table.
pub fn settle(shared: &Shared, work: &mut Work)
    requires belongs { work.old.table ≡ shared.now }
    ensures same { work.new ≡ work.old }
    ensures settled { SettledIf work.new.view }
{
    shared.table.shared.load::<Settle>(&mut work.seat, 0);
}

/// Lets the first ended pass out. Its number is handed in, since a view has no memory.
pub fn let_go(shared: &Shared, work: &mut Work, number: u64) -> Pass
    requires belongs { work.old.table ≡ shared.now }
    requires some { first_back work.old.view.passes < length work.old.view.passes }
    requires number { (let_out work.old.view).number ≡ number }
    requires idle { (let_out work.old.view).stage ≡ Idle }
    ensures work { work.new ≡ record work.old { view = without_first work.old.view } }
    ensures pass { result ≡ record { table = work.old.table; view = let_out work.old.view } }
{
    let seat = shared.table.shared.split_seat::<LetOut>(&mut work.seat);
    Pass { number, seat }
}

/// Lets all passes out, in order of their numbers. The vector has room for them.
pub fn let_all_go(shared: &Shared, work: &mut Work, passes: Vec<Pass>, contexts: usize) -> Vec<Pass>
    requires belongs { work.old.table ≡ shared.now }
    requires all { (contexts ≡ length work.old.view.passes) × (all_back work.old.view.passes ≡ true) }
    requires each { (q : ℕ) → q < contexts → ((view_at work.old.view.passes q).number ≡ q) × ((view_at work.old.view.passes q).stage ≡ Idle) }
    requires vector { (passes.items ≡ []) × (contexts ≤ vec_capacity passes) }
    ensures work { work.new ≡ record work.old { view = record work.old.view { passes = outs contexts work.old.view.passes } } }
    ensures passes { AreLetOut work.old.table work.old.view (length work.old.view.passes) result.items }
{
    let mut passes = passes;
    for _ in 0..contexts {
        let number = passes.len() as u64;
        let pass = let_go(shared, work, number);
        let Ok(()) = passes.push(pass) else {
            unreachable!()
        };
    }
    passes
}
