//! Laws over the definitions, each the contract of a function that does nothing.
ghost use Rattle.std.specs.Prelude.{◌≡◌, ◌≢◌, ℕ, false, List, Some, None, Result, Err};
ghost use Rattle.std.specs.List.{AllByRecursion};
ghost use Rattle.apei_einj.specs.Action.{Runs};
ghost use Rattle.apei_einj.specs.Anchor.{anchor_of};
ghost use Rattle.apei_base.specs.Determined.{IsDetermined};
ghost use Rattle.apei_einj.specs.Injection.{Injects};
ghost use Rattle.apei_einj.specs.declared.entry.Entry.{Entry};
ghost use Rattle.apei_einj.specs.declared.injected.Injected.{Injected};
ghost use Rattle.apei_einj.specs.declared.injected.InjectError.{InjectError};
ghost use Rattle.apei_einj.specs.declared.injected.InjectError.TheVariants.{Fault};
ghost use Rattle.apei_einj.specs.declared.request.Request.{Request};
ghost use Rattle.apei_einj.specs.Sound.{IsEinj, HasAnchors, fits, IsAnchor};
ghost use Rattle.apei_einj.specs.Table.{einj_entries, einj_refusal, IsRunnable};

use apei_base::Bus;

/// An accepted table is its header and its injection header, and then its entries, of 32 bytes each, one behind
/// another up to the end of the table, and as many as it states.
pub fn an_accepted_table_is_its_header_and_its_entries()
    ensures { (bytes : List ℕ) → einj_refusal bytes ≡ None → IsEinj bytes }
{}

/// The entries of an accepted table can be run: each has an instruction that is known and a register that names a
/// region, and each action that an injection needs has an anchor.
pub fn each_entry_of_an_accepted_table_can_be_run()
    ensures runnable { (bytes : List ℕ)
        → einj_refusal bytes ≡ None → AllByRecursion IsRunnable (einj_entries bytes) }
    ensures anchored { (bytes : List ℕ)
        → einj_refusal bytes ≡ None → HasAnchors (einj_entries bytes) }
{}

/// The converse of both: a table is accepted that is its header and its entries, and whose entries can be run.
pub fn a_table_whose_entries_can_be_run_is_accepted()
    ensures { (bytes : List ℕ) → IsEinj bytes → AllByRecursion IsRunnable (einj_entries bytes)
        → HasAnchors (einj_entries bytes) → einj_refusal bytes ≡ None }
{}

/// The anchor of an action is the first entry that fits: it is of the action, and its instruction and its space are
/// those that the action needs. Where there is no anchor, no entry fits.
pub fn an_anchor_is_the_first_entry_that_fits()
    ensures found { (action : ℕ) (entries : List Entry) (entry : Entry)
        → anchor_of action entries ≡ Some entry
        → IsAnchor action entries entry }
    ensures none { (action : ℕ) (entries : List Entry) → anchor_of action entries ≡ None
        → AllByRecursion (λ entry. fits action entry ≡ false) entries }
{}

/// Over a bus each of whose accesses has one outcome, an injection has one: two of one request from one state, neither
/// of which ended at an access that failed, have one answer and leave one state. So have two runs of the same entries
/// on one value.
pub fn an_injection_ends_in_one_way<B: Bus>()
    ensures injections { IsDetermined B.step
        → (entries : List Entry) (request : Request) (before here there : B.State)
        (one other : Result Injected InjectError) → Injects B.step entries request before one here
        → Injects B.step entries request before other there → one ≢ Err Fault → other ≢ Err Fault
        → (one ≡ other) × (here ≡ there) }
    ensures actions { IsDetermined B.step
        → (entries : List Entry) (value one other : ℕ) (before here there : B.State)
        → Runs B.step entries value before one here → Runs B.step entries value before other there
        → (one ≡ other) × (here ≡ there) }
{}
