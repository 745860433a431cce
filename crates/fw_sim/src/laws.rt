//! A law over the definitions, the contract of a function that does nothing.
ghost use Rattle.std.specs.Prelude.{ℕ, List, ◌++◌, ◌∷◌, []};
ghost use Rattle.fw_port.specs.declared.port.SourcePort.{SourcePort};
ghost use Rattle.fw_sim.specs.Raise.{IsRaisedAt, AreQueues};

/// The blocks of each source are those that were raised for it, in order: a raise appends to the queue of its source, and to
/// no other.
pub fn a_raise_appends_to_the_queue_of_its_source()
    ensures { (old new : List SourcePort) (source : ℕ) (block : List ℕ) (raises : List (ℕ × List ℕ))
        → AreQueues old raises → IsRaisedAt old source block new
        → AreQueues new (raises ++ (source, block) ∷ []) }
{}
