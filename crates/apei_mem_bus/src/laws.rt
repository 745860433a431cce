//! A law over the definitions, the contract of a function that does nothing.
ghost use Rattle.apei_base.specs.Determined.{IsDetermined};
ghost use Rattle.apei_mem_bus.specs.MemBus.{IsMemStep};

/// Each access of a bus in memory has one outcome.
pub fn an_access_in_memory_has_one_outcome()
    ensures { IsDetermined IsMemStep }
{}
