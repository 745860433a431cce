//! Laws over the definitions, each the contract of a function that does nothing.
ghost use Rattle.std.specs.Prelude.{◌≡◌, ◌≢◌, ◌≤◌, ℕ, length, Option, Some, None, Result, Ok, Err};
ghost use Rattle.apei_base.specs.Bus.{Cells};
ghost use Rattle.apei_base.specs.Determined.{IsDetermined};
ghost use Rattle.apei_einj.specs.Injection.{Injects};
ghost use Rattle.apei_einj.specs.declared.injected.Injected.{Injected};
ghost use Rattle.apei_einj.specs.declared.injected.InjectError.{InjectError};
ghost use Rattle.apei_einj.specs.declared.injected.InjectError.TheVariants.{Fault};
ghost use Rattle.apei_einj.specs.declared.request.Request.{Request};
ghost use Rattle.apei_base.specs.Firmware.{IsRaised};
ghost use Rattle.cper_block.specs.Block.{Judges, largest_block};
ghost use Rattle.cper_block.specs.Header.{header_of};
ghost use Rattle.cper_block.specs.Severity.{severity_of};
ghost use Rattle.fw_einj.specs.Block.{block_of};
ghost use Rattle.fw_einj.specs.Class.{type_severity};
ghost use Rattle.fw_einj.specs.Machine.{Machine, IsMachineStep, made_of};
ghost use Rattle.fw_einj.specs.Sample.{AreAtRest, FitsStructure, LetsIn, sample_entries, at_rest, asked_injection};
ghost use Rattle.fw_einj.specs.declared.port.Made.{Made};
ghost use Rattle.fw_einj.specs.declared.setup.Setup.{Setup};
ghost use Rattle.fw_einj.specs.declared.injection.Injection.{Injection};

/// The block of an injected error is well formed under the largest limit, and is one that firmware may raise. It has at most
/// 292 bytes.
pub fn an_injected_block_is_well_formed()
    ensures judged { (injection : Injection) → Judges (block_of injection) largest_block None }
    ensures raised { (injection : Injection) → IsRaised (block_of injection) }
    ensures short { (injection : Injection) → length (block_of injection) ≤ 292 }
{}

/// The block of an injected error has the severity of its type.
pub fn an_injected_block_has_the_severity_of_its_type()
    ensures { (injection : Injection)
        → severity_of (header_of (block_of injection)).severity ≡ type_severity injection.error }
{}

/// Each access of the machine has one outcome.
pub fn an_access_of_the_machine_has_one_outcome()
    ensures { IsDetermined IsMachineStep }
{}

/// On the machine of the sample's table at rest, whose setup lets a request in, an injection that no failed access cut off is
/// done, after as many busy reads as the setup says, and makes the block of what was asked for the source of its class.
pub fn an_injection_makes_one_block()
    ensures { (table cell : ℕ) (setup : Setup) (cells : Cells) (made : Option Made)
        (request : Request) (result : Result Injected InjectError) (after : Machine)
        → AreAtRest table cell setup cells → FitsStructure request → LetsIn setup request
        → Injects IsMachineStep sample_entries request (at_rest table cell setup cells made) result after
        → result ≢ Err Fault → (result ≡ Ok (record { busy_reads = setup.busy }))
        × (after.made ≡ Some (made_of setup (asked_injection request))) }
{}
