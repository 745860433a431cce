//! An injection: the machine is asked for an error, told to inject it, and the error is triggered.
ghost use Rattle.std.specs.Prelude.{◌≡◌, ◌≢◌, ◌↔◌, None, Err, IsTrue};
ghost use Rattle.std.specs.Result.{result_err};
ghost use Rattle.apei_einj.specs.Injection.{Waits, Executes, Ends, Injects, status_refusal, lacks_address};
ghost use Rattle.apei_einj.specs.Part.{IsDone, CountsFault};
ghost use Rattle.apei_einj.specs.Refusal.{first_refusal};
ghost use Rattle.apei_einj.specs.declared.injected.InjectError.TheVariants.{Fault, NoAddress};

use crate::access::act;
use crate::action::{CHECK_BUSY, END, EXECUTE, GET_STATUS, GET_TRIGGER_TABLE};
use crate::prepare::prepare;
use crate::trigger::trigger;
use crate::{Einj, Entry, InjectError, Injected, Request};
use apei_base::Bus;

/// How many times the machine may say that it is busy.
const BUSY_LIMIT: u32 = 1000;

// Waits while the machine is busy, and gives how many times it was.
fn wait<B: Bus>(entries: &[Entry], bus: &mut B) -> Result<u32, InjectError>
    requires { first_refusal entries.now ≡ None }
    ensures { IsDone (Waits B.step entries.now)
        (B.state bus.old) (B.faults bus.old) result (B.state bus.new) (B.faults bus.new) }
{
    for busy_reads in 0..BUSY_LIMIT {
        let value = act(entries, CHECK_BUSY, 0, bus)?;
        if value % 2 == 0 {
            return Ok(busy_reads);
        }
    }
    Err(InjectError::Busy)
}

// Tests the status that the machine tells.
fn check_status(status: u64) -> Result<(), InjectError>
    ensures value { result_err result ≡ status_refusal status }
    ensures unfailed { result ≢ Err Fault }
{
    if status == 0 {
        return Ok(());
    }
    Err(InjectError::Status(status))
}

// Tells the machine to inject the error, and gives how many times it was busy.
fn execute<B: Bus>(entries: &[Entry], bus: &mut B) -> Result<u32, InjectError>
    requires { first_refusal entries.now ≡ None }
    ensures { IsDone (Executes B.step entries.now)
        (B.state bus.old) (B.faults bus.old) result (B.state bus.new) (B.faults bus.new) }
{
    act(entries, EXECUTE, 0, bus)?;
    let busy_reads = wait(entries, bus)?;
    let status = act(entries, GET_STATUS, 0, bus)?;
    check_status(status)?;
    Ok(busy_reads)
}

// Triggers the error, and ends.
fn finish<B: Bus>(entries: &[Entry], bus: &mut B) -> Result<(), InjectError>
    requires { first_refusal entries.now ≡ None }
    ensures { IsDone (Ends B.step entries.now)
        (B.state bus.old) (B.faults bus.old) result (B.state bus.new) (B.faults bus.new) }
{
    let address = act(entries, GET_TRIGGER_TABLE, 0, bus)?;
    trigger(bus, address)?;
    act(entries, END, 0, bus)?;
    Ok(())
}

// Injects an error by the entries of a table.
fn inject_by<B: Bus>(
    entries: &[Entry],
    request: &Request,
    bus: &mut B,
) -> Result<Injected, InjectError>
    requires { first_refusal entries.now ≡ None }
    ensures { IsDone (Injects B.step entries.now request.now)
        (B.state bus.old) (B.faults bus.old) result (B.state bus.new) (B.faults bus.new) }
{
    prepare(entries, request, bus)?;
    let busy_reads = execute(entries, bus)?;
    finish(entries, bus)?;
    Ok(Injected { busy_reads })
}

impl Einj {
    /// Injects an error.
    ///
    /// The machine is asked which types it can inject, is told the type and the place, and is told to inject. It is
    /// then waited for, at most 1,000 times, and asked for its status. Then the entries of the trigger table that it
    /// names are run, and it is told the end. The first refusal or failed access ends all: what came before it was
    /// done, and nothing after it. The call takes no memory.
    /// Source: ACPI 6.5, 18.6.6; the order: After Linux 6.1, drivers/acpi/apei/einj.c.
    pub fn inject<B: Bus>(&self, request: &Request, bus: &mut B) -> Result<Injected, InjectError>
        ensures does { Injects B.step self.now request.now
            (B.state bus.old) result (B.state bus.new) }
        // An access failed in this call exactly where the answer is `Fault`.
        ensures cause { CountsFault result (B.faults bus.old) (B.faults bus.new) }
        ensures no_address { (result
            ≡ Err NoAddress) ↔ IsTrue (lacks_address self.now request.now) }
    {
        inject_by(&self.entries, request, bus)
    }
}
