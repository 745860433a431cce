//! The first part of an injection: the machine is asked for the error.
ghost use Rattle.std.specs.Prelude.{◌≡◌, ◌≢◌, ◌≤◌, ◌+◌, ◌^◌, None, Err};
ghost use Rattle.std.specs.Result.{result_err};
ghost use Rattle.apei_einj.specs.Anchor.{anchor_of};
ghost use Rattle.apei_einj.specs.Injection.{WritesRows, SetsType, Prepares, place_refusal, type_refusal};
ghost use Rattle.apei_einj.specs.Part.{IsDone};
ghost use Rattle.apei_einj.specs.Refusal.{first_refusal};
ghost use Rattle.apei_einj.specs.Request.{address_structure};
ghost use Rattle.apei_einj.specs.declared.injected.InjectError.TheVariants.{Fault};

use crate::access::{act, store};
use crate::action::{BEGIN, GET_ERROR_TYPE, SET_ERROR_TYPE, SET_TYPE_WITH_ADDRESS};
use crate::anchor::anchor_of;
use crate::{Entry, InjectError, Request, address_structure};
use apei_base::Bus;

// Tests that the place of a request can be told.
fn check_place(entries: &[Entry], request: &Request) -> Result<(), InjectError>
    ensures value { result_err result ≡ place_refusal entries.now request.now }
    ensures unfailed { result ≢ Err Fault }
{
    if request.place.is_named() && anchor_of(entries, SET_TYPE_WITH_ADDRESS).is_none() {
        return Err(InjectError::NoAddress);
    }
    Ok(())
}

// Tests that the machine can inject errors of the type of a request.
fn check_type(request: &Request, types: u64) -> Result<(), InjectError>
    ensures value { result_err result ≡ type_refusal request.now types }
    ensures unfailed { result ≢ Err Fault }
{
    if types & u64::from(request.error) == 0 {
        return Err(InjectError::NotAvailable);
    }
    Ok(())
}

// Writes the address structure at an address.
fn write_address<B: Bus>(bus: &mut B, at: u64, request: &Request) -> Result<(), InjectError>
    requires { at + 36 ≤ 2 ^ 64 }
    ensures { IsDone (WritesRows B.step at (address_structure request.now.error request.now.place))
        (B.state bus.old) (B.faults bus.old) result (B.state bus.new) (B.faults bus.new) }
{
    let place = request.place;
    store(
        bus,
        at + address_structure::TYPE,
        32,
        u64::from(request.error),
    )?;
    store(
        bus,
        at + address_structure::FLAGS,
        32,
        u64::from(place.flags()),
    )?;
    store(
        bus,
        at + address_structure::PROCESSOR,
        32,
        u64::from(place.processor()),
    )?;
    store(bus, at + address_structure::ADDRESS, 64, place.address())?;
    store(bus, at + address_structure::MASK, 64, place.mask())?;
    store(
        bus,
        at + address_structure::PCIE,
        32,
        u64::from(place.pcie()),
    )
}

// Sets the error type of a request.
fn set_type<B: Bus>(entries: &[Entry], request: &Request, bus: &mut B) -> Result<(), InjectError>
    requires { first_refusal entries.now ≡ None }
    ensures { IsDone (SetsType B.step entries.now request.now (anchor_of 8 entries.now))
        (B.state bus.old) (B.faults bus.old) result (B.state bus.new) (B.faults bus.new) }
{
    match anchor_of(entries, SET_TYPE_WITH_ADDRESS) {
        Some(anchor) => write_address(bus, anchor.register.address, request),
        None => {
            act(entries, SET_ERROR_TYPE, u64::from(request.error), bus)?;
            Ok(())
        }
    }
}

/// Asks the machine for the error: its place is tested, then its type, and then the type is set.
pub(crate) fn prepare<B: Bus>(
    entries: &[Entry],
    request: &Request,
    bus: &mut B,
) -> Result<(), InjectError>
    requires { first_refusal entries.now ≡ None }
    ensures { IsDone (Prepares B.step entries.now request.now)
        (B.state bus.old) (B.faults bus.old) result (B.state bus.new) (B.faults bus.new) }
{
    check_place(entries, request)?;
    let types = act(entries, GET_ERROR_TYPE, 0, bus)?;
    check_type(request, types)?;
    act(entries, BEGIN, 0, bus)?;
    set_type(entries, request, bus)
}
