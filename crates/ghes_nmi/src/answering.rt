//! The steps that change a source: the clear of a block, and its acknowledgement.
ghost use Rattle.std.specs.Prelude.{◌≡◌, ◌≤◌, ◌+◌, ◌*◌, ◌%◌, ◌^◌, IsTrue, Some, is_some, OnOk, OnErr};
ghost use Rattle.apei_base.specs.Bus.{CountsFaults, reach_of};
ghost use Rattle.apei_base.specs.Firmware.{standing, cleared, ack_written};
ghost use Rattle.ghes_call.specs.Receive.{register_of, acknowledgement};
ghost use Rattle.ghes_call.specs.Call.{ack_of, acknowledged_by};
ghost use Rattle.ghes_nmi.specs.Receive.{rule_seen, ack_seen};
ghost use Rattle.ghes_nmi.specs.Steps.{failure_of, CountsAck};

use crate::AckRule;
use apei_base::{BusFault, Firmware, read_ack, write_ack};
use ghes_call::AckState;
use ghes_steps::Steps;
use std::sync::ledger::Ledger;

/// Clears the block at `address`: from then on it is acknowledged.
///
/// One access. After Linux 6.1, drivers/acpi/apei/ghes.c.
#[inline(always)]
pub fn clear<P: Firmware, L: Ledger>(
    address: u64,
    port: &mut P,
    steps: &mut Steps<L>,
) -> Result<(), BusFault>
    requires at { address ≡ (P.seen port.old).layout.area }
    requires stands { IsTrue (is_some (standing (P.seen port.old))) }
    ensures ok { OnOk result (P.seen port.new ≡ cleared (P.seen port.old)) }
    ensures err { OnErr result (P.seen port.new ≡ P.seen port.old) }
    ensures count { CountsFaults result (P.faults port.old) (P.faults port.new) }
    ensures cost { steps.new ≡ steps.old + 1 }
{
    steps.tick();
    apei_base::clear(port, address)
}

// A mask in its place in the register: the whole number, which may reach past it.
#[inline(always)]
fn shifted(mask: u64, bit_offset: u8) -> u128
    requires { bit_offset ≤ 64 }
    ensures { result ≡ mask * 2 ^ bit_offset }
{
    u128::from(mask) << bit_offset
}

// The low 64 bits of a number.
#[inline(always)]
fn low_bits(number: u128) -> u64
    ensures { result ≡ number % 2 ^ 64 }
{
    (number & u128::from(u64::MAX)) as u64
}

// What is written to acknowledge under masks that are not shifted, as those of nearly each table are.
#[inline(always)]
fn written_in_place(rule: &AckRule, cell: u64) -> u64
    requires { rule.now.bit_offset ≡ 0 }
    ensures { result % 2 ^ rule.now.register.width ≡ acknowledgement (rule_seen rule.now) cell }
{
    (cell & rule.preserve) | rule.write
}

// What is written to acknowledge, told what the register holds: 64 bits of it.
#[inline(always)]
fn written(rule: &AckRule, cell: u64) -> u64
    ensures { result % 2 ^ rule.now.register.width ≡ acknowledgement (rule_seen rule.now) cell }
{
    if rule.bit_offset == 0 {
        return written_in_place(rule, cell);
    }
    let kept = u128::from(cell) & shifted(rule.preserve, rule.bit_offset);
    low_bits(kept | shifted(rule.write, rule.bit_offset))
}

// Reads the register, keeps the preserved bits, sets the others, and writes it.
#[inline(always)]
fn write_back<P: Firmware, L: Ledger>(
    rule: &AckRule,
    port: &mut P,
    steps: &mut Steps<L>,
) -> Result<(), BusFault>
    requires { Some (reach_of rule.now.register) ≡ (P.seen port.old).layout.ack }
    ensures ok { OnOk result
        (P.seen port.new ≡ ack_written (acknowledgement (rule_seen rule.now) (P.seen port.old).cell) (P.seen port.old)) }
    ensures err { OnErr result (P.seen port.new ≡ P.seen port.old) }
    ensures count { CountsFaults result (P.faults port.old) (P.faults port.new) }
    ensures cost { steps.new ≤ steps.old + 2 }
{
    steps.tick();
    let cell = read_ack(port, &rule.register)?;
    steps.tick();
    write_ack(port, &rule.register, written(rule, cell))
}

/// Acknowledges a block that was cleared: with a rule, the read ack register is read and written once each, and where the
/// read fails nothing is written. Without a rule nothing is done.
///
/// At most two accesses. Source: ACPI 6.5, 18.3.2.8.
#[inline(always)]
pub fn acknowledge<P: Firmware, L: Ledger>(
    ack: &Option<AckRule>,
    port: &mut P,
    steps: &mut Steps<L>,
) -> AckState
    requires { register_of (ack_seen ack.now) ≡ (P.seen port.old).layout.ack }
    ensures state { result ≡ ack_of (ack_seen ack.now) (failure_of result) }
    ensures leaves { P.seen port.new
        ≡ acknowledged_by (ack_seen ack.now) (failure_of result) (P.seen port.old) }
    ensures count { CountsAck result (P.faults port.old) (P.faults port.new) }
    ensures cost { steps.new ≤ steps.old + 2 }
{
    match ack {
        None => AckState::NotAsked,
        Some(rule) => match write_back(rule, port, steps) {
            Ok(()) => AckState::Done,
            Err(BusFault) => AckState::Failed,
        },
    }
}
