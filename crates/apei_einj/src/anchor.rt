//! The entries that stand for what an action reads or writes, and the actions that lack one.
ghost use Rattle.std.specs.Prelude.{◌≡◌, option_copied, is_none};
ghost use Rattle.apei_einj.specs.Anchor.{anchor_of};
ghost use Rattle.apei_einj.specs.Refusal.{lacks, is_missing, first_missing, missing_refusal};

use crate::action::{
    CHECK_BUSY, EXECUTE, GET_ERROR_TYPE, GET_STATUS, GET_TRIGGER_TABLE, SET_ERROR_TYPE,
    SET_TYPE_WITH_ADDRESS,
};
use crate::{EinjError, Entry};

/// The anchor of an action among the entries: the first that is of this action and may be its anchor.
#[tactic(auto, unfolding(crate::specs::Anchor::anchor_of))]
pub(crate) fn anchor_of(entries: &[Entry], action: u8) -> Option<&Entry>
    ensures { option_copied result ≡ anchor_of action entries.now }
{
    for entry in entries {
        if entry.action == action && entry.may_anchor(action) {
            return Some(entry);
        }
    }
    None
}

// Whether the action has no anchor among the entries.
fn lacks(entries: &[Entry], action: u8) -> bool
    ensures { result ≡ lacks action entries.now }
{
    anchor_of(entries, action).is_none()
}

// Whether the action is missing. The error type may be set by either of two.
fn is_missing(entries: &[Entry], action: u8) -> bool
    ensures { result ≡ is_missing action entries.now }
{
    lacks(entries, action) && (action != SET_ERROR_TYPE || lacks(entries, SET_TYPE_WITH_ADDRESS))
}

// The first of some actions that is missing.
#[tactic(auto, unfolding(crate::specs::Refusal::first_missing))]
fn first_missing(entries: &[Entry], actions: &[u8]) -> Option<EinjError>
    ensures { result ≡ first_missing entries.now actions.now }
{
    for action in actions {
        if is_missing(entries, *action) {
            return Some(EinjError::Missing { action: *action });
        }
    }
    None
}

/// Which action is missing, the first in the order 1, 2, 3, 5, 6, 7.
pub(crate) fn missing_refusal(entries: &[Entry]) -> Option<EinjError>
    ensures { result ≡ missing_refusal entries.now }
{
    first_missing(
        entries,
        &[
            GET_TRIGGER_TABLE,
            SET_ERROR_TYPE,
            GET_ERROR_TYPE,
            EXECUTE,
            CHECK_BUSY,
            GET_STATUS,
        ],
    )
}
