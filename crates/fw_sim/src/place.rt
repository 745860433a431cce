//! Where a source stands, by its tables and the map of the machine.
ghost use Rattle.std.specs.Prelude.{◌≡◌, ◌≤◌, ◌+◌, ◌/◌, ◌^◌, None};
ghost use Rattle.std.specs.Option.{IfSome, option_map};
ghost use Rattle.apei_base.specs.Bus.{reach_of};
ghost use Rattle.apei_base.specs.Region.{gas_refusal};
ghost use Rattle.apei_hest.specs.Sound.{IsSound};
ghost use Rattle.fw_map.specs.Apart.{gas_reach, layout_of, IsToldApart};
ghost use Rattle.fw_port.specs.Port as ports;

use apei_base::{Gas, Region};
use apei_hest::{Ack2, Ghes};
use fw_map::Run;
use fw_port::SourceLayout;

// The region of a register that is not refused.
fn region_of(gas: &Gas) -> Region
    requires { gas_refusal gas.now ≡ None }
    ensures reach { reach_of result ≡ gas_reach gas.now }
    ensures ends { result.address + result.width / 8 ≤ 2 ^ 64 }
{
    let Ok(region) = gas.check() else {
        unreachable!()
    };
    region
}

// The region of the read ack register, where there is one.
fn ack_region(ack: &Option<Ack2>) -> Option<Region>
    requires { IfSome ack.now (λ ack. gas_refusal ack.register ≡ None) }
    ensures reach { option_map reach_of result
        ≡ option_map (λ ack. gas_reach ack.register) ack.now }
    ensures ends { IfSome result (λ region. region.address + region.width / 8 ≤ 2 ^ 64) }
{
    match ack {
        Some(ack) => Some(region_of(&ack.register)),
        None => None,
    }
}

/// Where a source stands that has this area.
pub(crate) fn source_layout(ghes: &Ghes, area: &Run) -> SourceLayout
    requires sound { IsSound ghes.now }
    requires apart { IsToldApart ghes.now area.now }
    ensures { ports.layout_of result ≡ layout_of ghes.now area.now }
{
    let status = region_of(&ghes.status);
    let ack = ack_region(&ghes.ack);
    SourceLayout {
        status,
        area: area.first,
        room: area.bytes,
        ack,
    }
}
