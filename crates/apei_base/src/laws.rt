//! Laws over the definitions, each the contract of a function that does nothing.
ghost use Rattle.std.specs.Prelude.{◌≡◌, ℕ, List, Some, None, replicate};
ghost use Rattle.apei_base.specs.Firmware.{Seen, standing, area_bytes, IsRaised, IsSound};

/// The block that stands has at least the 20 bytes of a header, and a block status that is not 0.
pub fn a_standing_block_has_a_header_and_a_status()
    ensures { (seen : Seen) (faults : ℕ) (block : List ℕ) → IsSound seen faults
        → standing seen ≡ Some block → IsRaised block }
{}

/// Where no block stands the area is zeros.
pub fn an_area_without_a_block_is_zeros()
    ensures { (seen : Seen) (skip n : ℕ) → standing seen ≡ None
        → area_bytes skip n seen ≡ replicate n 0 }
{}
