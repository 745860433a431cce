//! Laws over the definitions, each the contract of a function that does nothing.
ghost use Rattle.std.specs.Prelude.{◌≡◌, ◌≢◌, ◌<◌, ◌↔◌, ◌++◌, ℕ, false, length, slice_index_or, List, Option, IsTrue};
ghost use Rattle.apei_einj.specs.declared.entry.Entry.{Entry};
ghost use Rattle.apei_hest.specs.declared.source.Ghes.{Ghes};
ghost use Rattle.fw_map.specs.Map.{IsMapOf, IsRefusedWith, all_areas};
ghost use Rattle.fw_map.specs.Runs.{shares, HaveCommonCell};
ghost use Rattle.fw_map.specs.declared.error.FwError.{FwError};
ghost use Rattle.fw_map.specs.declared.error.FwError.TheVariants.{OutOfMemory};
ghost use Rattle.fw_map.specs.declared.map.Map.{Map};
ghost use Rattle.fw_map.specs.declared.run.Register.{Register};
ghost use Rattle.fw_map.specs.declared.run.Run.{Run};

/// Two runs share a cell, by where they begin and end, exactly where there is a cell that both have.
pub fn runs_share_a_cell_where_both_have_one()
    ensures { (one other : Run) → IsTrue (shares one other) ↔ HaveCommonCell one other }
{}

/// In a map no cell is in registers of two owners, none is in a register and in an area, and none is in two areas.
pub fn a_cell_of_a_map_has_one_owner()
    ensures registers { (sources : List Ghes) (einj : Option (List Entry)) (map : Map)
        (i j : ℕ) (none : Register) → IsMapOf sources einj map → i < j
        → j < length map.registers.items
        → (slice_index_or map.registers.items i none).owner
        ≢ (slice_index_or map.registers.items j none).owner
        → shares (slice_index_or map.registers.items i none).run
        (slice_index_or map.registers.items j none).run ≡ false }
    ensures areas { (sources : List Ghes) (einj : Option (List Entry)) (map : Map)
        (i j : ℕ) (no_register : Register) (no_area : Run) → IsMapOf sources einj map
        → i < length map.registers.items → j < length (all_areas map)
        → shares (slice_index_or map.registers.items i no_register).run
        (slice_index_or (all_areas map) j no_area) ≡ false }
    ensures apart { (sources : List Ghes) (einj : Option (List Entry)) (map : Map)
        (i j : ℕ) (none : Run) → IsMapOf sources einj map → i < j → j < length (all_areas map)
        → shares (slice_index_or (all_areas map) i none)
        (slice_index_or (all_areas map) j none) ≡ false }
{}

/// Tables have one map: its registers and its areas are those of any other. And tables that have a map are not refused, but
/// for want of memory.
pub fn tables_have_one_map()
    ensures registers { (sources : List Ghes) (einj : Option (List Entry)) (one other : Map)
        → IsMapOf sources einj one → IsMapOf sources einj other
        → one.registers.items ≡ other.registers.items }
    ensures areas { (sources : List Ghes) (einj : Option (List Entry)) (one other : Map)
        → IsMapOf sources einj one → IsMapOf sources einj other
        → all_areas one ≡ all_areas other }
    ensures refusals { (sources : List Ghes) (einj : Option (List Entry)) (map : Map)
        (error : FwError) → IsMapOf sources einj map → IsRefusedWith sources einj error
        → error ≡ OutOfMemory }
{}
