//! Laws over the definitions, each the contract of a function that does nothing.
ghost use Rattle.std.specs.Prelude.{◌≡◌, ◌≤◌, ◌↔◌, ℕ, nat_eq, length, List, [], Result, Ok};
ghost use Rattle.std.specs.List.{AllByRecursion, IsDistinct};
ghost use Rattle.apei_hest.specs.declared.source.Source.{Source};
ghost use Rattle.apei_hest.specs.declared.error.HestError.{HestError};
ghost use Rattle.apei_hest.specs.Hest.{IsHest, Judges, IsJudged};
ghost use Rattle.apei_hest.specs.Refusal.{enabled, AreAccepted};
ghost use Rattle.apei_hest.specs.Sound.{ids_of, IsSound};

/// A table is accepted exactly where it is its header, its count and structures one behind another, none of which is
/// refused and which are as many as the count says; its sources are those of the structures, in order.
pub fn an_accepted_table_is_its_structures()
    ensures { (bytes : List ℕ) (found : List Source)
        → Judges bytes (Ok found) ↔ IsHest bytes found }
{}

/// Bytes are judged in one way: they are accepted with some sources or refused, and for one reason.
pub fn a_table_is_read_in_one_way()
    ensures { (bytes : List ℕ) (first second : Result (List Source) HestError)
        → Judges bytes first → Judges bytes second
        → first ≡ second }
{}

/// Each list of bytes is judged: it is accepted with some sources, or refused for some reason.
pub fn each_list_of_bytes_is_judged()
    ensures { (bytes : List ℕ) → IsJudged bytes }
{}

/// Sources none of which is refused behind those before it may be told apart and read: no two generic sources have one
/// id, at most 64 are enabled, and each of these has registers that name regions and a block with room for a header.
pub fn accepted_sources_are_sound()
    ensures distinct { (found : List Source)
        → AreAccepted [] found → IsDistinct nat_eq (ids_of found) }
    ensures few { (found : List Source) → AreAccepted [] found → length (enabled found) ≤ 64 }
    ensures sound { (found : List Source) → AreAccepted [] found
        → AllByRecursion IsSound (enabled found) }
{}

/// So are the sources of an accepted table.
pub fn an_accepted_table_has_sound_sources()
    ensures distinct { (bytes : List ℕ) (found : List Source)
        → Judges bytes (Ok found) → IsDistinct nat_eq (ids_of found) }
    ensures few { (bytes : List ℕ) (found : List Source)
        → Judges bytes (Ok found) → length (enabled found) ≤ 64 }
    ensures sound { (bytes : List ℕ) (found : List Source) → Judges bytes (Ok found)
        → AllByRecursion IsSound (enabled found) }
{}
