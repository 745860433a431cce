//! Laws over the definitions, each the contract of a function that does nothing.
ghost use Rattle.std.specs.Prelude.{◌≡◌, ◌↔◌, ◌≤◌, ℕ, List, [], length, take, map, false, Option, None};
ghost use Rattle.cper_block.specs.declared.malformed.Malformed.{Malformed};
ghost use Rattle.cper_block.specs.Header.{header_of, block_length};
ghost use Rattle.cper_block.specs.Entry.{fields_of};
ghost use Rattle.cper_block.specs.Cut.{Cuts, begins_entry, entries_of};
ghost use Rattle.cper_block.specs.Block.{data_of, Judges, IsJoined};
ghost use Rattle.cper_block.specs.Image.{image_of};
ghost use Rattle.cper_block.specs.Reason.{reason_of};

/// A well-formed block is its header, its entries, a gap and its raw data, one behind the other, and these are all
/// its bytes. It is within the limit and the bytes at hand.
pub fn a_block_is_its_parts()
    ensures joined { (bytes : List ℕ) (limit : ℕ) → Judges bytes limit None → (entries : List (List ℕ))
        × IsJoined (header_of bytes) (take (block_length (header_of bytes)) bytes) entries × Cuts (data_of bytes) entries [] }
    ensures at_hand { (bytes : List ℕ) (limit : ℕ) → Judges bytes limit None → block_length (header_of bytes) ≤ length bytes }
    ensures within { (bytes : List ℕ) (limit : ℕ) → Judges bytes limit None → block_length (header_of bytes) ≤ limit }
{}

/// Joined parts whose header says so are a well-formed block, under each limit that they keep and whatever lies behind.
pub fn joined_parts_are_a_block()
    ensures front { (bytes : List ℕ) (limit : ℕ) (entries : List (List ℕ))
        → IsJoined (header_of bytes) (take (block_length (header_of bytes)) bytes) entries
        → block_length (header_of bytes) ≤ limit → Judges bytes limit None }
    ensures whole { (block : List ℕ) (limit : ℕ) (entries : List (List ℕ)) → IsJoined (header_of block) block entries
        → length block ≤ limit → Judges block limit None }
{}

/// The entries that a block gives are those that its data is cut into, in order.
pub fn the_entries_are_those_of_the_cut()
    ensures { (bytes rest : List ℕ) (entries : List (List ℕ)) → Cuts bytes entries rest → begins_entry rest ≡ false
        → entries_of bytes ≡ map fields_of entries }
{}

/// Bytes are judged in one way: they are well formed or not, and for one reason.
pub fn bytes_are_judged_in_one_way()
    ensures { (bytes : List ℕ) (limit : ℕ) (first second : Option Malformed) → Judges bytes limit first
        → Judges bytes limit second → first ≡ second }
{}

/// The computed reason of a block is its judgement.
pub fn a_reason_is_the_judgement()
    ensures { (bytes : List ℕ) (limit : ℕ) (answer : Option Malformed) → Judges bytes limit answer ↔ (answer ≡ reason_of bytes limit) }
{}

/// A block that a limit lets in is let in by a higher one.
pub fn a_higher_limit_lets_a_block_in()
    ensures { (bytes : List ℕ) (low high : ℕ) → low ≤ high → Judges bytes low None → Judges bytes high None }
{}

/// The image of a well-formed block is the block, without what lies behind it. So a block that nothing lies behind is its
/// own image.
pub fn a_well_formed_block_is_its_own_image()
    ensures front { (block : List ℕ) (limit : ℕ) → Judges block limit None
        → image_of limit block ≡ take (block_length (header_of block)) block }
    ensures whole { (block : List ℕ) (limit : ℕ) → Judges block limit None → length block ≡ block_length (header_of block)
        → image_of limit block ≡ block }
{}
