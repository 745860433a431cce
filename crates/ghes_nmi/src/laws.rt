//! Laws over the definitions, each the contract of a function that does nothing.
ghost use Rattle.std.specs.Prelude.{◌≡◌, ℕ, List, Some, None};
ghost use Rattle.cper_block.specs.Header.{header_of, header_size, block_length, header_reason};
ghost use Rattle.cper_block.specs.Image.{padded, image_of, image_reason, is_fatal};
ghost use Rattle.cper_block.specs.declared.malformed.Malformed.{Malformed as Reason};
ghost use Rattle.ghes_nmi.specs.Steps.{examined, says};

/// What the steps read of a block is its image: the header alone where that is refused under the limit, and else so many
/// bytes as the header says. What `examine` says of it is what the image's reason and severity say.
pub fn what_is_read_is_the_image()
    ensures refused { (limit : ℕ) (block : List ℕ) (reason : Reason)
        → header_reason (header_of (padded header_size block)) limit ≡ Some reason
        → (image_of limit block ≡ padded header_size block) × (image_reason limit block ≡ Some reason) }
    ensures whole { (limit : ℕ) (block : List ℕ)
        → header_reason (header_of (padded header_size block)) limit ≡ None
        → image_of limit block ≡ padded (block_length (header_of (padded header_size block))) block }
    ensures said { (limit : ℕ) (block : List ℕ)
        → header_reason (header_of (padded header_size block)) limit ≡ None
        → examined (image_of limit block) limit ≡ says (image_reason limit block) (is_fatal (image_of limit block)) }
{}
