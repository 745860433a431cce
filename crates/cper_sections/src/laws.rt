//! Laws over the definitions, each the contract of a function that does nothing.
ghost use Rattle.std.specs.Prelude.{◌≡◌, ◌≤◌, ◌<◌, ◌++◌, ℕ, List, length, filter, not, nat_le, All, Some};
ghost use Rattle.std.specs.List.{AllPairs};
ghost use Rattle.cper_sections.specs.declared.kind.Kind.{Kind};
ghost use Rattle.cper_sections.specs.Field.{Field, end_of, number_of, bytes_of, text_of};
ghost use Rattle.cper_sections.specs.Section.{guid_of, kind_of, least_length, section_fields, late_fields, full_length, owners};

/// A GUID names a kind exactly where it is that kind's own.
pub fn each_kind_has_its_own_guid()
    ensures named { (kind : Kind) → kind_of (guid_of kind) ≡ Some kind }
    ensures only { (guid : List ℕ) (kind : Kind) → kind_of guid ≡ Some kind → guid ≡ guid_of kind }
{}

/// No two fields of a section share a byte: each begins behind the validation number, and ends where the next begins
/// or before.
pub fn no_two_fields_overlap()
    ensures behind_validation { (kind : Kind) → All (λ field. 8 ≤ field.at) (section_fields kind) }
    ensures apart { (kind : Kind) → AllPairs (λ field later. end_of field ≤ later.at) (section_fields kind) }
{}

/// Each byte of a whole section behind the validation number is of one field, or of the named unread ones, and no field
/// reaches behind the section.
pub fn each_byte_is_of_one_field()
    ensures owned { (kind : Kind) (i : ℕ) → 8 ≤ i → i < full_length kind → owners kind i ≡ 1 }
    ensures within { (kind : Kind) → All (λ field. end_of field ≤ full_length kind) (section_fields kind) }
{}

/// The fields that do not fit into the least bytes of their section are the late ones: of a memory section rank, card
/// handle and module handle, and no others.
pub fn each_field_lies_in_its_section_or_is_late()
    ensures { (kind : Kind) → filter (λ field. not (nat_le (end_of field) (least_length kind))) (section_fields kind)
        ≡ late_fields kind }
{}

/// A field that is at hand is read from the bytes up to its end, whatever stands behind it.
pub fn what_stands_behind_a_field_is_not_read()
    ensures number { (field : Field) (bytes rest : List ℕ) → 8 ≤ length bytes → end_of field ≤ length bytes
        → number_of field (bytes ++ rest) ≡ number_of field bytes }
    ensures bytes { (field : Field) (bytes rest : List ℕ) → 8 ≤ length bytes → end_of field ≤ length bytes
        → bytes_of field (bytes ++ rest) ≡ bytes_of field bytes }
    ensures text { (field : Field) (bytes rest : List ℕ) → 8 ≤ length bytes → end_of field ≤ length bytes
        → text_of field (bytes ++ rest) ≡ text_of field bytes }
{}
