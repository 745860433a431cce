//! The lines of fields, one for each row of a table whose field is given.
ghost use Rattle.std.specs.Prelude.{◌≡◌, ◌≤◌, ◌++◌, length, map, true, OnOk};
ghost use Rattle.std.specs.List.{flat_map, list_all};
ghost use Rattle.std.specs.Option.{option_copied};
ghost use Rattle.cper_sections.specs.Field.{is_field};
ghost use Rattle.cper_sections.specs.Row.{field_of};
ghost use Rattle.cper_text.specs.Section.{field_head, number_line, list_line, quoted_line, field_line};

use crate::bytes::{bytes_line, low_digits, text_line};
use crate::text::Text;
use cper_sections::{Form, Row};
use std::alloc::AllocError;

// Adds what stands before the value of a field.
#[inline(always)]
#[tactic(auto, using(crate::proofs::Joining::grouped))]
fn field_head(text: &mut Text, name: &str) -> Result<(), AllocError>
    ensures ok { OnOk result (text.new.added ≡ text.old.added ++ field_head name.now) }
    ensures front { text.new.front ≡ text.old.front }
{
    text.put(b"    ")?;
    text.put(name.as_bytes())?;
    text.put(b" ")
}

// Adds the line of a number of so many bytes, where it is given.
#[tactic(auto, unfolding(crate::specs::Section::number_line), using(crate::proofs::Joining::grouped))]
fn number_line(
    text: &mut Text,
    name: &str,
    width: usize,
    value: Option<u64>,
) -> Result<(), AllocError>
    requires { width ≤ 8 }
    ensures ok { OnOk result (text.new.added ≡ text.old.added ++ number_line name.now width value) }
    ensures front { text.new.front ≡ text.old.front }
{
    let Some(number) = value else {
        return Ok(());
    };
    field_head(text, name)?;
    text.put(b"0x")?;
    low_digits(text, width, number)?;
    text.put(b"\n")
}

// Adds the line of a list of bytes, where it is given.
#[tactic(auto, unfolding(crate::specs::Section::list_line, crate::specs::Bytes::bytes_line), using(crate::proofs::Joining::grouped))]
fn list_line(text: &mut Text, name: &str, value: Option<&[u8]>) -> Result<(), AllocError>
    ensures ok { OnOk result (text.new.added ≡ text.old.added ++ list_line name.now (option_copied value.entry)) }
    ensures front { text.new.front ≡ text.old.front }
{
    let Some(bytes) = value else {
        return Ok(());
    };
    field_head(text, name)?;
    bytes_line(text, "", bytes)
}

// Adds the line of a text, where it is given.
#[tactic(auto, unfolding(crate::specs::Section::quoted_line, crate::specs::Bytes::text_line), using(crate::proofs::Joining::grouped))]
fn quoted_line(text: &mut Text, name: &str, value: Option<&[u8]>) -> Result<(), AllocError>
    ensures ok { OnOk result (text.new.added ≡ text.old.added ++ quoted_line name.now (option_copied value.entry)) }
    ensures front { text.new.front ≡ text.old.front }
{
    let Some(bytes) = value else {
        return Ok(());
    };
    field_head(text, name)?;
    text_line(text, "", bytes)
}

// Adds the line of the field of a row, where it is given.
#[tactic(auto, using(cper_sections::proofs::RowLemmas::most_width))]
fn field_line(text: &mut Text, row: &Row, bytes: &[u8]) -> Result<(), AllocError>
    requires field { is_field (field_of row.now) ≡ true }
    requires validation { 8 ≤ length bytes.now }
    ensures ok { OnOk result (text.new.added ≡ text.old.added ++ field_line bytes.now (field_of row.now)) }
    ensures front { text.new.front ≡ text.old.front }
{
    if !row.is_given(bytes) {
        return Ok(());
    }
    match row.form {
        Form::Number => number_line(text, row.name, row.width, row.number(bytes)),
        Form::Bytes => list_line(text, row.name, row.bytes(bytes)),
        Form::Text => quoted_line(text, row.name, row.text(bytes)),
    }
}

/// Adds the lines of the fields of a section, by the rows of its table.
pub(crate) fn field_lines(text: &mut Text, rows: &[Row], bytes: &[u8]) -> Result<(), AllocError>
    requires fields { list_all is_field (map field_of rows.now) ≡ true }
    requires validation { 8 ≤ length bytes.now }
    ensures ok { OnOk result (text.new.added ≡ text.old.added ++ flat_map (field_line bytes.now) (map field_of rows.now)) }
    ensures front { text.new.front ≡ text.old.front }
{
    let mut rest = rows;
    while let Some((row, behind)) = rest.split_first() {
        field_line(text, row, bytes)?;
        rest = behind;
    }
    Ok(())
}
