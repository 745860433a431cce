// Entries: two of the revisions 0x0201 and 0x0300, of which each has its GUID, its severity to length, its FRU id, its FRU text and its
// section, and the second a timestamp before that; and the same with validation 7, with each optional field, and with the severities 0
// and 3.
use super::lines_of;
use std::alloc::Global;
use std::test::Fail;

pub const ENTRIES: &str = "\
two revisions
2200000000000000000000009000000002000000
33221100554477668899aabbccddeeff020000000102000004000000
000000000000000000000000000000000000000000000000000000000000000000000000
01020304
33221100554477668899aabbccddeeff020000000003000004000000
000000000000000000000000000000000000000000000000000000000000000000000000
0000000000000000
01020304
  severity corrected
  entry 0 section 00112233-4455-6677-8899-aabbccddeeff severity corrected
    data 01020304
  entry 1 section 00112233-4455-6677-8899-aabbccddeeff severity corrected
    data 01020304
# all of an entry
2200000000000000000000009000000002000000
33221100554477668899aabbccddeeff000000000102070004000000
00112233445566778899aabbccddeeff
44494d4d20413100000000000000000000000000
01020304
33221100554477668899aabbccddeeff030000000003070004000000
00112233445566778899aabbccddeeff
44494d4d20413100000000000000000000000000
1112131415161718
01020304
  severity corrected
  entry 0 section 00112233-4455-6677-8899-aabbccddeeff severity recoverable
    fru id 33221100-5544-7766-8899-aabbccddeeff
    fru text \"DIMM A1\"
    data 01020304
  entry 1 section 00112233-4455-6677-8899-aabbccddeeff severity none
    fru id 33221100-5544-7766-8899-aabbccddeeff
    fru text \"DIMM A1\"
    timestamp 1112131415161718
    data 01020304
";

// The 20 bytes of a FRU's text, and what is printed of it.
const TEXTS: &str = "\
0000000000000000000000000000000000000000:
4142434445464748494a4b4c4d4e4f5051525354:ABCDEFGHIJKLMNOPQRST
44494d4d00413100000000000000000000000000:DIMM
1f207e7f80ff0a41000000000000000000000000:. ~....A
225c226e00000000000000000000000000000000:\"\\\"n";

// The lines of a block of one entry with severity 4, a FRU text of these digits and no section.
fn lines_with(alloc: Global, digits: &str) -> Result<Vec<u8>, Fail> {
    let words = format!(in alloc;
        "1200000000000000000000004000000002000000
        33221100554477668899aabbccddeeff 040000000102020000000000*28 {digits}"
    )?;
    lines_of(alloc, words.as_str())
}

// How many texts are shown as they are to be, up to the first that is not.
pub fn shown(alloc: Global) -> Result<usize, Fail> {
    let mut count = 0usize;
    for line in TEXTS.split('\n') {
        let (digits, shown) = line.split_once(':').unwrap_or(("", ""));
        let wanted = format!(in alloc;
            "  severity corrected\n  entry 0 section 00112233-4455-6677-8899-aabbccddeeff severity fatal\n    fru text \"{shown}\"\n    data empty\n"
        )?;
        if lines_with(alloc, digits)?.as_slice() != wanted.as_bytes() {
            return Ok(count);
        }
        count = count.saturating_add(1);
    }
    Ok(count)
}
