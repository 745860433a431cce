// The words for codes and reasons.
use crate::{Header, Malformed, Severity};
use std::test::Fail;

const SEVERITIES: [(u32, Severity, &str); 6] = [
    (0, Severity::Recoverable, "recoverable"),
    (1, Severity::Fatal, "fatal"),
    (2, Severity::Corrected, "corrected"),
    (3, Severity::Informational, "none"),
    (4, Severity::Fatal, "fatal"),
    (0xffff_ffff, Severity::Fatal, "fatal"),
];

const REASONS: [(Malformed, &str); 6] = [
    (Malformed::TooShort, "1 too short"),
    (Malformed::TooLong, "2 too long"),
    (Malformed::DataLength, "3 data length"),
    (Malformed::RawOffset, "4 raw offset"),
    (Malformed::EntryTruncated(3), "5 entry 3 truncated"),
    (Malformed::Leftover, "6 left over"),
];

// The severity of the code in a header.
fn in_a_header(code: u32) -> Severity {
    let mut front = [0u8; 20];
    front[16..].copy_from_slice(&code.to_le_bytes());
    Header::read(&front).severity()
}

#[test]
fn each_code_has_its_word(rt: HostRuntime) -> Result<(), Fail> {
    for (code, severity, word) in &SEVERITIES {
        let read = (in_a_header(*code), Severity::from(*code));
        assert_eq!(rt; read, (*severity, *severity), "at {code}");
        assert_eq!(rt; severity.to_string(rt.alloc())?.as_str(), *word);
    }
    Ok(())
}

#[test]
fn each_reason_has_its_words(rt: HostRuntime) -> Result<(), Fail> {
    for (reason, words) in &REASONS {
        assert_eq!(rt; reason.to_string(rt.alloc())?.as_str(), *words);
    }
    Ok(())
}
