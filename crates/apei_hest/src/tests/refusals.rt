// Which table is refused, for which reason first, and in which words. Of the first structure, 42 is its id, 47 says whether it is
// enabled, 60 is its status register with the access size at 63, 100 is its block length, and 104 its read ack register.
use super::{right, table_of, told};
use crate::HestError;
use apei_base::{GasError, SdtError};
use std::alloc::Global;
use std::test::Fail;

// Tables of the sample of one source, with the checksum at 9 that docs/FORMATS.md gives; it without its last byte, and with
// the length that it has then; and tables without a structure, and without a whole count.
const ONE_SOURCE: &str = "one 9=40: 1: accepted\n\
    one 2=5355 9=40: 1: 1 table: 2 signature\n\
    one 9=41: 1: 1 table: 4 checksum\n\
    one 40=0c 9=3d: 1: 3 source type 12 at 40\n\
    one 36=02 9=3f: 1: 4 count says 2, found 1\n\
    one 100=1300 9=3d: 1: 7 block length of source 1\n\
    one 63=05 9=3f: 1: 6 register of source 1: 2 access size\n\
    one 103= 4=67 9=41: 1: 2 truncated at 40\n\
    36=: 0: 2 truncated at 36\n\
    37=: 0: 2 truncated at 36\n\
    38=: 0: 2 truncated at 36\n\
    39=: 0: 2 truncated at 36\n\
    40=: 0: accepted";

// The sample, and something behind it: the front of a structure; the sample of version 2 with the same id, each enabled or not, the
// first of these with the checksum that docs/FORMATS.md gives; and structures that are skipped, which may have any id.
const SECOND: &str = "one 0c: 2: 2 truncated at 104\n\
    one 0c0000: 2: 2 truncated at 104\n\
    one 0c000000: 2: 3 source type 12 at 104\n\
    one 02000000: 2: 2 truncated at 104\n\
    one 020001*19: 2: 2 truncated at 104\n\
    one 020001*20: 2: accepted\n\
    one 020001*21: 2: 2 truncated at 124\n\
    one two 106=01 9=2e: 2: 5 source 1 twice\n\
    one two 106=01 111=00: 2: 5 source 1 twice\n\
    one two 106=01 47=00: 2: 5 source 1 twice\n\
    one two 106=01 47=00 111=00: 2: 5 source 1 twice\n\
    020001*20 one 070001*44: 3: accepted";

// The sample of version 2 with other bytes: the table states the count 1, and then 7, and then the source is not enabled. A wrong
// count is told only where there is no other reason. Of a source that is not enabled only the type is judged.
const ORDER: &str = "two 104=02: 1: 6 register of source 2: 1 space\n\
    two 104=02: 7: 6 register of source 2: 1 space\n\
    two 104=02 47=00: 1: accepted\n\
    two 60=02 107=05: 1: 6 register of source 2: 1 space\n\
    two 60=02 107=05: 7: 6 register of source 2: 1 space\n\
    two 60=02 107=05 47=00: 1: accepted\n\
    two 107=05 101=00: 1: 6 register of source 2: 2 access size\n\
    two 107=05 101=00: 7: 6 register of source 2: 2 access size\n\
    two 107=05 101=00 47=00: 1: accepted\n\
    two 101=00 100=13: 1: 7 block length of source 2\n\
    two 101=00 100=13: 7: 7 block length of source 2\n\
    two 101=00 100=13 47=00: 1: accepted\n\
    two 101=00 100=14: 1: accepted\n\
    two 101=00 100=14: 7: 4 count says 7, found 1\n\
    two 101=00 100=14 47=00: 1: accepted\n\
    two 40=0c 60=02: 1: 3 source type 12 at 40\n\
    two 40=0c 60=02: 7: 3 source type 12 at 40\n\
    two 40=0c 60=02 47=00: 1: 3 source type 12 at 40";

#[test]
fn a_table_is_refused_in_the_words_of_its_first_reason(rt: HostRuntime) -> Result<(), Fail> {
    assert_eq!(rt; right(rt.alloc(), ONE_SOURCE)?, 13);
    assert_eq!(rt; right(rt.alloc(), SECOND)?, 12);
    assert_eq!(rt; right(rt.alloc(), ORDER)?, 18);
    Ok(())
}

// The first length up to these at which another thing is told of the sample that is cut off there.
fn first_other_front(alloc: Global, lengths: usize) -> Result<usize, Fail> {
    let bytes = table_of(alloc, 1, "one")?;
    for length in 0..lengths {
        let text = told(alloc, bytes.get(..length).unwrap_or(&[]))?;
        let want = if length < 36 {
            "1 table: 1 short"
        } else {
            "1 table: 3 length"
        };
        if text.as_str() != want {
            return Ok(length);
        }
    }
    Ok(lengths)
}

#[test]
fn a_table_that_is_cut_off_is_none(rt: HostRuntime) -> Result<(), Fail> {
    assert_eq!(rt; first_other_front(rt.alloc(), 104)?, 104);
    Ok(())
}

#[rattlefmt::skip]
const WORDS: [(HestError, &str); 9] = [
    (HestError::Table(SdtError::Short), "1 table: 1 short"),
    (HestError::Truncated { at: 36 }, "2 truncated at 36"),
    (HestError::SourceType { at: 104, kind: 3 }, "3 source type 3 at 104"),
    (HestError::CountMismatch { said: 2, found: 1 }, "4 count says 2, found 1"),
    (HestError::DuplicateId { id: 65535 }, "5 source 65535 twice"),
    (HestError::Register { id: 1, why: GasError::PastEnd }, "6 register of source 1: 5 past end"),
    (HestError::BlockLength { id: 0 }, "7 block length of source 0"),
    (HestError::TooMany, "8 too many"),
    (HestError::OutOfMemory, "out of memory"),
];

#[test]
fn each_refusal_has_its_words(rt: HostRuntime) -> Result<(), Fail> {
    for (error, text) in WORDS {
        assert_eq!(rt; error.to_string(rt.alloc())?.as_str(), text);
    }
    Ok(())
}
