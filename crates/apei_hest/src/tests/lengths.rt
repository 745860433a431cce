// How long a structure of each type is.
use super::{gives, right};
use crate::Source;
use std::test::Fail;

// A structure of id 7 whose bank count says its length; its type, and its length.
#[rattlefmt::skip]
const BANKED: [(&str, u16, u32); 9] = [
    ("000007*40 72=00", 0, 40),
    ("000007*68 72=01", 0, 68),
    ("000007*7180 72=ff", 0, 7180),
    ("010007*48 84=00", 1, 48),
    ("010007*76 84=01", 1, 76),
    ("010007*7188 84=ff", 1, 7188),
    ("0b0007*48 84=00", 11, 48),
    ("0b0007*76 84=01", 11, 76),
    ("0b0007*7188 84=ff", 11, 7188),
];

// The same without their last bytes; structures without banks, whole, and without the last byte; those that are cut off before the
// bank count, and behind it; and types without a length.
const TOLD: &str = "000007*39 72=00: 1: 2 truncated at 40\n\
    000007*67 72=01: 1: 2 truncated at 40\n\
    000007*7179 72=ff: 1: 2 truncated at 40\n\
    010007*47 84=00: 1: 2 truncated at 40\n\
    010007*75 84=01: 1: 2 truncated at 40\n\
    010007*7187 84=ff: 1: 2 truncated at 40\n\
    0b0007*47 84=00: 1: 2 truncated at 40\n\
    0b0007*75 84=01: 1: 2 truncated at 40\n\
    0b0007*7187 84=ff: 1: 2 truncated at 40\n\
    020007*20: 1: accepted\n\
    020007*19: 1: 2 truncated at 40\n\
    060007*48: 1: accepted\n\
    060007*47: 1: 2 truncated at 40\n\
    070007*44: 1: accepted\n\
    070007*43: 1: 2 truncated at 40\n\
    080007*56: 1: accepted\n\
    080007*55: 1: 2 truncated at 40\n\
    090007*64: 1: accepted\n\
    090007*63: 1: 2 truncated at 40\n\
    0a0007*92: 1: accepted\n\
    0a0007*91: 1: 2 truncated at 40\n\
    000007*32: 1: 2 truncated at 40\n\
    000007*33: 1: 2 truncated at 40\n\
    010007*44: 1: 2 truncated at 40\n\
    010007*45: 1: 2 truncated at 40\n\
    0b0007*44: 1: 2 truncated at 40\n\
    0b0007*45: 1: 2 truncated at 40\n\
    030007*4: 1: 3 source type 3 at 40\n\
    030007*64: 1: 3 source type 3 at 40\n\
    040007*4: 1: 3 source type 4 at 40\n\
    040007*64: 1: 3 source type 4 at 40\n\
    050007*4: 1: 3 source type 5 at 40\n\
    050007*64: 1: 3 source type 5 at 40\n\
    0c0007*4: 1: 3 source type 12 at 40\n\
    0c0007*64: 1: 3 source type 12 at 40\n\
    ff0007*4: 1: 3 source type 255 at 40\n\
    ff0007*64: 1: 3 source type 255 at 40";

#[test]
fn a_structure_is_as_long_as_its_type_and_its_banks_say(rt: HostRuntime) -> Result<(), Fail> {
    for (words, kind, length) in BANKED {
        let skipped = Source::Skipped {
            kind,
            id: 7,
            at: 40,
            length,
        };
        assert!(rt; gives(rt.alloc(), 1, words, &[skipped])?, "{words}");
    }
    assert_eq!(rt; right(rt.alloc(), TOLD)?, 37);
    Ok(())
}
