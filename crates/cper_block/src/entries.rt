//! The entries of a block, one after another.
ghost use Rattle.std.specs.Prelude.{◌≡◌};

use crate::DataEntry;
use crate::entry::whole_entry;
use std::marker::Model;

/// The entries of a block, in order.
///
/// It ends where no whole entry begins; of a well-formed block that is behind the last.
#[derive(Debug, Drop)]
pub struct Entries<'a> {
    rest: &'a [u8],
}

impl<'a> Model for Entries<'a> {
    ghost use Rattle.std.specs.Prelude.{List, ℕ};

    ghost Value = { List ℕ };

    ghost view = { λ e. e.rest.now };
}

impl<'a> Entries<'a> {
    /// The entries that the bytes are.
    pub(crate) fn of(rest: &'a [u8]) -> Entries<'a>
        ensures { result ≡ rest.now }
    {
        Entries { rest }
    }
}

impl<'a> Iterator for Entries<'a> {
    type Item = DataEntry<'a>;

    ghost use Rattle.std.specs.Iterator.{YieldsFirstBy, item_count};
    ghost use Rattle.cper_block.specs.Entry.{view};
    ghost use Rattle.cper_block.specs.Cut.{entries_of};

    ghost next_gives = { YieldsFirstBy view entries_of };

    ghost remaining = { item_count entries_of };

    fn next(&mut self) -> Option<DataEntry<'a>> {
        let length = whole_entry(self.rest)?;
        let (entry, rest) = self.rest.split_at(length);
        self.rest = rest;
        Some(DataEntry::read(entry))
    }
}
