//! The register of an action.
ghost use Rattle.std.specs.Prelude.{IsTrue};
ghost use Rattle.fw_einj.specs.Accepted.{is_accepted};

use apei_einj::Entry;

/// The entry that stands for an action, whose register names a region.
#[derive(Clone, Copy)]
pub struct Register {
    pub entry: Entry,
    pub ghost accepted: { IsTrue (is_accepted entry) },
}
