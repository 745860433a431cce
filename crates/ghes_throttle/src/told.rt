//! What a writer tells its readers.

use crate::history::Mark;
use std::marker::Model;

/// The list of a writer, for its readers to learn. One serves all of them.
#[derive(Drop)]
pub struct Told<'a> {
    pub(crate) mark: &'a Mark,
}

impl<'a> Model for Told<'a> {
    ghost use Rattle.ghes_throttle.specs.Shown.{Known};

    ghost Value = { Known };

    ghost view = { λ t. record { book = t.mark.now.book; list = t.mark.now.list } };
}
