//! The words that a script has names for: its settings, its commands, and the classes of errors.
ghost use Rattle.std.specs.Prelude.{◌≡◌, bytes_eq};
ghost use Rattle.ghes_script.specs.Name.{setting_of, command_of, name_of, class_of};

use crate::Class;

/// The first word of a line.
#[derive(Clone, Copy, Debug, PartialEq, Eq)]
pub(crate) enum Name {
    Slots,
    Contexts,
    Serve,
    AckCell,
    Available,
    Busy,
    Status,
    Route,
    Clock,
    Raise,
    Inject,
    Nmi,
    Work,
    Run,
    Peek,
    Fail,
}

/// Whether a word is this one.
pub(crate) fn is(word: &[u8], name: &[u8]) -> bool
    ensures { result ≡ bytes_eq word.now name.now }
{
    word == name
}

impl Name {
    // The setting of this name.
    #[tactic(auto, unfolding(crate::specs::Name::setting_of))]
    fn setting(word: &[u8]) -> Option<Name>
        ensures { result ≡ setting_of word.now }
    {
        if is(word, b"slots") {
            return Some(Name::Slots);
        }
        if is(word, b"contexts") {
            return Some(Name::Contexts);
        }
        if is(word, b"serve") {
            return Some(Name::Serve);
        }
        if is(word, b"ackcell") {
            return Some(Name::AckCell);
        }
        if is(word, b"available") {
            return Some(Name::Available);
        }
        if is(word, b"busy") {
            return Some(Name::Busy);
        }
        if is(word, b"status") {
            return Some(Name::Status);
        }
        if is(word, b"route") {
            return Some(Name::Route);
        }
        None
    }

    // The command of this name.
    #[tactic(auto, unfolding(crate::specs::Name::command_of))]
    fn command(word: &[u8]) -> Option<Name>
        ensures { result ≡ command_of word.now }
    {
        if is(word, b"nmi") {
            return Some(Name::Nmi);
        }
        if is(word, b"raise") {
            return Some(Name::Raise);
        }
        if is(word, b"work") {
            return Some(Name::Work);
        }
        if is(word, b"clock") {
            return Some(Name::Clock);
        }
        if is(word, b"inject") {
            return Some(Name::Inject);
        }
        if is(word, b"run") {
            return Some(Name::Run);
        }
        if is(word, b"peek") {
            return Some(Name::Peek);
        }
        if is(word, b"fail") {
            return Some(Name::Fail);
        }
        None
    }

    /// The setting or the command of this name.
    pub fn of(word: &[u8]) -> Option<Name>
        ensures { result ≡ name_of word.now }
    {
        match Name::command(word) {
            Some(name) => Some(name),
            None => Name::setting(word),
        }
    }
}

/// The class of errors of this name.
#[tactic(auto, unfolding(crate::specs::Name::class_of))]
pub(crate) fn class_of(word: &[u8]) -> Option<Class>
    ensures { result ≡ class_of word.now }
{
    if is(word, b"processor") {
        return Some(Class::Processor);
    }
    if is(word, b"memory") {
        return Some(Class::Memory);
    }
    if is(word, b"pcie") {
        return Some(Class::Pcie);
    }
    if is(word, b"platform") {
        return Some(Class::Platform);
    }
    None
}
