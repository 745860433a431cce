//! What the settings of a script say, the last one of a kind.
ghost use Rattle.std.specs.Prelude.{◌≡◌, ◌≤◌, length, take};
ghost use Rattle.ghes_script.specs.Sound.{is_setting};
ghost use Rattle.ghes_setup.specs.Settings.{settings_of, said_by, slots_by, slots_of, contexts_by, contexts_of, server_by, cell_by, cell_of, class_index, setup_by, setup_of, setup_in};

use fw_einj::Setup;
use ghes_script::{Class, Line, What};

// Whether a line is a setting.
fn is_setting(what: &What) -> bool
    ensures { result ≡ is_setting what.now }
{
    match what {
        What::Slots(_)
        | What::Contexts(_)
        | What::Serve(_, _)
        | What::AckCell(_, _)
        | What::Available(_)
        | What::Busy(_)
        | What::Status(_)
        | What::Route(_, _) => true,
        What::Clock(_)
        | What::Raise(_, _)
        | What::Inject(_)
        | What::Nmi(_)
        | What::Work
        | What::Run(_)
        | What::Peek(_)
        | What::Fail(_, _) => false,
    }
}

// How many lines stand before the first command.
fn count(lines: &[Line]) -> usize
    ensures value { take result lines.now ≡ settings_of lines.now }
    ensures within { result ≤ length lines.now }
{
    let mut rest = lines;
    let mut passed = 0;
    while let Some((line, later)) = rest.split_first() {
        if !is_setting(&line.what) {
            return passed;
        }
        passed += 1;
        rest = later;
    }
    passed
}

/// The settings of a script: its lines before the first command.
pub(crate) fn settings_of(lines: &[Line]) -> &[Line]
    ensures { result.now ≡ settings_of lines.now }
{
    let (settings, _) = lines.split_at(count(lines));
    settings
}

// How many slots the pool has, by one line more.
fn slots_by(before: u8, what: &What) -> u8
    ensures { result ≡ slots_by before what.now }
{
    match what {
        What::Slots(n) => *n,
        _ => before,
    }
}

// How many contexts call the receiver, by one line more.
fn contexts_by(before: u16, what: &What) -> u16
    ensures { result ≡ contexts_by before what.now }
{
    match what {
        What::Contexts(n) => u16::from(*n),
        _ => before,
    }
}

// The context that serves the source at a position, by one line more.
fn server_by(at: usize, before: u16, what: &What) -> u16
    ensures { result ≡ server_by at before what.now }
{
    match what {
        What::Serve(source, context) => { if *source == at { *context } else { before } }
        _ => before,
    }
}

// What the read ack register of the source at a position is told to hold, by one line more.
fn cell_by(at: usize, before: u64, what: &What) -> u64
    ensures { result ≡ cell_by at before what.now }
{
    match what {
        What::AckCell(source, value) => { if *source == at { *value } else { before } }
        _ => before,
    }
}

/// How many slots the pool has.
pub(crate) fn slots(settings: &[Line]) -> u8
    ensures { result ≡ slots_of settings.now }
{
    let mut slots = 16;
    let mut rest = settings;
    while let Some((line, later)) = rest.split_first() {
        slots = slots_by(slots, &line.what);
        rest = later;
    }
    slots
}

/// How many contexts call the receiver.
pub(crate) fn contexts(settings: &[Line]) -> u16
    ensures { result ≡ contexts_of settings.now }
{
    let mut contexts = 1;
    let mut rest = settings;
    while let Some((line, later)) = rest.split_first() {
        contexts = contexts_by(contexts, &line.what);
        rest = later;
    }
    contexts
}

/// The context that serves the source at a position, this one without a `serve`.
pub(crate) fn server(settings: &[Line], at: usize, default: u16) -> u16
    ensures { result ≡ said_by (server_by at) default settings.now }
{
    let mut server = default;
    let mut rest = settings;
    while let Some((line, later)) = rest.split_first() {
        server = server_by(at, server, &line.what);
        rest = later;
    }
    server
}

/// What the read ack register of the source at a position is told to hold at first.
pub(crate) fn cell(settings: &[Line], at: usize) -> u64
    ensures { result ≡ cell_of settings.now at }
{
    let mut cell = 0;
    let mut rest = settings;
    while let Some((line, later)) = rest.split_first() {
        cell = cell_by(at, cell, &line.what);
        rest = later;
    }
    cell
}

// The position of a class among the routes.
fn class_index(class: Class) -> usize
    ensures { result ≡ class_index class }
{
    match class {
        Class::Processor => 0,
        Class::Memory => 1,
        Class::Pcie => 2,
        Class::Platform => 3,
    }
}

// How an injection is answered, by one line more.
fn answers(setup: Setup, what: &What) -> Setup
    ensures { result ≡ setup_by setup what.now }
{
    let mut setup = setup;
    match *what {
        What::Available(value) => setup.available = value,
        What::Busy(n) => setup.busy = n,
        What::Status(n) => setup.status = n,
        What::Route(class, source) => setup.routes[class_index(class)] = source,
        _ => {}
    }
    setup
}

// How an injection is answered where no setting says it.
const DEFAULT: Setup = Setup {
    available: 0xfff,
    busy: 0,
    status: 0,
    routes: [0; 4],
};

// How an injection is answered, by these settings.
fn answered(settings: &[Line]) -> Setup
    ensures { result ≡ setup_of settings.now }
{
    let mut setup = DEFAULT;
    let mut rest = settings;
    while let Some((line, later)) = rest.split_first() {
        setup = answers(setup, &line.what);
        rest = later;
    }
    setup
}

/// How the machine answers an injection, by the settings of a script.
///
/// Without a setting each of the 12 types is available, no read finds the machine busy, the command status is 0, and the
/// first enabled source tells. Source: own choice.
pub fn setup(lines: &[Line]) -> Setup
    ensures { result ≡ setup_in lines.now }
{
    answered(settings_of(lines))
}
