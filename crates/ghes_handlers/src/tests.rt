//! Handlers of a ledger, with texts worked out by a person.
mod of_source;

ghost use Rattle.std.specs.Prelude.{◌≡◌, ◌≤◌, vec_len};

use crate::{SeverityCounter, closings, tell_all, with_handlers};
use apei_base::Bytes;
use cper_block::Malformed;
use ghes_ledger::{Reported, Taken};
use ghes_notify::{Handler, Verdict};
use of_source::OfSource;
use std::alloc::{AllocError, Global};
use std::process::Abort;
use std::test::*;

// A block of a header alone, with this code of a severity.
fn block(code: u8) -> [u8; 20] {
    [
        2, 0, 0, 0, 0, 0, 0, 0, 0, 0, 0, 0, 0, 0, 0, 0, code, 0, 0, 0,
    ]
}

// A delivered block of a source.
fn delivered(alloc: Global, source: u16, seq: u32, bytes: &[u8]) -> Result<Taken, AllocError> {
    Ok(Taken::Delivered {
        source,
        seq,
        bytes: Bytes::copy(alloc, bytes)?,
        reported: Reported::New(1),
    })
}

// Three delivered blocks, and a dropped one between them. The first and the last are of source 0.
fn three(alloc: Global) -> Result<Vec<Taken>, AllocError> {
    let mut taken = Vec::new(alloc);
    taken.push(delivered(alloc, 0, 1, &block(2))?)?;
    taken.push(Taken::Dropped {
        source: 0,
        seq: 2,
        bytes: Bytes::copy(alloc, &block(2))?,
        reason: Malformed::TooShort,
    })?;
    taken.push(delivered(alloc, 1, 1, &block(0))?)?;
    taken.push(delivered(alloc, 0, 3, &block(2))?)?;
    Ok(taken)
}

// The closing texts of handlers that were told of taken blocks, and whether a handler's memory
// ran out.
fn told<H: Handler>(
    alloc: Global,
    handlers: Vec<H>,
    taken: &[Taken],
) -> Result<(Vec<u8>, bool), AllocError>
    requires { vec_len handlers ≤ 32 }
{
    let Ok(mut chain) = with_handlers(alloc, handlers) else {
        return Err(AllocError);
    };
    let short = tell_all(&mut chain, taken).is_err();
    let mut text = Vec::new(alloc);
    let handlers = chain.into_handlers();
    closings(&handlers, &mut text)?;
    Ok((text, short))
}

#[test]
fn two_counters_close_one_after_the_other(rt: HostRuntime) -> Result<(), Fail> {
    let alloc = rt.alloc();
    let handlers = Vec::from_array(alloc, [SeverityCounter::new(), SeverityCounter::new()])?;
    let mut taken = Vec::new(alloc);
    for code in [2u8, 0, 1, 3, 2, 4] {
        taken.push(delivered(alloc, 0, 1, &block(code))?)?;
    }
    taken.push(delivered(alloc, 0, 1, &[2])?)?;
    let (text, short) = told(alloc, handlers, &taken)?;
    let line =
        b"severities: recoverable 1, fatal 2, corrected 2, none 1\nseverities: recoverable 1, fatal 2, corrected 2, none 1\n";
    assert_eq!(rt; text.as_slice(), line.as_slice());
    assert!(rt; !short);
    Ok(())
}

/// Answers `Go` until it was told so often, and this from then on. Its closing text is how often it
/// was told.
#[derive(Drop)]
struct Ending {
    told: u8,
    after: u8,
    verdict: Verdict,
}

impl Handler for Ending {
    ghost use Rattle.std.specs.Prelude.{⊤, [], ◌∷◌, nat_lt, if◌then◌else◌};
    ghost use Rattle.ghes_notify.specs.declared.handler.Verdict.TheVariants.{Go};

    ghost stands = { λ _ _. ⊤ };

    ghost answers = { λ e _. if nat_lt e.told e.after then Go else e.verdict };

    ghost closing_text = { λ e. e.told ∷ [] };

    fn notify(&mut self, _source: u16, _seq: u32, _block: &[u8]) -> Verdict {
        let goes = self.told < self.after;
        self.told = self.told.saturating_add(1);
        if goes { Verdict::Go } else { self.verdict }
    }

    fn closing(&self, into: &mut Vec<u8>) -> Result<(), AllocError> {
        into.extend_from_slice(&[self.told])
    }
}

/// How often the first goes on and how it ends, how often the two were told of three deliveries,
/// and whether memory ran out.
const CASES: [(u8, Verdict, [u8; 2], bool); 4] = [
    (9, Verdict::Stop, [3, 3], false),
    (0, Verdict::Stop, [3, 0], false),
    (1, Verdict::Stop, [3, 1], false),
    (1, Verdict::NoMemory, [2, 1], true),
];

#[test]
fn a_stop_ends_a_delivery_and_want_of_memory_ends_them_all(rt: HostRuntime) -> Result<(), Fail> {
    let alloc = rt.alloc();
    let taken = three(alloc)?;
    for (after, verdict, wanted, memory) in CASES {
        let first = Ending {
            told: 0,
            after,
            verdict,
        };
        let second = Ending {
            told: 0,
            after: 9,
            verdict,
        };
        let (text, short) = told(alloc, Vec::from_array(alloc, [first, second])?, &taken)?;
        assert_eq!(rt; text.as_slice(), wanted.as_slice());
        assert_eq!(rt; short, memory);
    }
    Ok(())
}

#[test]
fn a_handler_of_ones_own_stands_in_a_box_beside_the_counter(rt: HostRuntime) -> Result<(), Fail> {
    let alloc = rt.alloc();
    let mut handlers: Vec<Box<dyn Handler + Send>> = Vec::new(alloc);
    handlers.push(Box::new(alloc, SeverityCounter::new())?)?;
    handlers.push(Box::new(
        alloc,
        OfSource {
            source: 0,
            blocks: 0,
        },
    )?)?;
    let (text, short) = told(alloc, handlers, &three(alloc)?)?;
    let lines = b"severities: recoverable 1, fatal 0, corrected 2, none 0\nsource 0: 2\n";
    assert_eq!(rt; text.as_slice(), lines.as_slice());
    assert!(rt; !short);
    Ok(())
}
