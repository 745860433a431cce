//! Calls of plain and of boxed handlers, worked out by a person.
ghost use Rattle.std.specs.Prelude.{◌≤◌, ◌<◌, ◌+◌};

use crate::{Handler, HandlerId, HandlerMemory, NotifierChain, Notifiers, RegisterError, Verdict};
use std::alloc::AllocError;
use std::process::Abort;
use std::test::*;

const Z: [u8; 2] = [2, 0];

/// Counts the deliveries that it is told of, and keeps the number of the last one. Its closing text is both.
#[derive(Drop)]
struct Counter {
    verdict: Verdict,
    told: u8,
    last: u8,
}

impl Counter {
    fn new(verdict: Verdict) -> Counter {
        Counter {
            verdict,
            told: 0,
            last: 0,
        }
    }
}

impl Handler for Counter {
    ghost use Rattle.std.specs.Prelude.{⊤, [], ◌∷◌};

    ghost stands = { λ _ _. ⊤ };

    ghost answers = { λ c _. c.verdict };

    ghost closing_text = { λ c. c.told ∷ c.last ∷ [] };

    fn notify(&mut self, _source: u16, seq: u32, _block: &[u8]) -> Verdict {
        self.told = self.told.saturating_add(1);
        self.last = if seq < 256 { seq as u8 } else { 0 };
        self.verdict
    }

    fn closing(&self, into: &mut Vec<u8>) -> Result<(), AllocError> {
        into.extend_from_slice(&[self.told, self.last])
    }
}

#[test]
fn a_stop_ends_a_delivery_until_its_handler_is_gone(rt: HostRuntime) -> Result<(), Fail> {
    let alloc = rt.alloc();
    let mut chain = Notifiers::new(alloc)?;
    let stops = Box::new(alloc, Counter::new(Verdict::Stop))?;
    let goes = Box::new(alloc, Counter::new(Verdict::Go))?;
    let Ok(stop) = chain.register(stops, 10) else {
        panic!(rt; "not registered");
    };
    let Ok(_) = chain.register(goes, 0) else {
        panic!(rt; "not registered");
    };
    let first = chain.call(0, 1, &Z);
    let mut text = Vec::new(alloc);
    match chain.unregister(stop) {
        Some(back) => back.closing(&mut text)?,
        None => {}
    }
    let second = chain.call(0, 2, &Z);
    let gone = chain.unregister(stop).is_none();
    for handler in chain.into_handlers() {
        handler.closing(&mut text)?;
    }
    assert!(rt; first.is_ok() && second.is_ok() && gone);
    assert_eq!(rt; text.as_slice(), [1, 1, 1, 2].as_slice());
    Ok(())
}

fn add(chain: &mut NotifierChain<Counter>, verdict: Verdict, priority: i32) -> Option<HandlerId>
    requires { chain.old.made < 1000 }
    ensures { chain.new.made ≤ chain.old.made + 1 }
{
    match chain.register(Counter::new(verdict), priority) {
        Ok(id) => Some(id),
        Err(_) => None,
    }
}

const GO: Verdict = Verdict::Go;

/// Priorities and answers in order of registration, then the closing texts, and whose memory ran out.
const CASES: [([i32; 4], [Verdict; 4], [u8; 8], Option<usize>); 5] = [
    (
        [0, 1, 2, 3],
        [GO, GO, GO, GO],
        [1, 3, 1, 3, 1, 3, 1, 3],
        None,
    ),
    (
        [0, 7, 7, -1],
        [GO, GO, Verdict::Stop, GO],
        [0, 0, 1, 3, 1, 3, 0, 0],
        None,
    ),
    (
        [-1, -1, 3, i32::MIN],
        [Verdict::Stop, GO, GO, GO],
        [1, 3, 0, 0, 1, 3, 0, 0],
        None,
    ),
    (
        [0, 0, 0, 0],
        [GO, Verdict::NoMemory, GO, GO],
        [1, 3, 1, 3, 0, 0, 0, 0],
        Some(1),
    ),
    (
        [5, 5, 6, 6],
        [GO, GO, Verdict::NoMemory, GO],
        [0, 0, 0, 0, 1, 3, 0, 0],
        Some(2),
    ),
];

#[test]
fn handlers_are_told_by_falling_priority_and_come_back_as_registered(
    rt: HostRuntime,
) -> Result<(), Fail> {
    for (priorities, verdicts, closing, memory) in CASES {
        let mut chain = NotifierChain::new(rt.alloc())?;
        let ids = [
            add(&mut chain, verdicts[0], priorities[0]),
            add(&mut chain, verdicts[1], priorities[1]),
            add(&mut chain, verdicts[2], priorities[2]),
            add(&mut chain, verdicts[3], priorities[3]),
        ];
        let found = match chain.call(7, 3, &Z) {
            Ok(()) => None,
            Err(HandlerMemory(id)) => ids.iter().position(|other| *other == Some(id)),
        };
        let mut text = Vec::new(rt.alloc());
        for handler in chain.into_handlers() {
            handler.closing(&mut text)?;
        }
        assert_eq!(rt; text.as_slice(), closing.as_slice());
        assert_eq!(rt; found, memory);
    }
    Ok(())
}

#[test]
fn the_handler_after_the_thirty_second_comes_back(rt: HostRuntime) -> Result<(), Fail> {
    let mut chain = NotifierChain::new(rt.alloc())?;
    let first = add(&mut chain, GO, 0);
    let mut registered = 1u8;
    let mut full = 0u8;
    for _ in 0..32u64 {
        match chain.register(Counter::new(GO), 0) {
            Ok(_) => registered = registered.saturating_add(1),
            Err(RegisterError::Full(back)) => full = full
                .saturating_add(1)
                .saturating_add(back.told),
            Err(RegisterError::OutOfMemory(_)) => {}
        }
    }
    let Some(id) = first else {
        panic!(rt; "not registered");
    };
    let out = chain.unregister(id).is_some();
    let next = add(&mut chain, GO, 0);
    assert_eq!(rt; (registered, full, out), (32, 1, true));
    assert!(rt; next.is_some() && next != first);
    Ok(())
}
