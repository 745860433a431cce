//! How a receiver enters in a ledger what happened, one entry at a time.
ghost use Rattle.std.specs.Prelude.{◌≡◌, ◌∷◌, ◌++◌, length, OnOk, OnErr, None, []};
ghost use Rattle.ghes_call.specs.Packet.{seen_of};
ghost use Rattle.ghes_ledger.specs.Kept.{nothing_kept, told_as, taken_by, with_entry, with_taken, panic_entry, mark_of};

use crate::{InjectionEnd, Ledger, Mark, PanicEntry, Report, Reported, Taken};
use apei_base::Bytes;
use ghes_call::{Call, Packet};
use std::alloc::{AllocError, Global};

impl Ledger {
    /// A ledger of nothing.
    pub fn new(alloc: Global) -> Ledger
        ensures { result ≡ nothing_kept }
    {
        Ledger {
            calls: Vec::new(alloc),
            taken: Vec::new(alloc),
            reports: Vec::new(alloc),
            panic: Vec::new(alloc),
            injections: Vec::new(alloc),
            peeks: Vec::new(alloc),
            marks: Vec::new(alloc),
        }
    }

    /// Enters a call.
    pub fn enter_call(&mut self, call: Call) -> Result<(), AllocError>
        ensures ok { OnOk result (self.new ≡ record self.old { calls = self.old.calls ++ call ∷ [] }) }
        ensures err { OnErr result (self.new ≡ self.old) }
    {
        self.calls.push(call)?;
        Ok(())
    }

    // Enters a taken block that makes no report.
    fn push_taken(&mut self, entry: Taken) -> Result<(), AllocError>
        ensures ok { OnOk result (self.new ≡ record self.old { taken = self.old.taken ++ entry ∷ [] }) }
        ensures err { OnErr result (self.new ≡ self.old) }
    {
        self.taken.push(entry)?;
        Ok(())
    }

    // Enters a taken block and its report, or neither.
    fn push_reported(&mut self, entry: Taken, report: Report) -> Result<(), AllocError>
        ensures ok { OnOk result (self.new ≡ record self.old {
          taken = self.old.taken ++ entry ∷ [];
          reports = self.old.reports ++ report ∷ [];
        }) }
        ensures err { OnErr result (self.new ≡ self.old) }
    {
        self.taken.push(entry)?;
        if self.reports.push(report).is_err() {
            self.taken.pop();
            return Err(AllocError);
        }
        Ok(())
    }

    // Enters a block as delivered: as a repeat of the report that a look found, or as new with its report.
    fn enter_delivery(
        &mut self,
        alloc: Global,
        packet: &Packet,
        found: Option<u64>,
        now: u64,
    ) -> Result<(), AllocError>
        ensures ok { OnOk result (self.new
            ≡ with_entry now (taken_by None (told_as found (length self.old.reports)) (seen_of packet.now)) self.old) }
        ensures err { OnErr result (self.new ≡ self.old) }
    {
        let (source, seq) = (packet.source, packet.seq);
        let bytes = Bytes::copy(alloc, packet.bytes.as_slice())?;
        match found {
            Some(number) => self.push_taken(Taken::Delivered {
                source,
                seq,
                bytes,
                reported: Reported::Repeat(number),
            }),
            None => {
                let report = Report {
                    source,
                    seq,
                    time: now,
                    bytes: Bytes::copy(alloc, packet.bytes.as_slice())?,
                };
                let reported = Reported::New(self.reports.len() as u64 + 1);
                let entry = Taken::Delivered {
                    source,
                    seq,
                    bytes,
                    reported,
                };
                self.push_reported(entry, report)
            }
        }
    }

    /// Enters a packet that was taken at this time, in nanoseconds: as dropped, where it is malformed, and else as delivered. A
    /// delivery is a repeat of the report of the number that a look found, and without one it is new and makes a report.
    pub fn enter_taken(
        &mut self,
        alloc: Global,
        packet: &Packet,
        found: Option<u64>,
        now: u64,
    ) -> Result<(), AllocError>
        ensures ok { OnOk result (self.new ≡ with_taken now found (seen_of packet.now) self.old) }
        ensures err { OnErr result (self.new ≡ self.old) }
    {
        match packet.reason {
            None => self.enter_delivery(alloc, packet, found, now),
            Some(reason) => self.push_taken(Taken::Dropped {
                source: packet.source,
                seq: packet.seq,
                bytes: Bytes::copy(alloc, packet.bytes.as_slice())?,
                reason,
            }),
        }
    }

    /// Enters a packet in the panic list, as one that was pending or as a fatal one.
    pub fn enter_panic(
        &mut self,
        alloc: Global,
        packet: &Packet,
        fatal: bool,
    ) -> Result<(), AllocError>
        ensures ok { OnOk result (self.new
            ≡ record self.old { panic = self.old.panic ++ panic_entry fatal (seen_of packet.now) ∷ [] }) }
        ensures err { OnErr result (self.new ≡ self.old) }
    {
        self.panic.push(PanicEntry {
            source: packet.source,
            seq: packet.seq,
            bytes: Bytes::copy(alloc, packet.bytes.as_slice())?,
            reason: packet.reason,
            fatal,
        })?;
        Ok(())
    }

    /// Enters how an injection ended.
    pub fn enter_injection(&mut self, end: InjectionEnd) -> Result<(), AllocError>
        ensures ok { OnOk result (self.new ≡ record self.old { injections = self.old.injections ++ end ∷ [] }) }
        ensures err { OnErr result (self.new ≡ self.old) }
    {
        self.injections.push(end)?;
        Ok(())
    }

    /// Enters an ack cell that was looked at.
    pub fn enter_peek(&mut self, cell: u64) -> Result<(), AllocError>
        ensures ok { OnOk result (self.new ≡ record self.old { peeks = self.old.peeks ++ cell ∷ [] }) }
        ensures err { OnErr result (self.new ≡ self.old) }
    {
        self.peeks.push(cell)?;
        Ok(())
    }

    /// Enters that the line of this number is done, or with 0 that the script has ended.
    pub fn enter_mark(&mut self, line: u32) -> Result<(), AllocError>
        ensures ok { OnOk result (self.new ≡ record self.old { marks = self.old.marks ++ mark_of line self.old ∷ [] }) }
        ensures err { OnErr result (self.new ≡ self.old) }
    {
        self.marks.push(Mark {
            line,
            calls: self.calls.len() as u64,
            taken: self.taken.len() as u64,
        })?;
        Ok(())
    }
}
