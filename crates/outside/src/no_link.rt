// A link to nothing.
ghost use Rattle.std.specs.Prelude.{◌≡◌, false, Err, ⊤};
ghost use Rattle.basics.specs.Told.{RoseIf};
ghost use Rattle.outside.specs.NoLink.{seen_of, begun, state_fault_counted, link_fault_counted, quiet_codes_counted, wait_counted, shut};
ghost use Rattle.outside.specs.Link.{Grew, no_codes};
ghost use Rattle.outside.specs.declared.link.PollKind.TheVariants as kind;

use crate::{AttemptPlan, Codes, Fault, Link, LinkCounts, Offered, PollKind, Polled};
use basics::Bytes;
use std::alloc::Global;
use std::marker::Model;

const NO_CODES: Codes = Codes {
    source: None,
    dest: None,
};

const NOTHING_COUNTED: LinkCounts = LinkCounts {
    state_faults: 0,
    link_faults: 0,
    quiet_source: 0,
    quiet_dest: 0,
    quiet_codes: 0,
    waits: 0,
};

/// A link without children and without a state store: each call that can fail does, for good, and `wait` returns at
/// once. It tells no trace.
#[derive(Debug, Drop)]
pub struct NoLink {
    counts: LinkCounts,
    running: bool,
    input_open: bool,
    source_poll: PollKind,
    dest_poll: PollKind,
}

impl Model for NoLink {
    ghost use Rattle.outside.specs.NoLink.{NoLinkState};

    ghost Value = { NoLinkState };

    ghost view = { λ link. record { counts = link.counts; running = link.running; input_open = link.input_open; source_poll = link.source_poll; dest_poll = link.dest_poll } };
}

impl NoLink {
    /// A link that was never started and has counted nothing yet.
    pub fn new() -> Self
        ensures { result ≡ begun }
    {
        NoLink {
            counts: NOTHING_COUNTED,
            running: false,
            input_open: false,
            source_poll: PollKind::Other,
            dest_poll: PollKind::Other,
        }
    }

    // Counts a fault of the link.
    fn fail(&mut self)
        ensures counted { self.new ≡ link_fault_counted self.old }
        ensures rose { RoseIf ⊤ self.old.counts.link_faults self.new.counts.link_faults }
    {
        self.counts.link_faults = self.counts.link_faults.saturating_add(1);
    }

    // Counts a fault of the state store.
    fn fail_state(&mut self)
        ensures counted { self.new ≡ state_fault_counted self.old }
        ensures rose { RoseIf ⊤ self.old.counts.state_faults self.new.counts.state_faults }
    {
        self.counts.state_faults = self.counts.state_faults.saturating_add(1);
    }
}

impl Link for NoLink {
    ghost seen = { seen_of };

    fn load_states(&mut self, _: Global, _: &str) -> Result<Bytes, Fault>
        ensures fails { result ≡ Err Fault.Failed }
        ensures counted { self.new ≡ state_fault_counted self.old }
        ensures rose { RoseIf ⊤ self.old.counts.state_faults self.new.counts.state_faults }
        ensures grew { Grew (seen_of self.old) (seen_of self.new) }
    {
        self.fail_state();
        Err(Fault::Failed)
    }

    fn save_states(&mut self, _: &str, _: &[u8]) -> Result<(), Fault>
        ensures fails { result ≡ Err Fault.Failed }
        ensures counted { self.new ≡ state_fault_counted self.old }
        ensures rose { RoseIf ⊤ self.old.counts.state_faults self.new.counts.state_faults }
        ensures grew { Grew (seen_of self.old) (seen_of self.new) }
    {
        self.fail_state();
        Err(Fault::Failed)
    }

    fn start(&mut self, _: &AttemptPlan) -> Result<(), Fault>
        ensures fails { result ≡ Err Fault.Failed }
        ensures counted { self.new ≡ shut (link_fault_counted self.old) }
        ensures rose { RoseIf ⊤ self.old.counts.link_faults self.new.counts.link_faults }
        ensures grew { Grew (seen_of self.old) (seen_of self.new) }
    {
        self.fail();
        self.running = false;
        self.input_open = false;
        Err(Fault::Failed)
    }

    fn poll_source(&mut self) -> Polled
        ensures fails { result ≡ Polled.Failed }
        ensures counted { self.new ≡ record (link_fault_counted self.old) { source_poll = kind.Other } }
        ensures rose { RoseIf ⊤ self.old.counts.link_faults self.new.counts.link_faults }
        ensures grew { Grew (seen_of self.old) (seen_of self.new) }
    {
        self.fail();
        self.source_poll = PollKind::Other;
        Polled::Failed
    }

    fn poll_dest(&mut self) -> Polled
        ensures fails { result ≡ Polled.Failed }
        ensures counted { self.new ≡ record (link_fault_counted self.old) { dest_poll = kind.Other } }
        ensures rose { RoseIf ⊤ self.old.counts.link_faults self.new.counts.link_faults }
        ensures grew { Grew (seen_of self.old) (seen_of self.new) }
    {
        self.fail();
        self.dest_poll = PollKind::Other;
        Polled::Failed
    }

    fn offer_dest(&mut self, _: &[u8]) -> Offered
        ensures fails { result ≡ Offered.Failed }
        ensures counted { self.new ≡ link_fault_counted self.old }
        ensures rose { RoseIf ⊤ self.old.counts.link_faults self.new.counts.link_faults }
        ensures grew { Grew (seen_of self.old) (seen_of self.new) }
    {
        self.fail();
        Offered::Failed
    }

    fn close_dest(&mut self) -> Result<(), Fault>
        ensures fails { result ≡ Err Fault.Failed }
        ensures counted { self.new ≡ record (link_fault_counted self.old) { input_open = false } }
        ensures rose { RoseIf ⊤ self.old.counts.link_faults self.new.counts.link_faults }
        ensures grew { Grew (seen_of self.old) (seen_of self.new) }
    {
        self.fail();
        self.input_open = false;
        Err(Fault::Failed)
    }

    fn exit_codes(&mut self) -> Codes
        ensures unknown { result ≡ no_codes }
        ensures counted { self.new ≡ quiet_codes_counted self.old }
        ensures rose { RoseIf ⊤ self.old.counts.quiet_codes self.new.counts.quiet_codes }
        ensures grew { Grew (seen_of self.old) (seen_of self.new) }
    {
        self.counts.quiet_codes = self.counts.quiet_codes.saturating_add(1);
        NO_CODES
    }

    fn stop(&mut self) -> Result<(), Fault>
        ensures fails { result ≡ Err Fault.Failed }
        ensures counted { self.new ≡ shut (link_fault_counted self.old) }
        ensures rose { RoseIf ⊤ self.old.counts.link_faults self.new.counts.link_faults }
        ensures grew { Grew (seen_of self.old) (seen_of self.new) }
    {
        self.fail();
        self.running = false;
        self.input_open = false;
        Err(Fault::Failed)
    }

    fn wait(&mut self)
        ensures counted { self.new ≡ wait_counted self.old }
        ensures rose { RoseIf ⊤ self.old.counts.waits self.new.counts.waits }
        ensures grew { Grew (seen_of self.old) (seen_of self.new) }
    {
        self.counts.waits = self.counts.waits.saturating_add(1);
    }
}
