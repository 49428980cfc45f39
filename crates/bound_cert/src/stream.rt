// The bytes of a certificate, one after another.
ghost use Rattle.std.specs.Prelude.{◌≡◌, ◌<◌, ◌+◌, ◌-◌, ◌^◌, [], ◌∷◌, OnOk};
ghost use Rattle.service_model.specs.Items as listed;

use crate::fault::{CertFault, FeedStop};
use crate::limits::{FORMAT, MAX_LINE};
use crate::line::{Line, LineStop, Refusal};
use crate::read::line_from;
use service_model::Item;
use service_model::cert_rules::{
    AFTER_END, HEAD, LONG_LINE, NO_END, NOT_JSON, PLACE, SHAPE, VERSION,
};
use std::alloc::Global;
use std::marker::Model;

/// What came of a certificate so far.
#[derive(Drop)]
pub(crate) struct Stream {
    alloc: Global,
    lines: u64,
    tables: u64,
    nodes: u64,
    splits: u64,
    ended: bool,
    begun: Vec<u8>,
}

impl Model for Stream {
    ghost use Rattle.bound_cert.specs.Stream.{Place};

    ghost Value = { Place };

    ghost view = { λ s. record { lines = s.lines; tables = s.tables; nodes = s.nodes; splits = s.splits; ended = s.ended; begun = s.begun.items } };
}

fn is_head(item: &Item) -> bool
    ensures { result ≡ listed.is_head item.now }
{
    match item {
        Item::Head(_) => true,
        _ => false,
    }
}

impl Stream {
    ghost use Rattle.service_model.specs.Held.{is_misplaced};
    ghost use Rattle.bound_cert.specs.Stream as bytes;
    ghost use Rattle.bound_cert.specs.Feeding.{Closes};
    ghost use Rattle.bound_cert.specs.Steps.{CanCount, Follows, option_items, StepGives};

    pub(crate) fn new(alloc: Global) -> Stream
        ensures { result ≡ bytes.start }
    {
        Stream {
            alloc,
            lines: 0,
            tables: 0,
            nodes: 0,
            splits: 0,
            ended: false,
            begun: Vec::new(alloc),
        }
    }

    pub(crate) fn lines(&self) -> u64
        ensures { result ≡ self.now.lines }
    {
        self.lines
    }

    pub(crate) fn has_begun(&self) -> bool
        ensures { result ≡ bytes.has_begun self.now }
    {
        self.begun.len() != 0
    }

    fn is_out_of_turn(&self, item: &Item) -> bool
        ensures { result ≡ bytes.is_out_of_turn self.now item.now }
    {
        if self.lines == 0 {
            !is_head(item)
        } else {
            is_head(item)
        }
    }

    fn is_misplaced(&self, item: &Item) -> bool
        requires { CanCount self.now }
        ensures { result ≡ is_misplaced self.now.nodes self.now.splits item.now }
    {
        match item {
            Item::Node(_) => 2 * self.splits < self.nodes,
            Item::Split(_) | Item::End(_) => self.nodes <= 2 * self.splits,
            _ => false,
        }
    }

    // The first of the rules on whole lines that fails.
    fn broken_rule(&self, line: &Line) -> Option<u8>
        requires { CanCount self.now }
        ensures { result ≡ bytes.broken_rule self.now line.now }
    {
        if self.is_out_of_turn(&line.item) {
            Some(HEAD)
        } else if line.version != FORMAT {
            Some(VERSION)
        } else if self.ended {
            Some(AFTER_END)
        } else if self.is_misplaced(&line.item) {
            Some(PLACE)
        } else {
            None
        }
    }

    fn count(&mut self, item: &Item)
        requires { CanCount self.old }
        ensures value { self.new ≡ bytes.after_item self.old item.now }
        ensures follows { Follows self.old self.new }
    {
        self.lines += 1;
        self.begun.clear();
        match item {
            Item::Head(_) => {}
            Item::Table(_) => self.tables += 1,
            Item::Node(_) => self.nodes += 1,
            Item::Split(_) => self.splits += 1,
            Item::End(_) => self.ended = true,
        }
    }

    // A rule fails on the line that comes next.
    fn fault(&self, rule: u8) -> FeedStop
        requires { self.now.lines < 2 ^ 64 - 1 }
        ensures { result ≡ FeedStop.Fault (record { line = self.now.lines + 1; rule = rule }) }
    {
        FeedStop::Fault(CertFault {
            line: self.lines + 1,
            rule,
        })
    }

    // The line begun is whole.
    #[tactic(auto, unfolding(crate::specs::Stream::line_done))]
    pub(crate) fn line_done(&mut self) -> Result<Item, FeedStop>
        requires { CanCount self.old }
        ensures value { StepGives (λ item. item ∷ []) self.old self.new (bytes.line_done self.old) result }
        ensures follows { OnOk result (Follows self.old self.new) }
    {
        match line_from(self.alloc, self.begun.as_slice(), self.tables as u32) {
            Err(LineStop::NoMemory) => Err(FeedStop::NoMemory),
            Err(LineStop::Refused(Refusal::NotJson)) => Err(self.fault(NOT_JSON)),
            Err(LineStop::Refused(Refusal::Shape)) => Err(self.fault(SHAPE)),
            Ok(line) => match self.broken_rule(&line) {
                Some(rule) => Err(self.fault(rule)),
                None => {
                    self.count(&line.item);
                    Ok(line.item)
                }
            },
        }
    }

    // One more byte, and the item of the line that it ends.
    #[tactic(auto, unfolding(crate::specs::Stream::read_byte))]
    pub(crate) fn read_byte(&mut self, byte: u8) -> Result<Option<Item>, FeedStop>
        requires { CanCount self.old }
        ensures value { StepGives option_items self.old self.new (bytes.read_byte self.old byte) result }
        ensures follows { OnOk result (Follows self.old self.new) }
    {
        if byte == b'\n' {
            let item = self.line_done()?;
            return Ok(Some(item));
        }
        if self.begun.len() < MAX_LINE {
            self.begun.push(byte)?;
            Ok(None)
        } else {
            Err(self.fault(LONG_LINE))
        }
    }

    // After the last byte an end must have come.
    #[tactic(auto, unfolding(crate::specs::Stream::closed))]
    pub(crate) fn close(&self) -> Result<(), FeedStop>
        requires { self.now.lines < 2 ^ 64 - 1 }
        ensures { Closes self.now (bytes.closed self.now) result }
    {
        if self.ended {
            Ok(())
        } else {
            Err(self.fault(NO_END))
        }
    }
}
