// A reader of certificates.
ghost use Rattle.std.specs.Prelude.{◌≡◌, ◌≤◌, ◌+◌, ◌^◌, length, false, Some, None, Err, OnOk, OnErr, is_ok};
ghost use Rattle.service_model.specs.Takers.{state_of};
ghost use Rattle.bound_cert.specs.Stream as bytes;
ghost use Rattle.bound_cert.specs.Feeding.{Feeds};

use crate::fault::FeedStop;
use crate::feed::{hand_all, hand_end};
use crate::stream::Stream;
use service_model::Taker;
use std::alloc::Global;
use std::marker::Model;

/// Hands the items of a certificate to a taker, in whatever pieces its bytes come.
#[derive(Drop)]
pub struct CertReader {
    stream: Stream,
    fed: u64,
    closed: bool,
    answer: Option<FeedStop>,
}

impl Model for CertReader {
    ghost use Rattle.std.specs.Prelude.{◌≡◌, None, false};
    ghost use Rattle.bound_cert.specs.Reader.{Reader};
    ghost use Rattle.bound_cert.specs.Steps.{Within};

    ghost Value = { Reader };

    ghost view = { λ r. record { fed = r.fed; closed = r.closed; place = r.stream; answer = r.answer } };

    ghost invariant = { λ r. r.answer ≡ None → r.closed ≡ false → Within r.stream r.fed };
}

impl CertReader {
    ghost use Rattle.bound_cert.specs.Reader.{new_reader, refusal_of};
    ghost use Rattle.bound_cert.specs.declared.fault.FeedStop.{FeedStop};

    /// A reader to which nothing was fed.
    pub fn new(alloc: Global) -> CertReader
        ensures { result ≡ new_reader }
    {
        CertReader {
            stream: Stream::new(alloc),
            fed: 0,
            closed: false,
            answer: None,
        }
    }

    /// Takes a piece of the bytes, and hands the items of the lines that are whole to the taker.
    pub fn feed<W, T: Taker<W>>(
        &mut self,
        piece: &[u8],
        taker: &mut T,
        world: &mut W,
    ) -> Result<(), FeedStop>
        requires room { self.old.fed + length piece.now ≤ 2 ^ 32 }
        requires still_open { self.old.closed ≡ false }
        ensures fed { OnOk result (self.new.fed ≡ self.old.fed + length piece.now) }
        ensures not_fed { OnErr result (self.new.fed ≡ self.old.fed) }
        ensures still_open { self.new.closed ≡ false }

        ensures feeds { self.old.answer ≡ None → Feeds (bytes.reads piece.now self.old.place)
            (state_of (T.stands_for taker.old world.old) (T.stops taker.old) (T.refuses taker.old world.old))
            (state_of (T.stands_for taker.new world.new) (T.stops taker.new) (T.refuses taker.new world.new))
            self.old.place.lines self.new.place result }
        ensures keeps { T.keeps taker.old world.old taker.new world.new }

        // A refusal is the answer from then on.
        ensures remembers { self.new.answer ≡ refusal_of result }
        ensures repeats { (stop : FeedStop) → self.old.answer ≡ Some stop → (result ≡ Err stop)
            × (self.new ≡ self.old) × (taker.new ≡ taker.old) × (world.new ≡ world.old) }
    {
        if let Some(stop) = self.answer {
            return Err(stop);
        }
        match hand_all(&mut self.stream, piece, taker, world) {
            Ok(()) => {
                self.fed += piece.len() as u64;
                Ok(())
            }
            Err(stop) => {
                self.answer = Some(stop);
                Err(stop)
            }
        }
    }

    /// Ends the bytes, and hands the item of a last line without a line feed to the taker.
    pub fn finish<W, T: Taker<W>>(&mut self, taker: &mut T, world: &mut W) -> Result<(), FeedStop>
        requires room { self.old.fed ≤ 2 ^ 32 }
        requires still_open { self.old.closed ≡ false }
        ensures fed { self.new.fed ≡ self.old.fed }
        ensures closed { self.new.closed ≡ is_ok result }

        ensures feeds { self.old.answer ≡ None → Feeds (bytes.reads_end self.old.place)
            (state_of (T.stands_for taker.old world.old) (T.stops taker.old) (T.refuses taker.old world.old))
            (state_of (T.stands_for taker.new world.new) (T.stops taker.new) (T.refuses taker.new world.new))
            self.old.place.lines self.new.place result }
        ensures keeps { T.keeps taker.old world.old taker.new world.new }

        // A refusal is the answer from then on.
        ensures remembers { self.new.answer ≡ refusal_of result }
        ensures repeats { (stop : FeedStop) → self.old.answer ≡ Some stop → (result ≡ Err stop)
            × (self.new ≡ self.old) × (taker.new ≡ taker.old) × (world.new ≡ world.old) }
    {
        if let Some(stop) = self.answer {
            return Err(stop);
        }
        match hand_end(&mut self.stream, taker, world) {
            Ok(()) => {
                self.closed = true;
                Ok(())
            }
            Err(stop) => {
                self.answer = Some(stop);
                Err(stop)
            }
        }
    }
}
