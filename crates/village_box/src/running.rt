//! A box runs: it reads things, and answers each before it reads on.
ghost use Rattle.std.specs.Prelude.{◌≡◌, ◌<◌, ◌≤◌, [], Some, drop, false, true, length, IfOk, OnOk};
ghost use Rattle.std.specs.Io.KnownBytes.{Appends};
ghost use Rattle.village_box.specs.Inboxes.{Sound, left};
ghost use Rattle.village_box.specs.Stations.{EndsIn, EndsWhole, FollowsOn, GainsIn, Starts, outcome_of};
ghost use Rattle.village_box.specs.Taking.{Over, Served, Stays};

use crate::inbox::Inbox;
use crate::refused::{Failure, Refused, Thing};
use crate::village::Village;
use console::Stream;
use messages::Cause;
use speaker::{Fault, Refusal};
use std::io;
use std::io::{ErrorKind, Read, Write};
use text::Fault as Told;

// So many bytes may wait to be written while there are whole things to be answered.
const WAITING: usize = 65536;

// Standard input that was not read.
fn unread(error: io::Error) -> Failure {
    Failure::Stream {
        stream: Stream::Input,
        error,
    }
}

// Standard output that was not written.
fn unwritten(error: io::Error) -> Failure {
    Failure::Stream {
        stream: Stream::Output,
        error,
    }
}

// A village's box at work.
#[derive(Drop)]
struct Station {
    village: Village,
    inbox: Inbox,
    // what is told and not yet written
    out: Vec<u8>,
    // how many things were taken or passed over
    things: u64,
    // whether it goes on behind a thing that is refused
    goes_on: bool,
}

impl Station {
    fn new(rt: &HostRuntime, village: Village, goes_on: bool) -> Result<Station, Failure>
        ensures { IfOk result (Starts village goes_on) }
    {
        let heap = rt.alloc();
        let out = Vec::with_capacity(heap, WAITING + village.room())?;
        Ok(Station {
            village,
            inbox: Inbox::new(heap)?,
            out,
            things: 0,
            goes_on,
        })
    }

    // Writes what is told.
    fn flush<W: Write>(&mut self, output: &mut W) -> Result<(), Failure>
        ensures village { self.new.village ≡ self.old.village }
        ensures goes_on { self.new.goes_on ≡ self.old.goes_on }
        ensures inbox { self.new.inbox ≡ self.old.inbox }
        ensures out { self.new.out.items ≡ [] }
        ensures written { OnOk result (Appends
            (W.contents output.old) (W.contents output.new) self.old.out.items) }
    {
        let written = output.write_all(self.out.as_slice());
        self.out.clear();
        written.map_err(unwritten)
    }

    // A fault of the thing that is at hand.
    fn fault(&self, cause: Fault) -> Failure {
        Failure::Refused(Refused::Input(Told {
            place: Thing(self.things),
            cause,
        }))
    }

    // What comes of a thing that is refused: its length, if the box goes on behind it, and a fault that stops it otherwise.
    fn refuse(
        &self,
        rt: &HostRuntime,
        fault: Fault,
        length: Option<usize>,
    ) -> Result<usize, Failure>
        ensures { IfOk result (λ n. (length ≡ Some n) × (self.now.goes_on ≡ true)) }
    {
        let told = self.fault(fault);
        match length {
            Some(length) if self.goes_on => {
                let _ = eprintln!(rt; "box: {told}");
                Ok(length)
            }
            _ => Err(told),
        }
    }

    // Reads more, or ends at the end of the input, where nothing may be left: whether it has ended.
    fn read<R: Read>(&mut self, input: &mut R) -> Result<bool, Failure>
        requires sound { Sound self.old.inbox }
        requires short { length (left self.old.inbox) < 69 }
        ensures sound { Sound self.new.inbox }
        ensures village { self.new.village ≡ self.old.village }
        ensures goes_on { self.new.goes_on ≡ self.old.goes_on }
        ensures out { self.new.out ≡ self.old.out }
        ensures gained { GainsIn self.old (R.remaining input.old) self.new (R.remaining input.new) }
        ensures ended { IfOk result (EndsIn (R.remaining input.new) self.new) }
    {
        match self.inbox.read(input) {
            Ok(0) if self.inbox.left().is_empty() => Ok(true),
            Ok(0) => Err(self.fault(Fault::NotAMessage(Cause::Cut))),
            Ok(_) => Ok(false),
            Err(e) if e.kind() == ErrorKind::Interrupted => Ok(false),
            Err(error) => Err(unread(error)),
        }
    }

    // Writes what is told, and then waits for more: whether the input has ended.
    fn wait<R: Read, W: Write>(&mut self, input: &mut R, output: &mut W) -> Result<bool, Failure>
        requires sound { Sound self.old.inbox }
        requires short { length (left self.old.inbox) < 69 }
        ensures village { self.new.village ≡ self.old.village }
        ensures goes_on { self.new.goes_on ≡ self.old.goes_on }
        ensures sound { OnOk result (Sound self.new.inbox) }
        ensures out { OnOk result (self.new.out.items ≡ []) }
        ensures written { OnOk result (Appends
            (W.contents output.old) (W.contents output.new) self.old.out.items) }
        ensures gained { OnOk result (GainsIn
            self.old (R.remaining input.old) self.new (R.remaining input.new)) }
        ensures ended { IfOk result (EndsIn (R.remaining input.new) self.new) }
    {
        self.flush(output)?;
        self.read(input)
    }

    // Takes so many bytes from what is left: a thing more.
    fn pass(&mut self, taken: usize)
        requires sound { Sound self.old.inbox }
        requires there { taken ≤ length (left self.old.inbox) }
        ensures sound { Sound self.new.inbox }
        ensures left { left self.new.inbox ≡ drop taken (left self.old.inbox) }
        ensures village { self.new.village ≡ self.old.village }
        ensures goes_on { self.new.goes_on ≡ self.old.goes_on }
        ensures out { self.new.out ≡ self.old.out }
    {
        self.inbox.pass(taken);
        self.things = self.things.saturating_add(1);
    }

    // Answers the thing at the front of what is left: whether one stands there whole.
    #[tactic(auto, using(crate::proofs::Steps::taken_follows, crate::proofs::Steps::refused_follows, crate::proofs::Steps::cut_follows))]
    fn take(&mut self, rt: &HostRuntime) -> Result<bool, Failure>
        requires sound { Sound self.old.inbox }
        ensures sound { Sound self.new.inbox }
        ensures goes_on { self.new.goes_on ≡ self.old.goes_on }
        ensures follows { OnOk result (FollowsOn self.old self.new) }
        ensures short { IfOk result (λ whole. whole ≡ false → length (left self.new.inbox) < 69) }
    {
        match self.village.answer(self.inbox.left(), &mut self.out) {
            Ok(taken) => {
                self.pass(taken);
                Ok(true)
            }
            Err(Refusal::Memory) => Err(Failure::Memory),
            Err(
                Refusal::Fault {
                    fault: Fault::NotAMessage(Cause::Cut),
                    length: None,
                },
            ) => Ok(false),
            Err(Refusal::Fault { fault, length }) => {
                let taken = self.refuse(rt, fault, length)?;
                self.pass(taken);
                Ok(true)
            }
        }
    }

    // Answers a thing, or waits for more where none is there whole: whether the input has ended.
    #[tactic(auto, using(crate::proofs::Steps::follows_stays, crate::proofs::Steps::more_stays, crate::proofs::Steps::flush_stays))]
    fn step<R: Read, W: Write>(
        &mut self,
        rt: &HostRuntime,
        input: &mut R,
        output: &mut W,
    ) -> Result<bool, Failure>
        requires sound { Sound self.old.inbox }
        ensures goes_on { self.new.goes_on ≡ self.old.goes_on }
        ensures sound { OnOk result (Sound self.new.inbox) }
        ensures stays { OnOk result (Stays
            (outcome_of self.old.goes_on self.old (W.contents output.old) (R.remaining input.old))
            (outcome_of
            self.old.goes_on self.new (W.contents output.new) (R.remaining input.new))) }
        ensures ended { IfOk result (EndsWhole (R.remaining input.new) self.new) }
    {
        if !self.take(rt)? {
            return self.wait(input, output);
        }
        if self.out.len() > WAITING {
            self.flush(output)?;
            return Ok(false);
        }
        Ok(false)
    }

    // Goes on to the end of the input, or to the first thing that stops the box.
    #[tactic(auto, using(crate::proofs::Steps::stays_on, crate::proofs::Steps::over))]
    fn go<R: Read, W: Write>(
        &mut self,
        rt: &HostRuntime,
        input: &mut R,
        output: &mut W,
    ) -> Result<(), Failure>
        requires sound { Sound self.old.inbox }
        ensures stays { OnOk result (Over
            (outcome_of self.old.goes_on self.old (W.contents output.old) (R.remaining input.old))
            (W.contents output.new)) }
    {
        // as many steps as no run makes
        for _ in 0..u64::MAX {
            if self.step(rt, input, output)? {
                return Ok(());
            }
        }
        Err(unread(ErrorKind::Other.into()))
    }
}

/// Runs a village's box over an input, to its end or to the first thing that stops it; what was told before that is
/// written.
#[tactic(auto, using(crate::proofs::Steps::served))]
pub(crate) fn serve<R: Read, W: Write>(
    rt: &HostRuntime,
    village: Village,
    goes_on: bool,
    input: &mut R,
    output: &mut W,
) -> Result<(), Failure>
    ensures { OnOk result (Served goes_on village
        (W.contents output.old) (R.remaining input.old) (W.contents output.new)) }
{
    let mut station = Station::new(rt, village, goes_on)?;
    let done = station.go(rt, input, output);
    if done.is_err() {
        let _ = station.flush(output);
    }
    done
}
