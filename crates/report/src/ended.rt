//! The end of a packet.
ghost use Rattle.std.specs.Prelude.{Some};
ghost use Rattle.report.specs.Endings.{end_words, reason_words};

use forwarding::{DropReason, Ending, Fate};
use std::fmt;

// Why a packet was dropped, in the villages' words.
#[derive(Clone, Copy)]
struct Reason(DropReason);

impl fmt::Display for Reason {
    ghost output = { λ reason. Some (reason_words reason.0) };

    fn fmt<W: fmt::Write>(&self, f: &mut fmt::Formatter<W>) -> fmt::Result {
        f.write_str(match self.0 {
            DropReason::NoBlock => "no block",
            DropReason::NoRoute => "no road",
            DropReason::NoHops => "no step left",
        })
    }
}

/// The line that tells how a packet ended.
#[derive(Clone, Copy, Debug)]
pub struct Ended(pub Ending);

impl fmt::Display for Ended {
    ghost output = { λ ended. Some (end_words ended.0) };

    fn fmt<W: fmt::Write>(&self, f: &mut fmt::Formatter<W>) -> fmt::Result {
        let Ending {
            address,
            network,
            steps,
            fate,
        } = self.0;
        match fate {
            Fate::Arrived => writeln!(
                f,
                "packet to {address}: arrived at {network}, steps {steps}"
            ),
            Fate::Dropped(reason) => {
                let reason = Reason(reason);
                writeln!(
                    f,
                    "packet to {address}: dropped at {network}, steps {steps}, {reason}"
                )
            }
        }
    }
}
