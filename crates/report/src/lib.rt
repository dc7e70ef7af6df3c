//! A rehearsal: networks set up by files, commands that are played, and what is told of them.
#![tactic(auto)]

mod ended;
mod playing;
mod refused;
mod rehearsing;
mod setting;
mod shown;
mod steps;

pub use ended::Ended;
pub use playing::play;
pub use refused::{Failure, Refused};
pub use rehearsing::rehearse;
pub use shown::Shown;
pub use steps::StepFault;
