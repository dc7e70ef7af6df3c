//! What becomes of packets in a run: a law is the contract of a function that does nothing.
ghost use Rattle.model.specs.PacketLaws.{EachEndsOnce, EveryFateEnds, EveryPacketEnds, FatesAtHome, HearingKeeps, HopsFall, HopsWithin, NoneLost, OneEnd, PostingAdds, SentArrives, SentEndsOnce};

/// A packet that is handed on has one hop less.
pub fn hops_fall()
    ensures { HopsFall }
{}

/// In every state of every run a packet in flight has at most 254 hops left.
pub fn hops_within()
    ensures { HopsWithin }
{}

/// Where no update is in flight, hearing a packet changes no network and no packet's fate.
pub fn hearing_keeps()
    ensures { HearingKeeps }
{}

/// A packet that is sent adds its fate to those of what is in flight, or ends at once by it.
pub fn posting_adds()
    ensures { PostingAdds }
{}

/// The fate of a packet that is sent where no update is in flight.
pub fn fates_at_home()
    ensures { FatesAtHome }
{}

/// Where no update is in flight, each packet in flight ends exactly once and by its fate, in
/// whatever order things are heard.
pub fn each_ends_once()
    ensures { EachEndsOnce }
{}

/// Where a packet is sent then, it too ends exactly once and by its fate.
pub fn sent_ends_once()
    ensures { SentEndsOnce }
{}

/// One packet, sent where nothing is in flight, has exactly one end: its fate.
pub fn one_end()
    ensures { OneEnd }
{}

/// A packet that is sent where no update is in flight arrives, whatever other packets are in
/// flight.
pub fn sent_arrives()
    ensures { SentArrives }
{}

/// Whatever is heard, updates too, no packet is doubled, and none is gone but by an end.
pub fn none_lost()
    ensures { NoneLost }
{}

/// Whatever state the networks are in, every fate is an end at the home or a loss for a cause,
/// within 255 steps.
pub fn every_fate_ends()
    ensures { EveryFateEnds }
{}

/// From every state of every run hearing ends, and each packet at the home of its block or lost for
/// a cause, within 255 steps.
pub fn every_packet_ends()
    ensures { EveryPacketEnds }
{}
