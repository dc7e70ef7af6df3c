//! box TIES BLOCKS NUMBER [--go-on]: one village's router as it runs in its box.
#![tactic(auto)]

mod inbox;
mod loading;
mod refused;
mod running;
mod village;

use console::{print, status, words};
use loading::set_up;
use refused::Failure;
use running::serve;
use std::io;
use std::process::ExitCode;

const USAGE: &str = "usage: box TIES BLOCKS NUMBER [--go-on]   (--help says more)";

const HELP: &str = "usage: box TIES BLOCKS NUMBER [--go-on]
Runs the router of one village: it reads what its neighbours tell, its lines and
packets, and writes what it tells its neighbours and the packets it hands on.
TIES and BLOCKS are files, as in settle --help; NUMBER is the network
that the box stands at. At first every line is down.

Standard input is bytes, one thing after another, each with one byte before it:
the network that it came from, which is NUMBER for a packet of its own people.
  1  a way: the block (2 bytes, high byte first), how many networks (1 to 64),
     and the networks of the road, the one that tells it first
  2  nothing: the block; what was told of it before is taken back
  3  a packet: the address (4 bytes, high byte first) and the steps it has left
  4  a line turns: its other end, the network that it came from again, and 1 for
     up or 0 for down
Standard output is what it tells and hands on, 1, 2 or 3 as above, each with one
byte before it: the neighbour that it goes to, or 255 for a packet that arrived.
Each thing is answered before more is read, to the end of the input.

Words:
  network  a village's box, with a number from 0
  tie      between two networks: one is the other's customer and that one its
           provider, or they are peers; a neighbour is a network that is tied
  line     joins two tied networks; it is up or down
  turn     of a line: it comes up or goes down, and forgets all that was on it
  block    addresses with one home, a network
  way      to a block, told with its road
  road     the networks on the way to the home, the next one first
  paid     a road up to providers, then at most once over to a peer, then down
           to customers
  step     a packet handed on by one network to the next

A thing with a fault changes nothing, and the box stops, with status 1. It has a
number and a place: thing K, counted from 0. With --go-on it tells the fault and
goes on with the next thing, but not after 1, since nobody knows where that is.
   1  unknown kind; bad length: cut short, 0 or above 64 networks; a line that
      is neither up nor down
   2  a network not below n; no such block
   6  a network that isn't tied; a line that is down; a line of others
   7  a road that doesn't begin with the teller or end with the block's home
   8  a road that names a network twice
   9  a road that isn't paid
  10  no line between these networks
Faults of the files are those in settle --help; a NUMBER that is not
below n is fault 2 at word 3.
";

fn perform(
    rt: &HostRuntime,
    ties: &str,
    blocks: &str,
    number: &str,
    goes_on: bool,
) -> Result<(), Failure> {
    let village = set_up(rt, ties, blocks, number)?;
    serve(rt, village, goes_on, &mut rt.stdin(), &mut io::writer(rt))
}

fn run(rt: &HostRuntime) -> Result<(), Failure> {
    let words = words(rt)?;
    match words.as_slice() {
        [word] if word.as_str() == "--help" => print(rt, HELP),
        [ties, blocks, number] => {
            perform(rt, ties.as_str(), blocks.as_str(), number.as_str(), false)
        }
        [ties, blocks, number, word] if word.as_str() == "--go-on" => {
            perform(rt, ties.as_str(), blocks.as_str(), number.as_str(), true)
        }
        _ => Err(Failure::Usage(USAGE)),
    }
}

fn main(rt: HostRuntime) -> ExitCode {
    status(&rt, "box", run(&rt))
}
