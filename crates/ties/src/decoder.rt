// Reading a ties file.
ghost use Rattle.std.specs.Prelude.{◌≡◌, ◌+◌, ◌*◌, ◌≤◌, OnOk};
ghost use Rattle.wire.specs.Reading.{input, place};
ghost use Rattle.model.specs.declared.limits.TheConstants.{MOST_NETWORKS as MOST};
ghost use Rattle.ties.specs.File.{networks as networks_in, ties as ties_in};
ghost use Rattle.ties.specs.Outcome.{LowestTold, Read, TableRead, TiesRead};

use crate::refusal::{Cause, Place, Refusal};
use crate::tie::{Head, Tie};
use cycles::sound;
use relations::{Matrix, Relations};
use std::alloc::Global;
use text::Fault;
use wire::Reader;

// The ties after the head, as a table.
fn read_ties(reader: &mut Reader, head: Head, heap: Global) -> Result<Matrix, Refusal>
    requires start { place reader.old ≡ 4 }
    requires networks { head.networks ≡ networks_in (input reader.old) }
    requires few { head.networks ≤ MOST }
    requires ties { head.ties ≡ ties_in (input reader.old) }
    ensures source { input reader.new ≡ input reader.old }
    ensures place { OnOk result (place reader.new ≡ 4 + 3 * head.ties) }
    ensures answer { TiesRead (input reader.old) result }
{
    let mut matrix = Matrix::new(heap, head.networks)?;
    let mut last: Option<Tie> = None;
    for k in 0..head.ties {
        let tie = Tie::read(reader, &matrix, last).map_err(|cause| Refusal::Fault(Fault {
            place: Place::Tie(k),
            cause,
        }))?;
        matrix.relate(tie.first, tie.second, tie.relation);
        last = Some(tie);
    }
    Ok(matrix)
}

// All that a ties file says, as a table, where the caller allows `most` networks.
fn read_table(bytes: &[u8], most: u8, heap: Global) -> Result<Matrix, Refusal>
    ensures { TableRead most bytes.now result }
{
    let mut reader = Reader::new(bytes);
    let head = Head::read(&mut reader, most).map_err(|cause| Refusal::Fault(Fault {
        place: Place::Head,
        cause,
    }))?;
    let matrix = read_ties(&mut reader, head, heap)?;
    if !reader.at_end() {
        return Err(Refusal::Fault(Fault {
            place: Place::End,
            cause: Cause::Surplus,
        }));
    }
    Ok(matrix)
}

/// The relations that a ties file says, where the caller allows `most` networks. Any other bytes are refused at the first thing
/// with a fault, with the lowest of its faults, or for the first ring of customers.
pub fn read(bytes: &[u8], most: u8, heap: Global) -> Result<Relations, Refusal>
    ensures answer { Read most bytes.now result }
    ensures lowest { LowestTold most bytes.now result }
{
    let matrix = read_table(bytes, most, heap)?;
    Ok(sound(matrix, heap)?)
}
