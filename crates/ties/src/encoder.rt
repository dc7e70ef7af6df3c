// Writing a ties file.
ghost use Rattle.std.specs.Prelude.{◌≡◌, ◌≤◌, ◌/◌, ◌%◌, [], ◌∷◌, ◌++◌, drop, vec_len, IfOk, OnOk};
ghost use Rattle.std.specs.List.{flat_map};
ghost use Rattle.relations.specs.Sound.{networks as networks_of, relation as relation_of};
ghost use Rattle.ties.specs.declared.encoder.TheConstants.{TIES};
ghost use Rattle.ties.specs.Encoding.{bytes_of, file_of, listing, row};

use crate::kind::listed_as;
use relations::Relations;
use std::alloc::{AllocError, Global};

/// The first byte of a ties file.
pub const TIES: u8 = 16;

// The ties in which network i stands first.
fn push_row(out: &mut Vec<u8>, relations: &Relations, i: u8) -> Result<(), AllocError>
    ensures { OnOk result (out.new.items ≡ out.old.items ++
        flat_map bytes_of (row (networks_of relations.now) (relation_of relations.now) i)) }
{
    // a `for`, since each write may fail
    for j in 0..relations.networks() {
        if let Some(kind) = listed_as(relations, i, j) {
            out.extend_from_slice(&[i, j, u8::from(kind)])?;
        }
    }
    Ok(())
}

// All ties, in rising order.
fn push_ties(out: &mut Vec<u8>, relations: &Relations) -> Result<(), AllocError>
    ensures { OnOk result (out.new.items ≡ out.old.items ++
        flat_map bytes_of (listing (networks_of relations.now) (relation_of relations.now))) }
{
    // a `for`, since each write may fail
    for i in 0..relations.networks() {
        push_row(out, relations, i)?;
    }
    Ok(())
}

// The first four bytes of a file with so many networks and ties.
fn head(networks: u8, ties: u16) -> [u8; 4]
    ensures { result ≡ TIES ∷ networks ∷ ties / 256 ∷ ties % 256 ∷ [] }
{
    let [high, low] = ties.to_be_bytes();
    [TIES, networks, high, low]
}

// Writes the head over the first four bytes of a file.
fn put_head(file: &mut Vec<u8>, head: [u8; 4])
    requires { 4 ≤ vec_len file.old }
    ensures { file.new.items ≡ head ++ drop 4 file.old.items }
{
    let (front, _ties) = file.split_at_mut(4);
    front.copy_from_slice(&head);
}

/// The ties file of sound relations; it reads back as these.
pub fn encode(relations: &Relations, heap: Global) -> Result<Vec<u8>, AllocError>
    ensures { IfOk result (λ v. v.items ≡ file_of relations.now) }
{
    let mut out = Vec::new(heap);
    out.extend_from_slice(&head(relations.networks(), 0))?;
    push_ties(&mut out, relations)?;
    // how many there are is known once they stand there, three bytes each
    let ties = ((out.len() - 4) / 3) as u16;
    put_head(&mut out, head(relations.networks(), ties));
    Ok(out)
}
