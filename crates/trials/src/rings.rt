//! Small tables, and the cycle that is told of each.
use crate::making::table;
use cycles::{Unsound, first_cycle, sound};
use relations::{Matrix, Relation};
use std::alloc::AllocError;
use std::test::Fail;

// The table of six networks in which each first network of `pairs` is a customer of the second.
fn six(rt: HostRuntime, pairs: &[(u8, u8)]) -> Result<Matrix, AllocError> {
    let ties: Vec<(u8, u8, Relation)> = pairs
        .iter()
        .map(|(customer, provider)| (*customer, *provider, Relation::Provider))
        .collect(rt.alloc())?;
    table(rt, 6, ties.as_slice())
}

fn told(rt: HostRuntime, pairs: &[(u8, u8)]) -> Result<Option<Vec<u8>>, AllocError> {
    first_cycle(&six(rt, pairs)?, rt.alloc())
}

#[test]
fn which_ring_is_told(rt: HostRuntime) -> Result<(), Fail> {
    let cases: [(&[(u8, u8)], &[u8]); 4] = [
        // from its lowest member
        (&[(3, 1), (1, 2), (2, 3)], &[1, 2, 3]),
        // the lowest before the shortest
        (
            &[(0, 1), (1, 2), (2, 3), (3, 0), (3, 4), (4, 5), (5, 3)],
            &[0, 1, 2, 3],
        ),
        // the shorter
        (
            &[(0, 1), (1, 2), (2, 3), (3, 0), (0, 4), (4, 5), (5, 0)],
            &[0, 4, 5],
        ),
        // the smaller in order
        (&[(0, 2), (2, 3), (3, 0), (0, 1), (1, 3)], &[0, 1, 3]),
    ];
    for (pairs, ring) in cases {
        assert!(rt; told(rt, pairs)?.ok_or("no cycle")?.as_slice() == ring);
    }
    Ok(())
}

#[test]
fn no_cycle(rt: HostRuntime) -> Result<(), Fail> {
    assert!(rt; told(rt, &[(0, 1), (0, 2), (1, 3), (2, 3)])?.is_none());
    Ok(())
}

#[test]
fn taken_as_sound(rt: HostRuntime) -> Result<(), Fail> {
    let relations = sound(six(rt, &[(0, 1), (1, 2), (0, 2)])?, rt.alloc())?;
    assert!(rt; relations.relation(2, 0) == Relation::Customer);
    Ok(())
}

#[test]
fn refused_as_unsound(rt: HostRuntime) -> Result<(), Fail> {
    match sound(six(rt, &[(3, 5), (5, 4), (4, 3)])?, rt.alloc()) {
        Err(Unsound::Cycle(ring)) => {
            assert!(rt; ring.as_slice() == [3, 5, 4].as_slice());
            Ok(())
        },
        _ => Err(Fail::new("not told")),
    }
}
