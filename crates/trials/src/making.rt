//! Tables that the tests make.
use cycles::sound;
use relations::{Matrix, Relation, Relations};
use std::alloc::AllocError;
use std::test::Fail;

// The table of some networks with ties, each of two networks and what the second is to the first.
pub(crate) fn table(
    rt: HostRuntime,
    networks: u8,
    ties: &[(u8, u8, Relation)],
) -> Result<Matrix, AllocError> {
    let mut matrix = Matrix::new(rt.alloc(), networks)?;
    for (first, second, relation) in ties {
        matrix.relate(*first, *second, *relation);
    }
    Ok(matrix)
}

// The relations that such a table says.
pub(crate) fn sound_relations(
    rt: HostRuntime,
    networks: u8,
    ties: &[(u8, u8, Relation)],
) -> Result<Relations, Fail> {
    Ok(sound(table(rt, networks, ties)?, rt.alloc())?)
}
