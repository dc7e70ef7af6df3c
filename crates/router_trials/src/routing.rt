//! A router fed by hand: network 1 of four, with customer 0, peer 2 and provider 3; block 0 is at home at 0, block 1
//! at 3.
use advertisement::{Announcement, Update};
use cycles::sound;
use links::{CreationError, Fault, Router, Tables};
use relations::{Matrix, Relation, Relations};
use selection::{NetworkSet, World};
use std::test::Fail;

// By hand, as in `trials`, which is tests alone and lends nothing.
pub(crate) fn ties(rt: HostRuntime) -> Result<Relations, Fail> {
    let mut matrix = Matrix::new(rt.alloc(), 4)?;
    matrix.relate(1, 0, Relation::Customer);
    matrix.relate(1, 2, Relation::Peer);
    matrix.relate(1, 3, Relation::Provider);
    Ok(sound(matrix, rt.alloc())?)
}

// What is lent to the router.
pub(crate) fn world(ties: &Relations) -> World<'_> {
    World {
        relations: ties,
        homes: &[0, 3],
    }
}

pub(crate) fn tables(rt: HostRuntime) -> Result<Tables, Fail> {
    Ok(Tables::new(rt.alloc(), 2)?)
}

#[test]
fn homes_of_blocks(rt: HostRuntime) -> Result<(), Fail> {
    let ties = ties(rt)?;
    let world = world(&ties);
    let cases: [(u16, u8, bool); 4] = [(0, 0, true), (1, 3, true), (0, 3, false), (2, 3, false)];
    for (block, network, home) in cases {
        assert_eq!(rt; world.is_home(block, network), home);
    }
    Ok(())
}

#[test]
fn tables_made_and_copied(rt: HostRuntime) -> Result<(), Fail> {
    assert_eq!(rt; tables(rt)?.clone()?.blocks(), 2);
    let error = Tables::new(rt.alloc(), 257).err().ok_or("made")?;
    assert_eq!(rt; error, CreationError::TooLarge);
    let text = error.to_string(rt.alloc())?;
    assert!(rt; text.as_str() == "more networks or blocks than there may be");
    Ok(())
}

// With the links to 0, 2 and 3 up.
pub(crate) fn started(world: World<'_>, tables: &mut Tables) -> Router {
    let mut router = Router::new(1);
    for other in [0, 2, 3] {
        (router, _) = router.turn(world, tables, other, true);
    }
    router
}

// The path that is told, or none at all.
pub(crate) fn update(block: u16, networks: &[u8]) -> Update {
    Update::announce(block, networks).unwrap_or(Update::withdraw(block))
}

// Whether 0, 2 and 3 are told.
fn whom(audience: NetworkSet) -> (bool, bool, bool) {
    (
        audience.contains(0),
        audience.contains(2),
        audience.contains(3),
    )
}

#[test]
fn told_and_taken_back(rt: HostRuntime) -> Result<(), Fail> {
    let ties = ties(rt)?;
    let (world, mut tables) = (world(&ties), tables(rt)?);
    let mut router = started(world, &mut tables);
    let cases: [(u8, Update, (bool, bool, bool)); 4] = [
        // a customer's path goes to all
        (0, update(0, &[0]), (true, true, true)),
        // nothing new
        (0, update(0, &[0]), (false, false, false)),
        // a provider's path goes to customers
        (3, update(1, &[3]), (true, false, false)),
        // taken back
        (0, update(0, &[]), (true, true, true)),
    ];
    for (from, update, told) in cases {
        let (next, answer) = router.hear(world, &mut tables, from, update);
        assert_eq!(rt; whom(answer?), told);
        router = next;
    }
    Ok(())
}

// Who is told of block 0.
fn told(tables: &Tables) -> Result<(bool, bool, bool), Fail> {
    Ok(whom(tables.audience(0).ok_or("no block")?))
}

#[test]
fn a_link_turns_twice(rt: HostRuntime) -> Result<(), Fail> {
    let ties = ties(rt)?;
    let (world, mut tables) = (world(&ties), tables(rt)?);
    let router = started(world, &mut tables);
    let (router, _) = router.hear(world, &mut tables, 0, update(0, &[0]));
    let (router, _) = router.turn(world, &mut tables, 0, false);
    assert_eq!(rt;
        told(&tables)?,
        (false, true, true),
        "taken back from the others"
    );
    let (_, _) = router.turn(world, &mut tables, 0, true);
    assert_eq!(rt;
        told(&tables)?,
        (false, false, false),
        "nothing is left of it"
    );
    Ok(())
}

#[test]
fn a_link_that_there_is_not(rt: HostRuntime) -> Result<(), Fail> {
    let ties = ties(rt)?;
    let (world, mut tables) = (world(&ties), tables(rt)?);
    let (_, turned) = Router::new(1).turn(world, &mut tables, 1, true);
    assert_eq!(rt; turned, Err(Fault::NoLink));
    Ok(())
}

#[test]
fn refusals(rt: HostRuntime) -> Result<(), Fail> {
    let ties = ties(rt)?;
    let (world, mut tables) = (world(&ties), tables(rt)?);
    let router = started(world, &mut tables);
    let cases: [(u8, u16, &[u8], Fault); 8] = [
        (4, 0, &[4, 0], Fault::NoSuchNetwork),
        (0, 2, &[0], Fault::NoSuchBlock),
        (1, 0, &[1, 0], Fault::NotRelated),
        (2, 0, &[3, 0], Fault::WrongStart),
        (2, 0, &[2, 1], Fault::WrongEnd),
        (2, 0, &[2, 0, 2, 0], Fault::Repeats),
        (2, 0, &[2, 0], Fault::NotValleyFree),
        (0, 1, &[0, 1, 3], Fault::NotValleyFree),
    ];
    for (from, block, networks, fault) in cases {
        let (_, answer) = router.hear(world, &mut tables, from, update(block, networks));
        assert_eq!(rt; answer.err(), Some(fault));
    }
    Ok(())
}

#[test]
fn a_path_too_long(rt: HostRuntime) -> Result<(), Fail> {
    let ties = ties(rt)?;
    let (world, mut tables) = (world(&ties), tables(rt)?);
    let router = started(world, &mut tables);
    let long = Announcement {
        block: 0,
        length: 65,
        networks: [0; 64],
    };
    let (_, answer) = router.hear(world, &mut tables, 0, Update::Announce(long));
    assert_eq!(rt; answer.err(), Some(Fault::BadLength));
    Ok(())
}

#[test]
fn a_link_that_is_down(rt: HostRuntime) -> Result<(), Fail> {
    let ties = ties(rt)?;
    let (world, mut tables) = (world(&ties), tables(rt)?);
    let router = started(world, &mut tables);
    let (router, _) = router.turn(world, &mut tables, 0, false);
    let (_, answer) = router.hear(world, &mut tables, 0, update(0, &[0]));
    assert_eq!(rt; answer.err(), Some(Fault::LinkDown));
    Ok(())
}
