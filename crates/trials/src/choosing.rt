//! What a network goes by, of what its neighbours told.
use crate::making::sound_relations;
use relations::{Relation, Relations};
use selection::{Node, PathTable, Route, World, select};
use std::alloc::AllocError;
use std::test::Fail;

// Network 4 of six, with customers 0 and 1, peer 2 and provider 3; the home is 5.
fn sixth(rt: HostRuntime) -> Result<Relations, Fail> {
    let ties = [
        (4, 0, Relation::Customer),
        (4, 1, Relation::Customer),
        (4, 2, Relation::Peer),
        (4, 3, Relation::Provider),
    ];
    sound_relations(rt, 6, &ties)
}

// The paths that neighbours told: each begins with the neighbour.
fn told(rt: HostRuntime, paths: &[&[u8]]) -> Result<PathTable, AllocError> {
    let mut table = PathTable::new(rt.alloc(), 1)?;
    for path in paths {
        if let Some(neighbour) = path.first() {
            table.set(0, *neighbour, *path);
        }
    }
    Ok(table)
}

// The neighbour that is gone by.
fn neighbour(route: Route) -> Option<u8> {
    match route {
        Route::Via { neighbour, path: _ } => Some(neighbour),
        _ => None,
    }
}

// The neighbour that network 4 goes by, with the link to 0 as in `up` and those to 1, 2 and 3 up.
fn chosen(rt: HostRuntime, up: bool, paths: &[&[u8]]) -> Result<Option<u8>, Fail> {
    let relations = sixth(rt)?;
    let table = told(rt, paths)?;
    let world = World {
        relations: &relations,
        homes: &[5],
    };
    let node = Node {
        world,
        up: &[up, true, true, true],
        me: 4,
    };
    Ok(neighbour(select(node, &table, 0)))
}

#[test]
fn the_order_of_choosing(rt: HostRuntime) -> Result<(), Fail> {
    let cases: [(bool, &[&[u8]], Option<u8>); 7] = [
        // a customer's longer path
        (true, &[&[0, 3, 5], &[2, 5]], Some(0)),
        // the shorter path
        (true, &[&[0, 3, 5], &[1, 5]], Some(1)),
        // the lower number
        (true, &[&[0, 5], &[1, 5]], Some(0)),
        // a peer before a provider
        (true, &[&[3, 5], &[2, 5]], Some(2)),
        // its own path passed over
        (true, &[&[0, 4, 5], &[3, 5]], Some(3)),
        // a link that is down
        (false, &[&[0, 3, 5], &[2, 5]], Some(2)),
        // nothing told
        (true, &[], None),
    ];
    for (up, paths, by) in cases {
        assert_eq!(rt; chosen(rt, up, paths)?, by);
    }
    Ok(())
}

#[test]
fn the_home(rt: HostRuntime) -> Result<(), Fail> {
    let relations = sixth(rt)?;
    let table = told(rt, &[&[0, 5]])?;
    let world = World {
        relations: &relations,
        homes: &[4],
    };
    let node = Node {
        world,
        up: &[true],
        me: 4,
    };
    assert!(rt; matches!(select(node, &table, 0), Route::Local));
    Ok(())
}
