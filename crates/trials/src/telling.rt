//! A customer's path is told, told again and told otherwise; a peer's path, which is for customers only, takes it back.
use crate::making::sound_relations;
use advertisement::{advertise, tell};
use relations::{Relation, Relations};
use selection::{NetworkSet, Node, PathTable, Route, World};
use std::test::Fail;

// Network 0 has the customer 1, the provider 2 and the peer 3.
fn ties(rt: HostRuntime) -> Result<Relations, Fail> {
    let ties = [
        (0, 1, Relation::Customer),
        (0, 2, Relation::Provider),
        (0, 3, Relation::Peer),
    ];
    sound_relations(rt, 4, &ties)
}

// Network 0 with its links up. The block is at home elsewhere.
fn node(ties: &Relations) -> Node {
    Node {
        world: World {
            relations: ties,
            homes: &[9],
        },
        up: &[true; 4],
        me: 0,
    }
}

// Tells the provider a path of the customer's. Was there something new?
fn told(ties: &Relations, table: &mut PathTable, path: &[u8]) -> bool {
    tell(node(ties), table, 0, Route::Via { neighbour: 1, path }, 2)
}

#[test]
fn only_what_is_new(rt: HostRuntime) -> Result<(), Fail> {
    let ties = ties(rt)?;
    let mut table = PathTable::new(rt.alloc(), 1)?;
    let cases: [(&[u8], bool); 3] = [(&[1, 8], true), (&[1, 8], false), (&[1, 9], true)];
    for (path, new) in cases {
        assert_eq!(rt; told(&ties, &mut table, path), new);
    }
    Ok(())
}

// Whether 1, 2 and 3 are told.
fn all(whom: NetworkSet) -> (bool, bool, bool) {
    (whom.contains(1), whom.contains(2), whom.contains(3))
}

#[test]
fn what_is_taken_back(rt: HostRuntime) -> Result<(), Fail> {
    let ties = ties(rt)?;
    let mut table = PathTable::new(rt.alloc(), 1)?;
    assert!(rt; told(&ties, &mut table, &[1, 9]));
    let path: &[u8] = &[3, 9];
    let peers = Route::Via { neighbour: 3, path };
    let whom = advertise(node(&ties), &mut table, 0, peers);
    assert_eq!(rt; all(whom), (true, true, false));
    assert!(rt; table.path(0, 2).is_none());
    Ok(())
}
