//! Packets at the router of `routing`: the addresses from 10 to 19 are block 0, at home at 0, and 20 is block 1, at home
//! at 3.
use crate::routing::{started, tables, ties, update, world};
use blocks::{Block, BlockList, Unfit};
use forwarding::{DropReason, Fate, Forwarded, Forwarding, Packet};
use links::Fault;
use std::test::Fail;
use text::Address;

fn block(first: u32, last: u32, home: u8) -> Block {
    Block {
        first: Address(first),
        last: Address(last),
        home,
    }
}

fn blocks(rt: HostRuntime) -> Result<BlockList, Fail> {
    let mut blocks = BlockList::new(rt.alloc());
    blocks.push(block(10, 19, 0)).ok().ok_or("refused")?;
    blocks.push(block(20, 20, 3)).ok().ok_or("refused")?;
    Ok(blocks)
}

#[test]
fn addresses_in_blocks(rt: HostRuntime) -> Result<(), Fail> {
    let mut list = blocks(rt)?;
    assert_eq!(rt; list.push(block(20, 21, 3)), Err(Unfit::NotRising));
    assert_eq!(rt; list.push(block(22, 21, 3)), Err(Unfit::Turned));
    let blocks = list.blocks();
    let cases: [(u32, Option<u16>); 5] = [
        (9, None),
        (10, Some(0)),
        (19, Some(0)),
        (20, Some(1)),
        (21, None),
    ];
    for (address, block) in cases {
        assert_eq!(rt; blocks.find(Address(address)), block);
    }
    Ok(())
}

// To which neighbour a packet is handed, and with how many hops left.
fn handed(forwarded: Forwarded) -> Option<(u8, u8)> {
    match forwarded {
        Forwarded::Handed { neighbour, packet } => Some((neighbour, packet.hops)),
        Forwarded::Arrived | Forwarded::Dropped(_) => None,
    }
}

#[test]
fn packets_by_the_route(rt: HostRuntime) -> Result<(), Fail> {
    let ties = ties(rt)?;
    let (world, mut tables) = (world(&ties), tables(rt)?);
    let router = started(world, &mut tables);
    let (router, _) = router.hear(world, &mut tables, 0, update(0, &[0]));
    let list = blocks(rt)?;
    let blocks = list.blocks();
    let packet = Packet::new(Address(19));
    let sent = router.send(world, &tables, &blocks, packet);
    assert_eq!(rt; handed(sent), Some((0, 254)));
    let spent = Packet { hops: 0, ..packet };
    let forwarded = router.forward(world, &tables, &blocks, 2, spent)?;
    assert!(rt; matches!(forwarded, Forwarded::Dropped(DropReason::NoHops)));
    let ending = spent.ending(1, forwarded).ok_or("no end")?;
    assert_eq!(rt;
        (ending.steps, ending.fate),
        (255, Fate::Dropped(DropReason::NoHops))
    );
    let elsewhere = router.send(world, &tables, &blocks, Packet::new(Address(20)));
    assert!(rt; matches!(elsewhere, Forwarded::Dropped(DropReason::NoRoute)));
    let refused = router.forward(world, &tables, &blocks, 1, packet).err();
    assert_eq!(rt; refused, Some(Fault::NotRelated));
    Ok(())
}
