//! A box fed by hand: of network 1 of four, with customer 0, peer 2 and provider 3, or of network 0. Block 0, the
//! addresses from 10.0.0.0 to 10.0.0.255, is at home at 0.
use blocks::{Block, BlockList};
use cycles::sound;
use links::{Router, Tables};
use relations::{Matrix, Relation, Relations};
use selection::World;
use speaker::{Fault, Refusal, answer, room};
use std::test::Fail;
use text::{Address, Numbered};

// The lines to 0, 2 and 3 come up, and 0 tells its block.
const STARTED: [&[u8]; 4] = [
    &[0, 4, 0, 1],
    &[2, 4, 2, 1],
    &[3, 4, 3, 1],
    &[0, 1, 0, 0, 1, 0],
];

fn ties(rt: HostRuntime) -> Result<Relations, Fail> {
    let mut matrix = Matrix::new(rt.alloc(), 4)?;
    matrix.relate(1, 0, Relation::Customer);
    matrix.relate(1, 2, Relation::Peer);
    matrix.relate(1, 3, Relation::Provider);
    Ok(sound(matrix, rt.alloc())?)
}

fn blocks(rt: HostRuntime) -> Result<BlockList, Fail> {
    let mut blocks = BlockList::new(rt.alloc());
    let block = Block {
        first: Address(0x0a00_0000),
        last: Address(0x0a00_00ff),
        home: 0,
    };
    blocks.push(block).ok().ok_or("not a block")?;
    Ok(blocks)
}

// What a box answers to the last of these messages, and what it writes on it. All go through one piece of memory.
fn fed(
    rt: HostRuntime,
    number: u8,
    messages: &[&[u8]],
) -> Result<(Option<Result<usize, Refusal>>, Vec<u8>), Fail> {
    let ties = ties(rt)?;
    let blocks = blocks(rt)?;
    let world = World {
        relations: &ties,
        homes: blocks.homes(),
    };
    let mut tables = Tables::new(rt.alloc(), blocks.len())?;
    let mut router = Router::new(number);
    let mut out = Vec::with_capacity(rt.alloc(), room(1))?;
    let mut last = None;
    for bytes in messages {
        out.clear();
        let (next, answered) = answer(
            router,
            world,
            &mut tables,
            &blocks.blocks(),
            bytes,
            &mut out,
        );
        router = next;
        last = Some(answered);
    }
    Ok((last, out))
}

// What it writes on the last of these messages, where it takes that.
fn written(rt: HostRuntime, number: u8, messages: &[&[u8]]) -> Result<Vec<u8>, Fail> {
    let (last, out) = fed(rt, number, messages)?;
    match last {
        Some(Ok(_)) => Ok(out),
        _ => Err(Fail::new("not taken")),
    }
}

// What it writes on one more message, once it is started.
fn more(rt: HostRuntime, bytes: &[u8]) -> Result<Vec<u8>, Fail> {
    let [a, b, c, d] = STARTED;
    written(rt, 1, &[a, b, c, d, bytes])
}

#[test]
fn told_and_carried(rt: HostRuntime) -> Result<(), Fail> {
    // a customer's path goes to all
    let told: &[u8] = &[
        0, 1, 0, 0, 2, 1, 0, 2, 1, 0, 0, 2, 1, 0, 3, 1, 0, 0, 2, 1, 0,
    ];
    assert!(rt; written(rt, 1, &STARTED)?.as_slice() == told);
    let cases: [(&[u8], &[u8]); 5] = [
        // nothing new
        (&[0, 1, 0, 0, 1, 0], &[]),
        // taken back
        (&[0, 2, 0, 0], &[0, 2, 0, 0, 2, 2, 0, 0, 3, 2, 0, 0]),
        // a packet of its own people, and one of a neighbour: bytes behind the message are left
        (&[1, 3, 10, 0, 0, 7, 255], &[0, 3, 10, 0, 0, 7, 254]),
        (&[2, 3, 10, 0, 0, 7, 1, 9, 9], &[0, 3, 10, 0, 0, 7, 0]),
        // no block
        (&[2, 3, 10, 0, 1, 7, 1], &[]),
    ];
    for (bytes, out) in cases {
        assert!(rt; more(rt, bytes)?.as_slice() == out);
    }
    Ok(())
}

#[test]
fn at_home(rt: HostRuntime) -> Result<(), Fail> {
    let up: &[u8] = &[1, 4, 1, 1];
    // its own block goes over a line that comes up
    let own: &[u8] = &[1, 1, 0, 0, 1, 0];
    assert!(rt; written(rt, 0, &[up])?.as_slice() == own);
    // what has arrived goes to the people, as it came
    let packet: &[u8] = &[1, 3, 10, 0, 0, 255, 5];
    let arrived: &[u8] = &[255, 3, 10, 0, 0, 255, 5];
    assert!(rt; written(rt, 0, &[up, packet])?.as_slice() == arrived);
    Ok(())
}

// The fault that is told, and the length of the message that has it.
fn told(last: Option<Result<usize, Refusal>>) -> Result<(Fault, Option<usize>), Fail> {
    match last {
        Some(Err(Refusal::Fault { fault, length })) => Ok((fault, length)),
        _ => Err(Fail::new("not refused")),
    }
}

#[test]
fn refused(rt: HostRuntime) -> Result<(), Fail> {
    let cases: [(&[u8], u8, Option<usize>, &str); 9] = [
        (&[], 1, None, "bad length: cut short"),
        (&[0, 5], 1, None, "unknown kind"),
        (&[4, 2, 0, 0], 2, Some(4), "a network not below n"),
        (&[0, 2, 0, 1, 9], 2, Some(4), "no such block"),
        (&[1, 2, 0, 0], 6, Some(4), "a network that isn't tied"),
        (&[2, 4, 3, 1], 6, Some(4), "a line of others"),
        (
            &[0, 1, 0, 0, 1, 3],
            7,
            Some(6),
            "a road that doesn't begin with the teller",
        ),
        (
            &[3, 1, 0, 0, 3, 3, 2, 0],
            9,
            Some(8),
            "a road that isn't paid",
        ),
        (&[1, 4, 1, 1], 10, Some(4), "no line between these networks"),
    ];
    let [a, b, c, d] = STARTED;
    for (bytes, number, length, words) in cases {
        let (last, out) = fed(rt, 1, &[a, b, c, d, bytes])?;
        let (fault, known) = told(last)?;
        assert_eq!(rt; (fault.number(), known), (number, length));
        assert!(rt; fault.to_string(rt.alloc())?.as_str() == words);
        assert!(rt; out.as_slice().is_empty());
    }
    Ok(())
}
