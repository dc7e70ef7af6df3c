//! Ties files, sound and damaged.
use relations::MOST;
use std::test::Fail;
use text::Numbered;
use ties::{Place, Refusal, Summary};

// What is told of a file that is refused for one of its things.
fn fault(rt: HostRuntime, bytes: &[u8], most: u8) -> Result<(u8, Place), Fail> {
    match ties::read(bytes, most, rt.alloc()) {
        Err(Refusal::Fault(fault)) => Ok((fault.cause.number(), fault.place)),
        _ => Err(Fail::new("not refused for a thing of it")),
    }
}

#[test]
fn faults_of_the_head(rt: HostRuntime) -> Result<(), Fail> {
    let cases: [(&[u8], u8); 7] = [
        (&[], 1),
        (&[17, 2], 1),
        (&[16, 2, 0], 1),
        (&[17, 0, 0, 0], 1),
        (&[16, 0, 0, 0], 2),
        (&[16, 65, 0, 0], 2),
        (&[16, 17, 0, 0], 11),
    ];
    for (bytes, number) in cases {
        assert_eq!(rt; fault(rt, bytes, 16)?, (number, Place::Head));
    }
    Ok(())
}

#[test]
fn faults_after_the_head(rt: HostRuntime) -> Result<(), Fail> {
    let cases: [(&[u8], u8, Place); 10] = [
        (&[16, 3, 0, 1], 1, Place::Tie(0)),
        (&[16, 3, 0, 2, 0, 1, 1, 0, 2], 1, Place::Tie(1)),
        (&[16, 3, 0, 1, 9, 9, 3], 1, Place::Tie(0)),
        (&[16, 3, 0, 1, 3, 3, 1], 2, Place::Tie(0)),
        (&[16, 3, 0, 2, 0, 2, 1, 0, 1, 1], 3, Place::Tie(1)),
        (&[16, 3, 0, 2, 0, 1, 1, 0, 1, 2], 3, Place::Tie(1)),
        (&[16, 3, 0, 2, 0, 1, 1, 1, 0, 1], 3, Place::Tie(1)),
        (&[16, 3, 0, 1, 1, 0, 2], 3, Place::Tie(0)),
        (&[16, 3, 0, 1, 1, 1, 1], 3, Place::Tie(0)),
        (&[16, 3, 0, 1, 0, 1, 1, 0], 1, Place::End),
    ];
    for (bytes, number, place) in cases {
        assert_eq!(rt; fault(rt, bytes, MOST)?, (number, place));
    }
    Ok(())
}

#[test]
fn written_and_read_again(rt: HostRuntime) -> Result<(), Fail> {
    let file = [16, 4, 0, 5, 0, 1, 1, 0, 2, 1, 1, 2, 2, 3, 1, 1, 3, 2, 1];
    let relations = ties::read(&file, MOST, rt.alloc())?;
    let bytes = ties::encode(&relations, rt.alloc())?;
    assert!(rt; bytes.as_slice() == file.as_slice());
    Ok(())
}

#[test]
fn sound_relations_are_told(rt: HostRuntime) -> Result<(), Fail> {
    let file = [16, 4, 0, 5, 0, 1, 1, 0, 2, 1, 1, 2, 2, 3, 1, 1, 3, 2, 1];
    let relations = ties::read(&file, MOST, rt.alloc())?;
    let line = Summary(&relations).to_string(rt.alloc())?;
    assert!(rt; line.as_str() == "4 networks, 5 ties, sound");
    Ok(())
}

#[test]
fn a_ring_is_told(rt: HostRuntime) -> Result<(), Fail> {
    let file = [16, 4, 0, 3, 1, 2, 1, 2, 3, 1, 3, 1, 1];
    let refusal = ties::read(&file, MOST, rt.alloc())
        .err()
        .ok_or("not refused")?;
    let line = refusal.to_string(rt.alloc())?;
    assert!(rt; line.as_str() == "fault 5 at end: a ring of customers: 1, 2, 3");
    Ok(())
}
