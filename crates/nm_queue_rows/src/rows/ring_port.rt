//! Both lanes on one thread.

use Row::{Full, Put, Take};
use nm_action::Lane;
use nm_action::Lane::{Candidates, Pending};
use nm_queue::RingPort;
use std::test::Fail;

// A call with its answer: a put that is made, one that answers Full, or a take.
#[derive(Clone, Copy)]
enum Row {
    Put(Lane, u32),
    Full(Lane, u32),
    Take(Lane, Option<u32>),
}

// Makes the calls: whether each has its answer.
fn play(port: &mut RingPort, rows: &[Row]) -> bool {
    let mut are_answered = true;
    for row in rows {
        let is_answered = match *row {
            Put(lane, page) => port.put(lane, page).is_ok(),
            Full(lane, page) => port.put(lane, page).is_err(),
            Take(lane, page) => port.take(lane) == page,
        };
        are_answered = are_answered && is_answered;
    }
    are_answered
}

fn one_and_three() -> [Row; 15] {
    [
        Take(Candidates, None),
        Put(Candidates, 5),
        Full(Candidates, 6),
        Put(Pending, 7),
        Put(Pending, 8),
        Take(Candidates, Some(5)),
        Take(Candidates, None),
        Take(Pending, Some(7)),
        Put(Pending, 9),
        Put(Pending, 7),
        Full(Pending, 6),
        Take(Pending, Some(8)),
        Take(Pending, Some(9)),
        Take(Pending, Some(7)),
        Take(Pending, None),
    ]
}

// Where the candidates hold 0 to 4,095.
fn full_and_one() -> [Row; 6] {
    [
        Full(Candidates, 0),
        Put(Pending, 1),
        Full(Pending, 2),
        Take(Candidates, Some(0)),
        Put(Candidates, 4096),
        Full(Candidates, 1),
    ]
}

#[test]
fn first_in_first_out(rt: HostRuntime) -> Result<(), Fail> {
    let mut port = RingPort::new(rt.alloc(), 1, 3)?;
    assert!(rt; play(&mut port, &one_and_three()));
    Ok(())
}

#[test]
fn each_lane_has_its_capacity(rt: HostRuntime) -> Result<(), Fail> {
    let mut port = RingPort::new(rt.alloc(), 4096, 1)?;
    for page in 0..4096 {
        assert!(rt; port.put(Candidates, page).is_ok(), "{page}");
    }
    assert!(rt; play(&mut port, &full_and_one()));
    for page in 1..=4096 {
        assert!(rt; port.take(Candidates) == Some(page), "{page}");
    }
    assert!(rt; port.take(Candidates).is_none());
    Ok(())
}
