//! A queue with one pass, which answers exactly.
ghost use Rattle.std.specs.Prelude.{◌≡◌};
ghost use Rattle.nm_queue_rows.specs.Passes.{KeepsPasses};

use Row::{Full, Pop, Push};
use nm_queue::{PageQueue, QueuePass};
use std::sync::Wait;
use std::test::Fail;

// A call with its answer: a push that is made, one that answers Full, or a pop.
#[derive(Clone, Copy)]
enum Row {
    Push(u32),
    Full(u32),
    Pop(Option<u32>),
}

// Makes the calls: whether each has its answer.
#[tactic(auto, using(crate::proofs::Kept::pushed_kept, crate::proofs::Kept::popped_kept, crate::proofs::Kept::kept_twice))]
fn play<R: Wait>(rt: &R, queue: &PageQueue, pass: &mut QueuePass, rows: &[Row]) -> bool
    requires { pass.old.queue ≡ queue.now.name }
    ensures { KeepsPasses pass.old pass.new }
{
    let mut are_answered = true;
    for row in rows {
        let is_answered = match *row {
            Push(page) => queue.push(rt, pass, page).is_ok(),
            Full(page) => queue.push(rt, pass, page).is_err(),
            Pop(page) => queue.pop(rt, pass) == page,
        };
        are_answered = are_answered && is_answered;
    }
    are_answered
}

fn of_two() -> [Row; 12] {
    [
        Pop(None),
        Push(5),
        Push(6),
        Full(7),
        Pop(Some(5)),
        Pop(Some(6)),
        Pop(None),
        Push(8),
        Push(9),
        Pop(Some(8)),
        Push(8),
        Full(6),
    ]
}

#[test]
fn answers_exactly_and_gives_what_is_left(rt: HostRuntime) -> Result<(), Fail> {
    let (queue, mut pass) = PageQueue::new(rt.alloc(), 2)?;
    assert!(rt; play(&rt, &queue, &mut pass, &of_two()));
    let left = queue.close(&rt, pass);
    assert!(rt; left.len() == 2 && left[0] == 9 && left[1] == 8);
    Ok(())
}

// The second pass takes what the first one put, and the other way round, and finds the queue empty and full as the first does.
#[test]
fn a_later_pass_looks_as_the_first_does(rt: HostRuntime) -> Result<(), Fail> {
    let (queue, mut first) = PageQueue::new(rt.alloc(), 2)?;
    let mut second = queue.pass(&rt, &mut first);
    assert!(rt; play(&rt, &queue, &mut first, &[Push(5)]));
    assert!(rt;
        play(
            &rt,
            &queue,
            &mut second,
            &[Pop(Some(5)), Pop(None), Push(6), Push(7), Full(8)]
        )
    );
    assert!(rt; play(&rt, &queue, &mut first, &[Full(8), Pop(Some(6)), Push(9)]));
    assert!(rt;
        play(
            &rt,
            &queue,
            &mut second,
            &[Full(8), Pop(Some(7)), Pop(Some(9)), Pop(None)]
        )
    );
    queue.join(&rt, &mut first, second);
    assert!(rt; queue.close(&rt, first).is_empty());
    Ok(())
}

#[test]
fn gives_nothing_where_nothing_is_left(rt: HostRuntime) -> Result<(), Fail> {
    let (queue, pass) = PageQueue::new(rt.alloc(), 4096)?;
    assert!(rt; queue.close(&rt, pass).is_empty());
    Ok(())
}
