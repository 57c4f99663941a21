//! A queue that two threads share, each by a pass of its own.
ghost use Rattle.std.specs.Prelude.{◌≡◌, ◌<◌, ◌+◌, ◌^◌, length};
ghost use Rattle.nm_queue_rows.specs.Passes.{KeepsPasses};

use nm_queue::{PageQueue, QueuePass};
use std::sync::Wait;
use std::test::Fail;
use std::thread;
use std::thread::join;

// Puts a page, again where the queue is full.
#[tactic(auto, using(crate::proofs::Kept::pushed_kept, crate::proofs::Kept::kept_twice))]
fn send_one<R: Wait>(rt: &R, queue: &PageQueue, pass: &mut QueuePass, page: u32)
    requires { pass.old.queue ≡ queue.now.name }
    ensures { KeepsPasses pass.old pass.new }
{
    for _ in rt.forever() {
        if queue.push(rt, pass, page).is_ok() {
            return;
        }
        thread::yield_now();
    }
}

// Takes a page, again where the queue is empty.
#[tactic(auto, using(crate::proofs::Kept::popped_kept, crate::proofs::Kept::kept_twice))]
fn receive_one<R: Wait>(rt: &R, queue: &PageQueue, pass: &mut QueuePass) -> u32
    requires { pass.old.queue ≡ queue.now.name }
    ensures { KeepsPasses pass.old pass.new }
{
    for _ in rt.forever() {
        if let Some(page) = queue.pop(rt, pass) {
            return page;
        }
        thread::yield_now();
    }
    unreachable!()
}

// Puts `count` pages from a number on.
#[tactic(auto, using(crate::proofs::Kept::kept_twice))]
fn send<R: Wait>(rt: &R, queue: &PageQueue, mut pass: QueuePass, from: u32, count: u32) -> QueuePass
    requires queue { pass.queue ≡ queue.now.name }
    requires count { from + count < 2 ^ 32 }
    ensures { KeepsPasses pass result }
{
    for page in from..from + count {
        send_one(rt, queue, &mut pass, page);
    }
    pass
}

// Takes pages into all places.
#[tactic(auto, using(crate::proofs::Kept::kept_twice))]
fn receive<R: Wait>(
    rt: &R,
    queue: &PageQueue,
    mut pass: QueuePass,
    mut into: Vec<u32>,
) -> (QueuePass, Vec<u32>)
    requires { pass.queue ≡ queue.now.name }
    ensures { KeepsPasses pass result.0 }
{
    for place in into.iter_mut() {
        *place = receive_one(rt, queue, &mut pass);
    }
    (pass, into)
}

#[test]
fn each_page_once_in_order(rt: HostRuntime) -> Result<(), Fail> {
    let into = Vec::from_elem(rt.alloc(), 0, 500)?;
    let (queue, mut first) = PageQueue::new(rt.alloc(), 4)?;
    let line = &queue;
    let sender = line.pass(&rt, &mut first);
    let receiver = line.pass(&rt, &mut first);
    let (sender, (receiver, got)) = join(
        &rt,
        || -> QueuePass
            requires { sender.queue ≡ line.now.name }
            ensures { KeepsPasses sender result }
        { send(&rt, line, sender, 1, 500) },
        || -> (QueuePass, Vec<u32>)
            requires { receiver.queue ≡ line.now.name }
            ensures { KeepsPasses receiver result.0 }
        { receive(&rt, line, receiver, into) },
    );
    line.join(&rt, &mut first, sender);
    line.join(&rt, &mut first, receiver);
    for (page, next) in got.iter().zip(1..=500) {
        assert!(rt; *page == next, "{next}");
    }
    assert!(rt; queue.close(&rt, first).is_empty());
    Ok(())
}
