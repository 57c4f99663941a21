//! Puts and takes of one chair in one lane.

ghost use Rattle.std.specs.Prelude.{◌≡◌};
ghost use Rattle.nm_actor.specs.Lanes.{IsPutAnswer, IsTakeAnswer};
ghost use Rattle.nm_arena_chair.specs.LaneFaces.{lane_by, IsPassAt};

use nm_action::Full;
use nm_queue::{PageQueue, QueuePass};
use std::sync::Wait;

// Puts a page into a lane. `_rested` is for contracts alone.
pub(crate) fn put_in<T: Wait>(
    rt: &T,
    queue: &PageQueue,
    pass: &mut QueuePass,
    _rested: bool,
    page: u32,
) -> Result<(), Full>
    requires { IsPassAt _rested queue.now pass.old }
    ensures pass { IsPassAt _rested queue.now pass.new }
    ensures joined { pass.new.known.joined ≡ pass.old.known.joined }
    ensures answer { IsPutAnswer page (lane_by _rested queue.now.capacity pass.old) (lane_by _rested queue.now.capacity pass.new) result }
{
    queue.push(rt, pass, page)
}

// Takes a page from a lane.
pub(crate) fn take_from<T: Wait>(
    rt: &T,
    queue: &PageQueue,
    pass: &mut QueuePass,
    _rested: bool,
) -> Option<u32>
    requires { IsPassAt _rested queue.now pass.old }
    ensures pass { IsPassAt _rested queue.now pass.new }
    ensures joined { pass.new.known.joined ≡ pass.old.known.joined }
    ensures answer { IsTakeAnswer (lane_by _rested queue.now.capacity pass.old) (lane_by _rested queue.now.capacity pass.new) result }
{
    queue.pop(rt, pass)
}
