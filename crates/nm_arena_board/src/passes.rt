//! The passes that a board holds of its queues.

ghost use Rattle.std.specs.Prelude.{◌≡◌, ◌<◌, length};
ghost use Rattle.nm_arena_board.specs.BoardFaces.{main_taking};

use nm_queue::{PageQueue, QueuePass};
use std::marker::Model;
use std::sync::Wait;

/// The passes of both queues, into which those of the actors that have stood were joined, and these actors.
#[derive(Drop)]
pub(crate) struct Main {
    pub(crate) candidates: QueuePass,
    pub(crate) pending: QueuePass,
    // The actors that have stood, in that order.
    pub(crate) order: Vec<u32>,
}

impl Model for Main {
    ghost use Rattle.std.specs.Vec.{vec_capacity};
    ghost use Rattle.nm_arena_board.specs.BoardFaces.{MainFace};

    ghost Value = { MainFace };

    ghost view = { λ m. record { candidates = m.candidates; pending = m.pending; order = m.order.items; room = vec_capacity m.order } };
}

impl Main {
    // Takes in the passes of an actor that stands.
    pub(crate) fn take_in<T: Wait>(
        &mut self,
        rt: &T,
        candidates: &PageQueue,
        candidate_pass: QueuePass,
        pending: &PageQueue,
        pending_pass: QueuePass,
        actor: u32,
    )
        requires candidates { self.old.candidates.queue ≡ candidates.now.name }
        requires candidate_pass { candidate_pass.queue ≡ candidates.now.name }
        requires pending { self.old.pending.queue ≡ pending.now.name }
        requires pending_pass { pending_pass.queue ≡ pending.now.name }
        requires room { length self.old.order < self.old.room }
        ensures { self.new ≡ main_taking actor candidate_pass pending_pass self.old }
    {
        candidates.join(rt, &mut self.candidates, candidate_pass);
        pending.join(rt, &mut self.pending, pending_pass);
        self.order.push_reserved(actor);
    }
}
