//! The reclaimer.

ghost use Rattle.std.specs.Prelude.{◌≡◌, [], IfOk, None};
ghost use Rattle.nm_kswap.specs.Parts.{reclaimer_geometry, AgreesReclaimer};

use crate::reclaiming::Reclaiming;
use crate::work::ReclaimerPiece;
use nm_actor::Actor;
use nm_base::Geometry;
use nm_event::{Heard, Tally, Turn};
use nm_worker::Worker;
use std::alloc::{AllocError, Global};

/// The worker that follows the reclaimer's routine.
pub type ReclaimerWorker<'a> = Worker<Reclaiming<'a>, ReclaimerPiece<'a>>;

/// The reclaimer: the actor that relieves the faster tiers. It ends after a round in which all processors had ended.
#[derive(Drop)]
pub struct ReclaimerActor<'a> {
    worker: ReclaimerWorker<'a>,
}

impl<'a> ReclaimerActor<'a> {
    /// The reclaimer of a geometry. The only error is want of memory; no other call takes memory.
    pub fn new(alloc: Global, g: &'a Geometry) -> Result<ReclaimerActor<'a>, AllocError>
        ensures geometry { IfOk result (λ a. reclaimer_geometry a ≡ g.now) }
        ensures new { IfOk result (λ a. AgreesReclaimer ⟦<ReclaimerWorker<'a> as Actor>⟧.agrees ⟦<ReclaimerWorker<'a> as Actor>⟧.counted a [] None) }
    {
        let routine = Reclaiming::new(alloc, g)?;
        Ok(ReclaimerActor {
            worker: Worker::new(alloc, g, routine)?,
        })
    }
}

impl<'a> Actor for ReclaimerActor<'a> {
    type Made = Geometry;

    ghost use Rattle.std.specs.Prelude.{[], None};
    ghost use Rattle.nm_kswap.specs.Parts.{reclaimer_geometry, reclaimer_number, AgreesReclaimer};

    ghost made = { reclaimer_geometry };

    ghost geometry = { λ g. g };

    ghost number = { reclaimer_number };

    // it agrees with no turns
    ghost is_new = { λ a. AgreesReclaimer ⟦<ReclaimerWorker<'a> as Actor>⟧.agrees ⟦<ReclaimerWorker<'a> as Actor>⟧.counted a [] None };

    ghost agrees = { AgreesReclaimer ⟦<ReclaimerWorker<'a> as Actor>⟧.agrees ⟦<ReclaimerWorker<'a> as Actor>⟧.counted };

    ghost counted = { λ a. ⟦<ReclaimerWorker<'a> as Actor>⟧.counted a.worker };

    fn next(&mut self, heard: Heard) -> Turn {
        self.worker.next(heard)
    }

    fn tally(&self) -> Tally {
        self.worker.tally()
    }

    ghost opens = { λ a new. new };
}
