//! The shootdown as a part of an actor's work.

ghost use Rattle.std.specs.Prelude.{◌≡◌, ◌≤◌};
ghost use Rattle.nm_shoot.specs.Asking.{ask, cpus_of, IsNewShoot};

use nm_event::{Action, Reply, Step};
use nm_part::{Part, Piece};

/// How far a shootdown has come.
#[derive(Clone, Copy, Debug, PartialEq, Eq)]
pub(crate) enum Stage {
    /// It has not begun.
    New,
    /// It has bumped.
    Bumping,
    /// It has asked this processor for an acknowledgement of at least this number.
    Seeing { cpu: u32, number: u64 },
}

/// A shootdown: it bumps, and then reads each processor's acknowledgement, in order, each again until it is at least the
/// number drawn, which is its outcome.
#[derive(Clone, Copy, Debug, PartialEq, Eq)]
pub struct Shoot {
    cpus: u32,
    stage: Stage,
}

impl Shoot {
    /// A shootdown of all processors. Conditions where it begins: there are so many processors, the view's bumps are
    /// below 2^56, and no due operation of the view has a wet page.
    pub fn new(cpus: u32) -> Shoot
        ensures made { cpus_of result ≡ cpus }
        ensures new { IsNewShoot result }
    {
        Shoot {
            cpus,
            stage: Stage::New,
        }
    }

    /// Asks a processor, or is over where there is none left.
    fn see(&mut self, cpu: u32, number: u64) -> Step<u64>
        ensures stage { self.new ≡ record self.old { stage = Stage.Seeing cpu number } }
        ensures step { result ≡ ask self.old.cpus cpu number }
    {
        self.stage = Stage::Seeing { cpu, number };
        if cpu < self.cpus {
            Step::Do(Action::SeeAck { cpu })
        } else {
            Step::Over(number)
        }
    }
}

impl Part for Shoot {
    type Outcome = u64;

    type Made = u32;

    ghost use Rattle.nm_part.specs.Parts.{NothingTold};
    ghost use Rattle.nm_shoot.specs.Shootdown.{IsShootdown};
    ghost use Rattle.nm_shoot.specs.Flushed.{MayShoot, IsFlushed};
    ghost use Rattle.nm_shoot.specs.Asking.{cpus_of, IsNewShoot, AwaitsShoot};

    ghost made = { cpus_of };

    ghost is_new = { IsNewShoot };

    ghost may_begin = { MayShoot };

    ghost shape = { λ cpus g own number. IsShootdown cpus own number };

    ghost leaves = { λ cpus g view number left. IsFlushed g view number left };

    ghost awaits = { AwaitsShoot };

    ghost ended = { λ s. NothingTold };

    fn first(&mut self) -> Step<u64> {
        Step::Do(self.start())
    }

    fn after(&mut self, reply: Reply) -> Step<u64> {
        let Reply::Word(word) = reply else {
            unreachable!()
        };
        match self.stage {
            Stage::New => unreachable!(),
            Stage::Bumping => self.see(0, word + 1),
            Stage::Seeing { cpu, number } => if word < number {
                self.see(cpu, number)
            } else {
                self.see(cpu + 1, number)
            },
        }
    }
}

impl Piece for Shoot {
    fn start(&mut self) -> Action {
        self.stage = Stage::Bumping;
        Action::Bump
    }
}
