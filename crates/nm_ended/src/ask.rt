//! The processors are asked in order, up to the first that has not ended.

ghost use Rattle.std.specs.Prelude.{◌≡◌, ◌<◌};
ghost use Rattle.nm_action.specs.declared.action.Action.TheVariants.{SeeAck};

use nm_base::Geometry;
use nm_compose::{Act, Next, Plan};
use nm_event::{Action, Reply};

/// The acknowledgement of a processor that has ended.
const END: u64 = u64::MAX;

/// Asks each processor in order for its acknowledgement, up to the first that has not ended; the outcome is whether all have.
#[derive(Clone, Copy, Debug, PartialEq, Eq)]
pub struct AskEnded {
    /// How many processors there are.
    cpus: u32,
    /// The one that is asked.
    cpu: u32,
}

impl AskEnded {
    /// The question to the processors of a geometry. Where it begins the view has no open operation.
    pub fn new(g: &Geometry) -> AskEnded
        ensures { result ≡ record { cpus = g.now.cpus; cpu = 0 } }
    {
        AskEnded {
            cpus: g.cpus,
            cpu: 0,
        }
    }

    /// The question to its processor.
    fn ask(&self) -> Act
        ensures { result.action ≡ SeeAck self.now.cpu }
    {
        Act::new(Action::SeeAck { cpu: self.cpu })
    }
}

impl Plan<Act> for AskEnded {
    type Outcome = bool;

    type Made = u32;

    ghost use Rattle.std.specs.Prelude.{◌≡◌};
    ghost use Rattle.nm_compose.specs.Stages.{IsPieceAt};
    ghost use Rattle.nm_ended.specs.Asking.{MayAsk, IsAsking, ask_left, ask_stages};

    ghost made = { λ a. a.cpus };

    ghost is_new = { λ a. a.cpu ≡ 0 };

    ghost may_begin = { λ cpus g view. MayAsk cpus g view };

    ghost shape = { IsAsking };

    ghost leaves = { λ cpus g view all left. left ≡ view };

    ghost knows = { λ a. IsPieceAt ask_stages a.cpus a.cpu };

    ghost left = { λ a. ask_left a.cpus a.cpu };

    ghost ended = { λ a g all. Unit {0} };

    fn begin(&mut self) -> Act {
        self.ask()
    }

    fn go_on(&mut self, _piece: &Act, end: Reply) -> Next<Act, bool> {
        let Reply::Word(word) = end else {
            unreachable!()
        };
        if word == END {
            if self.cpu + 1 < self.cpus {
                self.cpu += 1;
                Next::Run(self.ask())
            } else {
                Next::Over(true)
            }
        } else {
            Next::Over(false)
        }
    }
}
