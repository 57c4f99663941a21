//! The words of an owned frame are set to 0.

ghost use Rattle.std.specs.Prelude.{◌≡◌, ◌+◌, ◌<◌, ◌^◌};
ghost use Rattle.nm_copying.specs.declared.zeroes.ZeroStage.TheVariants.{Fresh};
ghost use Rattle.nm_copying.specs.Zeroing.{zeroes_action};

use nm_base::Geometry;
use nm_compose::{Act, Next, Plan};
use nm_event::{Action, Reply};

/// How far the words are set.
#[derive(Clone, Copy, Debug, PartialEq, Eq)]
pub(crate) enum ZeroStage {
    /// It has not begun.
    Fresh,
    /// It sets the word of this index.
    Zeroing(u32),
}

/// What it is made with.
#[derive(Clone, Copy, Debug, PartialEq, Eq)]
pub struct ZeroesMade {
    /// The frame.
    pub frame: u32,
    /// How many words a frame has.
    pub words: u32,
}

/// Sets all words of an owned frame to 0, in order.
#[derive(Clone, Copy, Debug, PartialEq, Eq)]
pub struct Zeroes {
    made: ZeroesMade,
    stage: ZeroStage,
}

impl Zeroes {
    /// The zeroing of a frame. Where it begins the frame is there; the view owns it, and nothing is known of its words.
    pub fn new(g: &Geometry, frame: u32) -> Zeroes
        ensures made { result.made ≡ record { frame = frame; words = g.now.words } }
        ensures new { result.stage ≡ Fresh }
    {
        Zeroes {
            made: ZeroesMade {
                frame,
                words: g.words,
            },
            stage: ZeroStage::Fresh,
        }
    }

    /// What it was made with.
    pub fn made(&self) -> ZeroesMade
        ensures { result ≡ self.now.made }
    {
        self.made
    }

    /// Comes to a stage, and gives its action.
    fn go(&mut self, stage: ZeroStage) -> Act
        ensures stage { self.new ≡ record self.old { stage = stage } }
        ensures act { result.action ≡ zeroes_action self.old.made stage }
    {
        self.stage = stage;
        let index = match stage {
            ZeroStage::Fresh => 0,
            ZeroStage::Zeroing(index) => index,
        };
        Act::new(Action::CopyStore {
            page: None,
            frame: self.made.frame,
            index,
            value: 0,
        })
    }
}

impl Plan<Act> for Zeroes {
    type Outcome = ();

    type Made = ZeroesMade;

    ghost use Rattle.std.specs.Prelude.{◌≡◌};
    ghost use Rattle.nm_copying.specs.declared.zeroes.ZeroStage.TheVariants.{Fresh};
    ghost use Rattle.nm_compose.specs.Stages.{IsPieceAt};
    ghost use Rattle.nm_copying.specs.Zeroing.{MayZeroes, IsZeroing, IsZeroed, zeroes_stages, zeroes_left};

    ghost made = { λ s. s.made };

    ghost is_new = { λ s. s.stage ≡ Fresh };

    ghost may_begin = { MayZeroes };

    ghost shape = { IsZeroing };

    ghost leaves = { λ made g view end left. IsZeroed made view left };

    ghost knows = { λ s. IsPieceAt zeroes_stages s.made s.stage };

    ghost left = { λ s. zeroes_left s.made s.stage };

    ghost ended = { λ s g end. Unit {0} };

    fn begin(&mut self) -> Act {
        self.go(ZeroStage::Zeroing(0))
    }

    fn go_on(&mut self, _piece: &Act, _end: Reply) -> Next<Act, ()> {
        match self.stage {
            ZeroStage::Fresh => unreachable!(),
            ZeroStage::Zeroing(index) => if index + 1 < self.made.words {
                Next::Run(self.go(ZeroStage::Zeroing(index + 1)))
            } else {
                Next::Over(())
            },
        }
    }
}
