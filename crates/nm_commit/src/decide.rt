//! A transaction is decided by the dirty bit of the word that was taken.

ghost use Rattle.std.specs.Prelude.{◌≡◌};
ghost use Rattle.nm_base.specs.Ranges.{IsFrame};
ghost use Rattle.nm_commit.specs.Deciding.{moved_word};
ghost use Rattle.nm_commit.specs.Stages.{decide_piece, decide_made, IsNewDecidePiece, MayDecideAt, first_stage};

use nm_base::table_word::{is_accessed, is_dirty, is_saved, is_writable};
use nm_base::{Geometry, PageWord};
use nm_compose::{Act, Next, Or, Plan};
use nm_event::{Action, Cell, Reply};
use nm_pool::{PoolEnd, PoolTask};

/// The mark of a page that is to be moved.
const PENDING: u64 = 2;
/// The mark of a page that is not to be moved.
const NO_MARK: u64 = 0;

/// What it is made with.
#[derive(Clone, Copy, Debug, PartialEq, Eq)]
pub struct DecideMade {
    /// The backing page.
    pub page: u32,
    /// The virtual page whose word was taken.
    pub vpage: u32,
    /// The word that was taken.
    pub word: u64,
    /// The frame of the page's home.
    pub home: u32,
    /// The frame into which the page is copied.
    pub frame: u32,
}

/// How it ends.
#[derive(Clone, Copy, Debug, Default, PartialEq, Eq)]
pub enum Decided {
    /// The word that was taken was clean: the page has its new home, of which the old one is the shadow.
    #[default]
    Committed,
    /// The word that was taken, this one, was dirty, and stands again in the table.
    Aborted(u64),
}

/// How far it has come.
#[derive(Clone, Copy, Debug, PartialEq, Eq)]
pub(crate) enum DecideStage {
    /// It has not begun.
    Start,
    /// The taken word is mapped again.
    MappingBack,
    /// The page is unlocked, with its old home.
    UnlockingOld,
    /// The new frame is put back.
    PuttingBack,
    /// The new home is set.
    SettingHome,
    /// The shadow word of the new home is read.
    Reading,
    /// The old home becomes the shadow of the new one.
    Shading,
    /// The virtual page is mapped to the new home.
    Mapping,
    /// The page is pending no more.
    Marking,
    /// The page is unlocked.
    Unlocking,
}

/// A piece of it: an action, or a task on the free frames.
pub type DecidePiece = Or<Act, PoolTask>;

/// Commits a transaction where the word that was taken is clean, and aborts it where that is dirty.
#[derive(Clone, Copy)]
pub struct Decide<'a> {
    geometry: &'a Geometry,
    made: DecideMade,
    stage: DecideStage,
}

impl<'a> Decide<'a> {
    /// It is made for a page whose word of one virtual page was taken, and which is copied from its home into a frame.
    pub fn new(g: &'a Geometry, made: DecideMade) -> Decide<'a>
        ensures geometry { result.geometry.now ≡ g.now }
        ensures made { result.made ≡ made }
        ensures new { result.stage ≡ DecideStage.Start }
    {
        Decide {
            geometry: g,
            made,
            stage: DecideStage::Start,
        }
    }

    /// The word that maps the virtual page to its new home.
    fn moved_word(&self) -> u64
        requires { IsFrame self.now.geometry.now self.now.made.frame }
        ensures { result ≡ moved_word self.now.geometry.now self.now.made.frame self.now.made.word }
    {
        let DecideMade { word, frame, .. } = self.made;
        PageWord::Present {
            frame,
            hint: self.geometry.tier_of(frame) != 0,
            writable: false,
            dirty: false,
            accessed: is_accessed(word),
            saved: is_writable(word) || is_saved(word),
        }
        .to_word()
    }

    /// The first stage.
    fn first_stage(&self) -> DecideStage
        ensures { result ≡ first_stage self.now.made }
    {
        if is_dirty(self.made.word) {
            DecideStage::MappingBack
        } else {
            DecideStage::SettingHome
        }
    }

    /// Comes to a stage, and gives its piece.
    fn go(&mut self, stage: DecideStage) -> DecidePiece
        requires { MayDecideAt self.old.geometry.now self.old.made stage }
        ensures stage { self.new ≡ record self.old { stage = stage } }
        ensures made { decide_made result ≡ decide_piece self.old.geometry.now self.old.made stage }
        ensures new { IsNewDecidePiece result }
    {
        self.stage = stage;
        let DecideMade {
            page,
            vpage,
            word,
            home,
            frame,
        } = self.made;
        action(match stage {
            DecideStage::PuttingBack => return Or::Other(PoolTask::give_back(self.geometry, frame)),
            DecideStage::Start | DecideStage::MappingBack => Action::Map { vpage, word },
            DecideStage::UnlockingOld | DecideStage::Unlocking => Action::Unlock { page },
            DecideStage::SettingHome => Action::SetHome { page, frame },
            DecideStage::Reading => Action::Read {
                page,
                cell: Cell::Shadow(frame),
            },
            DecideStage::Shading => Action::SetShadow {
                page,
                master: frame,
                shadow: Some(home),
            },
            DecideStage::Mapping => Action::Map {
                vpage,
                word: self.moved_word(),
            },
            DecideStage::Marking => Action::Mark {
                page,
                from: PENDING,
                to: NO_MARK,
            },
        })
    }
}

/// The piece that makes an action.
fn action(action: Action) -> DecidePiece
    ensures made { decide_made result ≡ Or.This action }
    ensures new { IsNewDecidePiece result }
{
    Or::This(Act::new(action))
}

impl<'a> Plan<DecidePiece> for Decide<'a> {
    type Outcome = Decided;

    type Made = (Geometry, DecideMade);

    ghost use Rattle.std.specs.Prelude.{◌≡◌};
    ghost use Rattle.nm_commit.specs.declared.decide.DecideStage.TheVariants.{Start};
    ghost use Rattle.nm_prepare.specs.Placing.{IsPlanPlaced};
    ghost use Rattle.nm_commit.specs.Deciding.{IsDeciding, MayDecide, IsDecision};
    ghost use Rattle.nm_commit.specs.Stages.{decide_piece, decide_left, DecideKnown};

    ghost made = { λ s. record { 0 = s.geometry.now; 1 = s.made } };

    ghost is_new = { λ s. s.stage ≡ Start };

    ghost may_begin = { λ made g view. MayDecide made.0 made.1 g view };

    ghost shape = { λ made g own outcome. IsDeciding made.1 g own outcome };

    ghost leaves = { λ made g view outcome left. IsDecision made.1 view left };

    ghost knows = { λ s. IsPlanPlaced decide_piece DecideKnown s.geometry.now s.made s.stage };

    ghost left = { λ s. decide_left s.made s.stage };

    ghost ended = { λ s g outcome. Unit {0} };

    fn begin(&mut self) -> DecidePiece {
        let stage = self.first_stage();
        self.go(stage)
    }

    fn go_on(
        &mut self,
        _piece: &DecidePiece,
        _end: Or<Reply, PoolEnd>,
    ) -> Next<DecidePiece, Decided> {
        match self.stage {
            DecideStage::Start => unreachable!(),
            DecideStage::MappingBack => Next::Run(self.go(DecideStage::UnlockingOld)),
            DecideStage::UnlockingOld => Next::Run(self.go(DecideStage::PuttingBack)),
            DecideStage::PuttingBack => Next::Over(Decided::Aborted(self.made.word)),
            DecideStage::SettingHome => Next::Run(self.go(DecideStage::Reading)),
            DecideStage::Reading => Next::Run(self.go(DecideStage::Shading)),
            DecideStage::Shading => Next::Run(self.go(DecideStage::Mapping)),
            DecideStage::Mapping => Next::Run(self.go(DecideStage::Marking)),
            DecideStage::Marking => Next::Run(self.go(DecideStage::Unlocking)),
            DecideStage::Unlocking => Next::Over(Decided::Committed),
        }
    }
}
