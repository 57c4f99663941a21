//! The plan of the fault on a virtual page that is not mapped.

ghost use Rattle.std.specs.Prelude.{◌≡◌};
ghost use Rattle.nm_base.specs.Ranges.{IsFrame};
ghost use Rattle.nm_missing_fault.specs.declared.missing.MissingStage.TheVariants.{New};
ghost use Rattle.nm_missing_fault.specs.MissingFault.{missing_word};
ghost use Rattle.nm_missing_fault.specs.Pieces.{missing_piece_made, IsNewMissingPiece, missing_told, missing_found};
ghost use Rattle.nm_missing_fault.specs.Stages.{missing_piece_of, HasMappedFrame};

use crate::search::SearchTask;
use nm_base::{Geometry, PageWord};
use nm_compose::{Act, Next, Or, Plan};
use nm_copying::{Zeroes, ZeroesRun};
use nm_event::{Action, Cell, Reply};
use nm_shadow_fault::{FaultEnd, FaultMade, Locks};

/// How far the fault has come.
#[derive(Clone, Copy, Debug, PartialEq, Eq)]
pub(crate) enum MissingStage {
    /// It has not begun.
    New,
    /// 1. The page is locked.
    Locking,
    /// 2. The virtual page is looked at.
    Looking,
    /// The page is unlocked, since the virtual page is mapped.
    Leaving,
    /// 3. The home is read.
    ReadingHome,
    /// 4. The shadow word of this home is read.
    ReadingShadow(u32),
    /// 5. A frame is sought.
    Searching,
    /// The words of this frame are set to 0.
    Zeroing(u32),
    /// The home is set to this frame.
    SettingHome(u32),
    /// The virtual page is mapped to this frame, which may have a shadow.
    Mapping {
        frame: u32,
        shadowed: bool,
        end: FaultEnd,
    },
    /// The page is unlocked.
    Unlocking(FaultEnd),
}

/// A piece of the fault: the page is locked, a single action, a frame is sought, or the words of a frame are set to 0.
pub type MissingPiece<'a> = Or<Locks, Or<Act, Or<SearchTask<'a>, ZeroesRun>>>;

/// How a piece of the fault ends.
pub(crate) type MissingPieceEnd = Or<(), Or<Reply, Or<u32, ()>>>;

/// The plan of the fault.
#[derive(Clone, Copy)]
pub struct MissingFault<'a> {
    geometry: &'a Geometry,
    made: FaultMade,
    stage: MissingStage,
}

/// The word of the reply with which a piece ended (0 where there is none, of which nothing is claimed).
fn missing_told(end: MissingPieceEnd) -> u64
    ensures { result ≡ missing_told end }
{
    match end {
        Or::This(_) => 0,
        Or::Other(end) => match end {
            Or::This(reply) => match reply {
                Reply::Word(word) => word,
                Reply::Done | Reply::Busy(_) | Reply::Lost(_) => 0,
            },
            Or::Other(_) => 0,
        },
    }
}

/// The frame that a search found (0 where the piece was none, of which nothing is claimed).
fn missing_found(end: MissingPieceEnd) -> u32
    ensures { result ≡ missing_found end }
{
    match end {
        Or::This(_) => 0,
        Or::Other(end) => match end {
            Or::This(_) => 0,
            Or::Other(end) => match end {
                Or::This(frame) => frame,
                Or::Other(_) => 0,
            },
        },
    }
}

/// The word that maps a virtual page to a frame: with a hint where the frame is not in tier 0; writable where the virtual
/// page is and the frame has no shadow; with the right to write kept for later where the frame has a shadow.
fn missing_word(g: &Geometry, vpage: u32, frame: u32, shadowed: bool) -> u64
    requires { IsFrame g.now frame }
    ensures { result ≡ missing_word g.now vpage frame shadowed }
{
    let right = g.may_be_written(vpage);
    PageWord::Present {
        frame,
        hint: g.tier_of(frame) != 0,
        writable: right && !shadowed,
        dirty: false,
        accessed: false,
        saved: right && shadowed,
    }
    .to_word()
}

impl<'a> MissingFault<'a> {
    /// The fault on this virtual page. Where it begins the virtual page is mapped to the page, and the view holds no turn and
    /// has no operation.
    pub fn new(geometry: &'a Geometry, made: FaultMade) -> MissingFault<'a>
        ensures geometry { result.geometry.now ≡ geometry.now }
        ensures made { result.made ≡ made }
        ensures new { result.stage ≡ New }
    {
        MissingFault {
            geometry,
            made,
            stage: MissingStage::New,
        }
    }

    /// Comes to a stage, and gives its piece.
    fn go(&mut self, stage: MissingStage) -> MissingPiece<'a>
        requires { HasMappedFrame self.old.geometry.now stage }
        ensures stage { self.new ≡ record self.old { stage = stage } }
        ensures made { missing_piece_made result ≡ missing_piece_of self.old.geometry.now self.old.made stage }
        ensures new { IsNewMissingPiece result }
    {
        self.stage = stage;
        let g = self.geometry;
        let FaultMade { vpage, page } = self.made;
        let action = match stage {
            MissingStage::New | MissingStage::Locking => return Or::This(Locks::new(page)),
            MissingStage::Looking => Action::Look { vpage },
            MissingStage::Leaving | MissingStage::Unlocking(_) => Action::Unlock { page },
            MissingStage::ReadingHome => Action::Read {
                page,
                cell: Cell::Home(page),
            },
            MissingStage::ReadingShadow(home) => Action::Read {
                page,
                cell: Cell::Shadow(home),
            },
            MissingStage::Searching => {
                return Or::Other(Or::Other(Or::This(SearchTask::new(g, page))))
            }
            MissingStage::Zeroing(frame) => {
                return Or::Other(Or::Other(Or::Other(ZeroesRun::new(Zeroes::new(g, frame)))))
            }
            MissingStage::SettingHome(frame) => Action::SetHome { page, frame },
            MissingStage::Mapping {
                frame,
                shadowed,
                ..
            } => Action::Map {
                vpage,
                word: missing_word(g, vpage, frame, shadowed),
            },
        };
        Or::Other(Or::This(Act::new(action)))
    }
}

impl<'a> Plan<MissingPiece<'a>> for MissingFault<'a> {
    type Outcome = FaultEnd;

    type Made = (Geometry, FaultMade);

    ghost use Rattle.std.specs.Prelude.{◌≡◌};
    ghost use Rattle.nm_prepare.specs.Placing.{IsPlanPlaced};
    ghost use Rattle.nm_shadow_fault.specs.Granting.{fault_made, MayFault, IsFaulted};
    ghost use Rattle.nm_missing_fault.specs.declared.missing.MissingStage.TheVariants.{New};
    ghost use Rattle.nm_missing_fault.specs.MissingFault.{IsMissingFault};
    ghost use Rattle.nm_missing_fault.specs.Stages.{missing_piece_of, missing_left, KnownInMissing};

    ghost made = { λ s. fault_made s.geometry.now s.made };

    ghost is_new = { λ s. s.stage ≡ New };

    ghost may_begin = { MayFault };

    ghost shape = { λ made. IsMissingFault made.1 };

    ghost leaves = { λ made g view end left. IsFaulted view left };

    ghost knows = { λ s. IsPlanPlaced missing_piece_of KnownInMissing s.geometry.now s.made s.stage };

    ghost left = { λ s. missing_left s.made s.stage };

    ghost ended = { λ s g end. Unit {0} };

    fn begin(&mut self) -> MissingPiece<'a> {
        self.go(MissingStage::Locking)
    }

    fn go_on(
        &mut self,
        _piece: &MissingPiece<'a>,
        end: MissingPieceEnd,
    ) -> Next<MissingPiece<'a>, FaultEnd> {
        let told = missing_told(end);
        match self.stage {
            MissingStage::New => unreachable!(),
            MissingStage::Locking => Next::Run(self.go(MissingStage::Looking)),
            MissingStage::Looking => if told == 0 {
                Next::Run(self.go(MissingStage::ReadingHome))
            } else {
                Next::Run(self.go(MissingStage::Leaving))
            },
            MissingStage::Leaving => Next::Over(FaultEnd::Ready),
            MissingStage::ReadingHome => if told == 0 {
                Next::Run(self.go(MissingStage::Searching))
            } else {
                Next::Run(self.go(MissingStage::ReadingShadow((told - 1) as u32)))
            },
            MissingStage::ReadingShadow(frame) => {
                let shadowed = told != 0;
                Next::Run(self.go(MissingStage::Mapping {
                    frame,
                    shadowed,
                    end: FaultEnd::Alias,
                }))
            }
            MissingStage::Searching => {
                let frame = missing_found(end);
                Next::Run(self.go(MissingStage::Zeroing(frame)))
            }
            MissingStage::Zeroing(frame) => Next::Run(self.go(MissingStage::SettingHome(frame))),
            MissingStage::SettingHome(frame) => Next::Run(self.go(MissingStage::Mapping {
                frame,
                shadowed: false,
                end: FaultEnd::Demand,
            })),
            MissingStage::Mapping { end, .. } => Next::Run(self.go(MissingStage::Unlocking(end))),
            MissingStage::Unlocking(end) => Next::Over(end),
        }
    }
}
