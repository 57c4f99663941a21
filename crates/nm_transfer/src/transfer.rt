//! A page is taken out of the table, gets a new home, and is mapped to it.

ghost use Rattle.std.specs.Prelude.{◌≡◌, ◌≢◌, ◌+◌, ◌<◌, [], Some, IfSome, IfNone, drop};
ghost use Rattle.nm_base.specs.Ranges.{IsFrame};
ghost use Rattle.nm_vpages.specs.VPages.{most_vpages};
ghost use Rattle.nm_compose.specs.declared.or.Or.{Or};
ghost use Rattle.nm_mappings.specs.Visiting.{IsNewVisits};
ghost use Rattle.nm_transfer.specs.declared.transfer.Stage.{Stage};
ghost use Rattle.nm_transfer.specs.Words.{mapped_word};
ghost use Rattle.nm_transfer.specs.Transferring.{transfer_made};
ghost use Rattle.nm_shoot.specs.Asking.{cpus_of, IsNewShoot};
ghost use Rattle.nm_copying.specs.declared.copies.Stage.TheVariants as copying;
ghost use Rattle.nm_transfer.specs.Stages.{IsNewTransfer, transfer_piece, transfer_piece_made, IsNewTransferPiece, MayTransferTo, filling_stage, taken_in, transfer_told, noted, CanNote, HoldsWords, IsMappingFrom, IsMapNext};

use crate::words::TakenWords;
use nm_base::{Geometry, PageWord, table_word};
use nm_compose::{Act, Next, Or, Plan};
use nm_copying::{Copies, CopiesRun};
use nm_event::{Action, Reply};
use nm_mappings::{VisitPlan, Visits};
use nm_shoot::Shoot;
use nm_vpages::VPageSet;

/// From where the words of the new home come.
#[derive(Clone, Copy, Debug, PartialEq, Eq)]
pub enum Source {
    /// They are copied from the old home.
    Copy,
    /// The new home is the shadow of the old one, and has them.
    Shadow,
}

/// With which rights and marks the page is mapped to its new home.
#[derive(Clone, Copy, Debug, PartialEq, Eq)]
pub enum Rights {
    /// With those of the word that was taken.
    Kept,
    /// Writable where the word that was taken was writable or had the right saved, dirty as that word; not accessed, and
    /// with no right saved.
    Plain,
}

/// What a transfer is made with.
#[derive(Debug, Drop)]
pub struct TransferMade {
    /// The page.
    pub page: u32,
    /// The frame of its old home.
    pub home: u32,
    /// The frame of its new home.
    pub frame: u32,
    /// From where the words of the new home come.
    pub source: Source,
    /// With which rights the page is mapped.
    pub rights: Rights,
    /// The virtual pages of the page that have table words.
    pub pages: VPageSet,
    /// Whether the new home is in a tier other than 0, so that its table words have the hint.
    pub hint: bool,
    /// How many processors there are.
    pub cpus: u32,
    /// The copy of the page into the new home.
    pub copies: Copies,
}

/// How far a transfer has come.
#[derive(Clone, Copy, Debug, PartialEq, Eq)]
pub(crate) enum Stage {
    /// It has not begun.
    New,
    /// The word of this virtual page is taken.
    Unmapping(u32),
    /// The virtual pages are raised.
    Raising,
    /// The shootdown.
    Flushing,
    /// The page is copied.
    Copying,
    /// The shadow word of the old home is set to none.
    Unshading,
    /// The new home is set.
    Homing,
    /// The virtual page of this place is mapped, whose word was this.
    Mapping { index: u32, vpage: u32, word: u64 },
}

/// A piece of a transfer: an action, visits of virtual pages, a shootdown, or a copy.
pub type TransferPiece = Or<Act, Or<Visits, Or<Shoot, CopiesRun>>>;

/// Takes the table words of a page out, in ascending order, and raises the virtual pages; shoots their translations down;
/// copies the page into a frame, or gives up the shadow of its home; sets the new home; and maps the virtual pages to it. The
/// outcome are the words that were taken.
#[derive(Drop)]
pub struct Transfer {
    made: TransferMade,
    stage: Stage,
    taken: Option<TakenWords>,
}

/// How a piece of a transfer ends.
pub type TransferPieceEnd = Or<Reply, Or<VPageSet, Or<u64, ()>>>;

impl Transfer {
    /// A transfer of a page, from the frame of its home to another frame. `pages` are the virtual pages of the page that
    /// have table words, `taken` gives the room for these. Conditions: there is one at least, and the frame exists.
    pub fn new(
        g: &Geometry,
        page: u32,
        home: u32,
        frame: u32,
        source: Source,
        rights: Rights,
        pages: VPageSet,
        taken: TakenWords,
    ) -> Transfer
        requires some { pages ≢ [] }
        requires frame { IsFrame g.now frame }
        ensures made { result.made ≡ transfer_made g.now page home frame source rights pages }
        ensures new { IsNewTransfer result }
    {
        let mut taken = taken;
        taken.clear();
        Transfer {
            made: TransferMade {
                page,
                home,
                frame,
                source,
                rights,
                pages,
                hint: g.tier_of(frame) != 0,
                cpus: g.cpus,
                copies: Copies::new(g, page, frame),
            },
            stage: Stage::New,
            taken: Some(taken),
        }
    }

    /// The word that maps a virtual page to the new home, by the one that was taken.
    fn mapped_word(&self, word: u64) -> u64
        ensures { result ≡ mapped_word self.now.made.rights self.now.made.frame self.now.made.hint word }
    {
        let writable = table_word::is_writable(word);
        let dirty = table_word::is_dirty(word);
        let accessed = table_word::is_accessed(word);
        let saved = table_word::is_saved(word);
        let frame = self.made.frame;
        let hint = self.made.hint;
        match self.made.rights {
            Rights::Kept => PageWord::Present {
                frame,
                hint,
                writable,
                dirty,
                accessed,
                saved,
            },
            Rights::Plain => PageWord::Present {
                frame,
                hint,
                writable: writable || saved,
                dirty,
                accessed: false,
                saved: false,
            },
        }
        .to_word()
    }

    /// The piece of a stage.
    fn piece_of(&self, stage: Stage) -> TransferPiece
        requires { MayTransferTo self.now.made stage }
        ensures made { transfer_piece_made result ≡ transfer_piece self.now.made stage }
        ensures new { IsNewTransferPiece result }
    {
        let page = self.made.page;
        match stage {
            Stage::New => action(Action::Unlock { page }),
            Stage::Unmapping(vpage) => action(Action::Unmap { vpage }),
            Stage::Raising => raises(VisitPlan::raises(page, self.made.pages.copy())),
            Stage::Flushing => shoots(Shoot::new(self.made.cpus)),
            Stage::Copying => copies(self.made.copies),
            Stage::Unshading => action(Action::SetShadow {
                page,
                master: self.made.home,
                shadow: None,
            }),
            Stage::Homing => action(Action::SetHome {
                page,
                frame: self.made.frame,
            }),
            Stage::Mapping { vpage, word, .. } => action(Action::Map {
                vpage,
                word: self.mapped_word(word),
            }),
        }
    }

    /// Comes to a stage, and gives its piece.
    fn go(&mut self, stage: Stage) -> TransferPiece
        requires { MayTransferTo self.old.made stage }
        ensures stage { self.new ≡ record self.old { stage = stage } }
        ensures made { transfer_piece_made result ≡ transfer_piece self.old.made stage }
        ensures new { IsNewTransferPiece result }
    {
        self.stage = stage;
        self.piece_of(stage)
    }

    /// The stage in which the new home gets its words.
    fn filling_stage(&self) -> Stage
        ensures { result ≡ filling_stage self.now.made }
    {
        match self.made.source {
            Source::Copy => Stage::Copying,
            Source::Shadow => Stage::Unshading,
        }
    }

    /// Notes a word that was taken.
    fn note(&mut self, vpage: u32, word: u64)
        requires { CanNote self.old.taken }
        ensures { self.new ≡ record self.old { taken = noted vpage word self.old.taken } }
    {
        match &mut self.taken {
            Some(taken) => taken.push(vpage, word),
            None => unreachable!(),
        }
    }

    /// The stage in which the virtual page of a place is mapped. None where all are mapped.
    fn mapping_stage(&self, index: u32) -> Option<Stage>
        ensures some { IfSome result (IsMappingFrom (taken_in self.now.taken) index) }
        ensures none { IfNone result (drop index (taken_in self.now.taken) ≡ []) }
    {
        match &self.taken {
            Some(taken) => match taken.get(index) {
                Some((vpage, word)) => Some(Stage::Mapping { index, vpage, word }),
                None => None,
            },
            None => None,
        }
    }

    /// Maps the virtual page of a place, or is over.
    fn map_from(&mut self, index: u32) -> Next<TransferPiece, TakenWords>
        requires { HoldsWords self.old.taken }
        ensures { IsMapNext self.old index self.new result }
    {
        match self.mapping_stage(index) {
            Some(stage) => Next::Run(self.go(stage)),
            None => match self.taken.take() {
                Some(taken) => Next::Over(taken),
                None => unreachable!(),
            },
        }
    }
}

/// The word that the reply carries with which a piece ended (0 where it carries none, of which nothing is claimed).
fn transfer_told(end: TransferPieceEnd) -> u64
    ensures { result ≡ transfer_told end }
{
    match end {
        Or::This(reply) => match reply {
            Reply::Done => 0,
            Reply::Word(word) | Reply::Busy(word) | Reply::Lost(word) => word,
        },
        Or::Other(_) => 0,
    }
}

/// The piece that makes an action.
fn action(action: Action) -> TransferPiece
    ensures made { transfer_piece_made result ≡ Or.This action }
    ensures new { IsNewTransferPiece result }
{
    Or::This(Act::new(action))
}

/// The piece that raises virtual pages.
fn raises(plan: VisitPlan) -> TransferPiece
    requires { IsNewVisits plan }
    ensures made { transfer_piece_made result ≡ Or.Other (Or.This plan.made) }
    ensures new { IsNewTransferPiece result }
{
    Or::Other(Or::This(Visits::new(plan)))
}

/// The piece that runs a shootdown.
fn shoots(shoot: Shoot) -> TransferPiece
    requires { IsNewShoot shoot }
    ensures made { transfer_piece_made result ≡ Or.Other (Or.Other (Or.This (cpus_of shoot))) }
    ensures new { IsNewTransferPiece result }
{
    Or::Other(Or::Other(Or::This(shoot)))
}

/// The piece that copies a page.
fn copies(plan: Copies) -> TransferPiece
    requires { plan.stage ≡ copying.New }
    ensures made { transfer_piece_made result ≡ Or.Other (Or.Other (Or.Other plan.made)) }
    ensures new { IsNewTransferPiece result }
{
    Or::Other(Or::Other(Or::Other(CopiesRun::new(plan))))
}

impl Plan<TransferPiece> for Transfer {
    type Outcome = TakenWords;

    type Made = TransferMade;

    ghost use Rattle.nm_compose.specs.Stages.{IsPieceAt};
    ghost use Rattle.nm_transfer.specs.Transferring.{IsTransfer};
    ghost use Rattle.nm_transfer.specs.Moving.{MayTransfer, IsTransferred};
    ghost use Rattle.nm_transfer.specs.Stages.{transfer_place, IsNewTransfer, transfer_left, transfer_stages};

    ghost made = { λ t. t.made };

    ghost is_new = { IsNewTransfer };

    ghost may_begin = { MayTransfer };

    ghost shape = { IsTransfer };

    ghost leaves = { λ made g view taken left. IsTransferred made g view taken left };

    ghost knows = { λ t. IsPieceAt transfer_stages t.made (transfer_place t) };

    ghost left = { λ t. transfer_left t.made (transfer_place t) };

    ghost ended = { λ t g taken. Unit {0} };

    fn begin(&mut self) -> TransferPiece {
        let Some(vpage) = self.made.pages.next(0) else {
            unreachable!()
        };
        self.go(Stage::Unmapping(vpage))
    }

    fn go_on(
        &mut self,
        _piece: &TransferPiece,
        end: TransferPieceEnd,
    ) -> Next<TransferPiece, TakenWords> {
        match self.stage {
            Stage::New => unreachable!(),
            Stage::Unmapping(vpage) => {
                self.note(vpage, transfer_told(end));
                match self.made.pages.next(vpage + 1) {
                    Some(next) => Next::Run(self.go(Stage::Unmapping(next))),
                    None => Next::Run(self.go(Stage::Raising)),
                }
            }
            Stage::Raising => Next::Run(self.go(Stage::Flushing)),
            Stage::Flushing => {
                let stage = self.filling_stage();
                Next::Run(self.go(stage))
            }
            Stage::Copying => Next::Run(self.go(Stage::Homing)),
            Stage::Unshading => Next::Run(self.go(Stage::Homing)),
            Stage::Homing => self.map_from(0),
            Stage::Mapping { index, .. } => self.map_from(index + 1),
        }
    }
}
