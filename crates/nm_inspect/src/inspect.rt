//! A page is inspected: whether it lies in a tier and was not accessed since it was inspected last.

ghost use Rattle.std.specs.Prelude.{◌≡◌, ◌≢◌, []};
ghost use Rattle.nm_compose.specs.declared.or.Or.{Or};
ghost use Rattle.nm_vpages.specs.VPages.{vpages_of};
ghost use Rattle.nm_looks.specs.Looking.{looks_data, IsNewLooks};
ghost use Rattle.nm_looks.specs.Softening.{IsNewSoftens};
ghost use Rattle.nm_inspect.specs.declared.inspect.InspectStage.{InspectStage};
ghost use Rattle.nm_inspect.specs.Stages.{inspect_data, inspect_piece, inspect_piece_made, IsNewInspect, IsNewInspectPiece, MayGoInspect};

use nm_base::Geometry;
use nm_compose::{Next, Or, Plan};
use nm_looks::{Looks, LooksRun, Seen, Softens, SoftensRun};
use nm_vpages::VPageSet;
use std::mem;

/// What an inspection is made with.
#[derive(Clone, Copy, Debug, PartialEq, Eq)]
pub struct InspectMade {
    /// The backing page.
    pub page: u32,
    /// The tier whose pages are inspected.
    pub tier: u32,
}

/// What was found.
#[derive(Clone, Copy, Debug, PartialEq, Eq)]
pub enum Inspected {
    /// No table word of the page maps a frame of the tier.
    Elsewhere,
    /// Some word was accessed, and the accessed bit was taken from each word that is not 0.
    InUse,
    /// No word was accessed: the page is to be demoted.
    Idle,
}

/// How far an inspection has come.
#[derive(Drop)]
pub(crate) enum InspectStage {
    /// It has not begun.
    New,
    /// The virtual pages of the page are looked at.
    Looking,
    /// The accessed bit is taken from the words of these virtual pages.
    Softening(VPageSet),
}

/// A piece of an inspection: Looks at the page's virtual pages, or Softens of them.
pub type InspectPiece<'a> = Or<LooksRun<'a>, SoftensRun>;

/// How a piece ends.
pub type InspectEnd = Or<Seen, ()>;

/// Inspects a page: each of its virtual pages is looked at; where some word maps a frame of the tier and some was accessed, the
/// accessed bit is taken from each word that is not 0.
#[derive(Drop)]
pub struct Inspect<'a> {
    geometry: &'a Geometry,
    made: InspectMade,
    stage: InspectStage,
}

impl<'a> Inspect<'a> {
    /// The inspection of a page by the demotion of a tier. Condition: the page has a virtual page (`VPageSet::of_page` tells);
    /// one without has nothing to look at. It may begin where the view has no operation on the page.
    pub fn new(g: &'a Geometry, page: u32, tier: u32) -> Inspect<'a>
        requires { vpages_of g.now page ≢ [] }
        ensures geometry { result.geometry.now ≡ g.now }
        ensures made { result.made ≡ record { page = page; tier = tier } }
        ensures new { IsNewInspect result }
    {
        Inspect {
            geometry: g,
            made: InspectMade { page, tier },
            stage: InspectStage::New,
        }
    }

    /// The piece of a stage.
    fn piece_of(&self, stage: &InspectStage) -> InspectPiece<'a>
        requires { MayGoInspect (inspect_data self.now) stage.now }
        ensures made { inspect_piece_made result ≡ inspect_piece (inspect_data self.now) stage.now }
        ensures new { IsNewInspectPiece result }
    {
        let g = self.geometry;
        let page = self.made.page;
        match stage {
            InspectStage::New | InspectStage::Looking => looks(Looks::new(
                g,
                page,
                self.made.tier,
                VPageSet::of_page(g, page),
            )),
            InspectStage::Softening(pages) => softens(Softens::new(pages.copy())),
        }
    }

    /// Comes to a stage, and gives its piece.
    fn go(&mut self, stage: InspectStage) -> InspectPiece<'a>
        requires { MayGoInspect (inspect_data self.old) stage }
        ensures stage { self.new ≡ record self.old { stage = stage } }
        ensures made { inspect_piece_made result ≡ inspect_piece (inspect_data self.old) stage }
        ensures new { IsNewInspectPiece result }
    {
        let piece = self.piece_of(&stage);
        self.stage = stage;
        piece
    }
}

/// The piece that looks at virtual pages.
fn looks<'a>(plan: Looks<'a>) -> InspectPiece<'a>
    requires { IsNewLooks plan }
    ensures made { inspect_piece_made result ≡ Or.This (looks_data plan.entry) }
    ensures new { IsNewInspectPiece result }
{
    Or::This(LooksRun::new(plan))
}

/// The piece that softens virtual pages.
fn softens<'a>(plan: Softens) -> InspectPiece<'a>
    requires { IsNewSoftens plan }
    ensures made { inspect_piece_made result ≡ Or.Other plan.pages }
    ensures new { IsNewInspectPiece result }
{
    Or::Other(SoftensRun::new(plan))
}

impl<'a> Plan<InspectPiece<'a>> for Inspect<'a> {
    type Outcome = Inspected;

    type Made = (Geometry, InspectMade);

    ghost use Rattle.std.specs.Prelude.{◌≡◌};
    ghost use Rattle.nm_compose.specs.Stages.{IsPieceAt};
    ghost use Rattle.nm_inspect.specs.Inspecting.{IsInspection, MayInspect};
    ghost use Rattle.nm_inspect.specs.Stages.{IsNewInspect, inspect_left, inspect_stages};

    ghost made = { λ s. record { 0 = s.geometry.now; 1 = s.made } };

    ghost is_new = { IsNewInspect };

    ghost may_begin = { MayInspect };

    ghost shape = { IsInspection };

    ghost leaves = { λ made g view outcome left. left ≡ view };

    ghost knows = { λ s. IsPieceAt inspect_stages (record { 0 = s.geometry.now; 1 = s.made }) s.stage };

    ghost left = { λ s. inspect_left (record { 0 = s.geometry.now; 1 = s.made }) s.stage };

    ghost ended = { λ s g outcome. Unit {0} };

    fn begin(&mut self) -> InspectPiece<'a> {
        self.go(InspectStage::Looking)
    }

    fn go_on(
        &mut self,
        _piece: &InspectPiece<'a>,
        end: InspectEnd,
    ) -> Next<InspectPiece<'a>, Inspected> {
        match mem::replace(&mut self.stage, InspectStage::New) {
            InspectStage::New => unreachable!(),
            InspectStage::Looking => {
                let Or::This(seen) = end else { unreachable!() };
                if !seen.inside {
                    Next::Over(Inspected::Elsewhere)
                } else if !seen.accessed {
                    Next::Over(Inspected::Idle)
                } else {
                    Next::Run(self.go(InspectStage::Softening(seen.mapped)))
                }
            }
            InspectStage::Softening(_) => Next::Over(Inspected::InUse),
        }
    }
}
