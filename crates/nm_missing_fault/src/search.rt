//! The plan of the search for a frame.

ghost use Rattle.std.specs.Prelude.{◌≡◌, ◌+◌, ◌^◌, ◌<◌, length};
ghost use Rattle.nm_missing_fault.specs.declared.search.SearchStage.TheVariants.{New};
ghost use Rattle.nm_missing_fault.specs.Searching.{frame_found};
ghost use Rattle.nm_missing_fault.specs.SearchTasks.{search_of, IsNewSearch};
ghost use Rattle.nm_missing_fault.specs.SearchStages.{search_piece_made, search_piece_of, IsNewSearchPiece, HasTier, stage_from};

use nm_base::Geometry;
use nm_compose::{Composite, Next, Or, Plan};
use nm_event::{Action, Reply, Step};
use nm_obtain::{Obtain, ObtainRun, Obtained};
use nm_part::{Part, Piece};
use nm_policy::Watermarks;
use nm_pool::{PoolEnd, PoolTask};

/// What a search is made with.
#[derive(Clone, Copy, Debug, PartialEq, Eq)]
pub struct SearchMade {
    /// The page for which a frame is sought, on which the actor has an operation.
    pub page: u32,
}

/// How far a search has come.
#[derive(Clone, Copy, Debug, PartialEq, Eq)]
pub(crate) enum SearchStage {
    /// It has not begun.
    New,
    /// A frame of tier 0 is taken above its watermark `low`.
    TakingAboveLow,
    /// A frame of this slower tier is sought.
    Obtaining(u32),
    /// A frame of tier 0 is taken, down to the last one.
    TakingLast,
}

/// A piece of a search: a task on the free frames, or a frame of a tier is sought.
pub type SearchPiece<'a> = Or<PoolTask, ObtainRun<'a>>;

/// How a piece of a search ends.
pub type SearchPieceEnd = Or<PoolEnd, Obtained>;

/// The plan of a search.
#[derive(Clone, Copy)]
pub struct FrameSearch<'a> {
    geometry: &'a Geometry,
    made: SearchMade,
    stage: SearchStage,
}

/// The frame that a piece had, if it had one.
fn frame_found(end: SearchPieceEnd) -> Option<u32>
    ensures { result ≡ frame_found end }
{
    match end {
        Or::This(end) => match end {
            PoolEnd::Got(frame) => Some(frame),
            PoolEnd::AtFloor(_) | PoolEnd::Level(_) | PoolEnd::Back => None,
        },
        Or::Other(end) => match end {
            Obtained::Got(frame) => Some(frame),
            Obtained::AtFloor(_) => None,
        },
    }
}

impl<'a> FrameSearch<'a> {
    /// The search for a frame for a page. Where it begins the view holds no turn, and has no operation but on the page.
    pub fn new(geometry: &'a Geometry, page: u32) -> FrameSearch<'a>
        ensures geometry { result.geometry.now ≡ geometry.now }
        ensures made { result.made ≡ record { page = page } }
        ensures new { result.stage ≡ New }
    {
        FrameSearch {
            geometry,
            made: SearchMade { page },
            stage: SearchStage::New,
        }
    }

    /// The stage that seeks a frame of this tier, or the last one where there is no such tier.
    fn stage_from(&self, tier: u32) -> SearchStage
        ensures { result ≡ stage_from self.now.geometry.now tier }
    {
        let g = self.geometry;
        if (tier as usize) < g.tiers.len() {
            SearchStage::Obtaining(tier)
        } else {
            SearchStage::TakingLast
        }
    }

    /// Comes to a stage, and gives its piece.
    fn go(&mut self, stage: SearchStage) -> SearchPiece<'a>
        requires { HasTier self.old.geometry.now stage }
        ensures stage { self.new ≡ record self.old { stage = stage } }
        ensures made { search_piece_made result ≡ search_piece_of self.old.geometry.now self.old.made stage }
        ensures new { IsNewSearchPiece result }
    {
        self.stage = stage;
        let g = self.geometry;
        match stage {
            SearchStage::New | SearchStage::TakingAboveLow => {
                Or::This(PoolTask::take(g, 0, Watermarks::of(g.tiers[0]).low))
            }
            SearchStage::Obtaining(tier) => {
                Or::Other(ObtainRun::new(Obtain::new(g, self.made.page, tier)))
            }
            SearchStage::TakingLast => Or::This(PoolTask::take(g, 0, 0)),
        }
    }

    /// Seeks a frame of this tier, or takes one of the last frames of tier 0 where there is no such tier.
    fn go_from(&mut self, tier: u32) -> SearchPiece<'a>
        ensures stage { self.new ≡ record self.old { stage = stage_from self.old.geometry.now tier } }
        ensures made { search_piece_made result ≡ search_piece_of self.old.geometry.now self.old.made (stage_from self.old.geometry.now tier) }
        ensures new { IsNewSearchPiece result }
    {
        let stage = self.stage_from(tier);
        self.go(stage)
    }
}

impl<'a> Plan<SearchPiece<'a>> for FrameSearch<'a> {
    type Outcome = u32;

    type Made = (Geometry, SearchMade);

    ghost use Rattle.std.specs.Prelude.{◌≡◌};
    ghost use Rattle.nm_prepare.specs.Placing.{IsPlanPlaced};
    ghost use Rattle.nm_missing_fault.specs.declared.search.SearchStage.TheVariants.{New};
    ghost use Rattle.nm_missing_fault.specs.Searching.{IsSearch};
    ghost use Rattle.nm_missing_fault.specs.Found.{MaySearch, IsFound};
    ghost use Rattle.nm_missing_fault.specs.SearchStages.{search_piece_of, search_left, KnownInSearch};

    ghost made = { λ s. record { 0 = s.geometry.now; 1 = s.made } };

    ghost is_new = { λ s. s.stage ≡ New };

    ghost may_begin = { λ made g view. MaySearch made.0 made.1 g view };

    ghost shape = { λ made g own frame. IsSearch made.1 g own frame };

    ghost leaves = { λ made g view frame left. IsFound made.1 g view frame left };

    ghost knows = { λ s. IsPlanPlaced search_piece_of KnownInSearch s.geometry.now s.made s.stage };

    ghost left = { λ s. search_left s.made s.stage };

    ghost ended = { λ s g frame. Unit {0} };

    fn begin(&mut self) -> SearchPiece<'a> {
        self.go(SearchStage::TakingAboveLow)
    }

    fn go_on(
        &mut self,
        _piece: &SearchPiece<'a>,
        end: SearchPieceEnd,
    ) -> Next<SearchPiece<'a>, u32> {
        if let Some(frame) = frame_found(end) {
            return Next::Over(frame);
        }
        match self.stage {
            SearchStage::New => unreachable!(),
            SearchStage::TakingAboveLow => Next::Run(self.go_from(1)),
            SearchStage::Obtaining(tier) => Next::Run(self.go_from(tier + 1)),
            SearchStage::TakingLast => Next::Run(self.go(SearchStage::TakingAboveLow)),
        }
    }
}

/// The search for a frame for a page that has none, inside an operation on that page, as a part of an actor's work.
#[derive(Drop)]
pub struct SearchTask<'a> {
    run: Composite<FrameSearch<'a>, SearchPiece<'a>>,
}

impl<'a> SearchTask<'a> {
    /// The search for a frame for a page. Where it begins the view holds no turn, and has no operation but on the page.
    pub fn new(geometry: &'a Geometry, page: u32) -> SearchTask<'a>
        ensures made { search_of result ≡ record { 0 = geometry.now; 1 = record { page = page } } }
        ensures new { IsNewSearch result }
    {
        SearchTask {
            run: Composite::new(FrameSearch::new(geometry, page)),
        }
    }
}

impl<'a> Part for SearchTask<'a> {
    type Outcome = u32;

    type Made = (Geometry, SearchMade);

    ghost use Rattle.nm_part.specs.Parts.{NothingTold};
    ghost use Rattle.nm_missing_fault.specs.Searching.{IsSearch};
    ghost use Rattle.nm_missing_fault.specs.Found.{MaySearch, IsFound};
    ghost use Rattle.nm_missing_fault.specs.SearchTasks.{search_of, IsNewSearch, AwaitsSearch};

    ghost made = { search_of };

    ghost is_new = { IsNewSearch };

    ghost may_begin = { λ made g view. MaySearch made.0 made.1 g view };

    ghost shape = { λ made g own frame. IsSearch made.1 g own frame };

    ghost leaves = { λ made g view frame left. IsFound made.1 g view frame left };

    ghost awaits = { AwaitsSearch };

    ghost ended = { λ t. NothingTold };

    fn first(&mut self) -> Step<u32> {
        self.run.first()
    }

    fn after(&mut self, reply: Reply) -> Step<u32> {
        self.run.after(reply)
    }
}

impl<'a> Piece for SearchTask<'a> {
    fn start(&mut self) -> Action {
        self.run.start()
    }
}
