//! The pieces of the reclaimer's work.

ghost use Rattle.std.specs.Prelude.{◌≡◌, ◌≢◌, ◌<◌, [], length};
ghost use Rattle.nm_vpages.specs.VPages.{vpages_of};
ghost use Rattle.nm_kswap.specs.Works.{demote_part_made, IsNewDemotePart, reclaimer_work_made, IsNewReclaimerWork, made_asking, made_level, made_inspect, made_demote};

use nm_base::Geometry;
use nm_compose::Or;
use nm_demote::{DemoteMade, DemoteOver};
use nm_demote_run::DemoteRun;
use nm_drawing::{Drawing, Drawn};
use nm_ended::AskRun;
use nm_event::{Action, Reply, Spent, Step};
use nm_inspect::{InspectMade, InspectRun, Inspected};
use nm_part::{Part, Piece};
use nm_pool::{PoolEnd, PoolMade, PoolTask};
use nm_transfer::TakenWords;

/// The demotion of a page, as a part that tells what it has drawn.
pub type DemotePart<'a> = Drawing<DemoteRun<'a>>;

/// A piece of the reclaimer's work: all processors are asked whether they have ended, the free frames of a tier are counted, a
/// page is inspected, or it is demoted. All that is said of it is said by the piece of its kind.
#[derive(Drop)]
pub struct ReclaimerPiece<'a> {
    work: Or<AskRun, Or<PoolTask, Or<InspectRun<'a>, DemotePart<'a>>>>,
}

/// How a piece of the reclaimer's work ends.
pub type ReclaimerEnd = Or<bool, Or<PoolEnd, Or<Inspected, Drawn<DemoteOver>>>>;

/// What a piece of the reclaimer's work is made with.
pub type ReclaimerMade = Or<
    u32,
    Or<PoolMade, Or<(Geometry, InspectMade), ((Geometry, DemoteMade), Spent)>>,
>;

impl<'a> Part for ReclaimerPiece<'a> {
    type Outcome = ReclaimerEnd;

    type Made = ReclaimerMade;

    ghost use Rattle.nm_kswap.specs.Works.{reclaimer_work_made, IsNewReclaimerWork, MayReclaimerWork, IsReclaimerWork, ReclaimerWorkLeaves, AwaitsReclaimerWork, ReclaimerWorkEnded};

    ghost made = { reclaimer_work_made };

    ghost is_new = { IsNewReclaimerWork };

    ghost may_begin = { MayReclaimerWork };

    ghost shape = { IsReclaimerWork };

    ghost leaves = { ReclaimerWorkLeaves };

    ghost awaits = { AwaitsReclaimerWork ⟦<DemoteRun<'a> as Part>⟧.awaits };

    ghost ended = { ReclaimerWorkEnded };

    fn first(&mut self) -> Step<ReclaimerEnd> {
        Step::Do(self.start())
    }

    fn after(&mut self, reply: Reply) -> Step<ReclaimerEnd> {
        self.work.after(reply)
    }
}

impl<'a> Piece for ReclaimerPiece<'a> {
    fn start(&mut self) -> Action {
        self.work.start()
    }
}

/// The question to the processors of a geometry. Where it begins the view has no open operation.
pub(crate) fn ask_work<'a>(g: &Geometry) -> ReclaimerPiece<'a>
    ensures made { reclaimer_work_made result ≡ made_asking g.now }
    ensures new { IsNewReclaimerWork result }
{
    ReclaimerPiece {
        work: Or::This(AskRun::new(g)),
    }
}

/// The count of a tier's free frames. Condition: the tier exists. Where it begins the view holds no turn.
pub(crate) fn level_work<'a>(g: &Geometry, tier: u32) -> ReclaimerPiece<'a>
    requires { tier < length g.now.tiers }
    ensures made { reclaimer_work_made result ≡ made_level g.now tier }
    ensures new { IsNewReclaimerWork result }
{
    ReclaimerPiece {
        work: Or::Other(Or::This(PoolTask::level(g, tier))),
    }
}

/// The inspection of a page by the demotion of a tier. Condition: the page has a virtual page. Where it begins the view has no
/// operation on the page.
pub(crate) fn inspect_work<'a>(g: &'a Geometry, page: u32, tier: u32) -> ReclaimerPiece<'a>
    requires { vpages_of g.now page ≢ [] }
    ensures made { reclaimer_work_made result ≡ made_inspect g.now page tier }
    ensures new { IsNewReclaimerWork result }
{
    let run = InspectRun::new(g, page, tier);
    ReclaimerPiece {
        work: Or::Other(Or::Other(Or::This(run))),
    }
}

/// The demotion of a page, by an actor that has drawn so much, as a part that tells what it has drawn.
fn demote_part<'a>(g: &'a Geometry, page: u32, spent: Spent, taken: TakenWords) -> DemotePart<'a>
    ensures made { demote_part_made result ≡ record { 0 = record { 0 = g.now; 1 = record { page = page; spent = spent } }; 1 = spent } }
    ensures new { IsNewDemotePart result }
{
    let run = DemoteRun::new(g, page, spent, taken);
    Drawing::new(run, spent)
}

/// The demotion of a page, by an actor that has drawn so much; `taken` gives the room for the words that are taken. Where it
/// begins the page is there, the view has no open operation and holds no turn, and `spent` is what the view has made.
pub(crate) fn demote_work<'a>(
    g: &'a Geometry,
    page: u32,
    spent: Spent,
    taken: TakenWords,
) -> ReclaimerPiece<'a>
    ensures made { reclaimer_work_made result ≡ made_demote g.now page spent }
    ensures new { IsNewReclaimerWork result }
{
    let part = demote_part(g, page, spent, taken);
    ReclaimerPiece {
        work: Or::Other(Or::Other(Or::Other(part))),
    }
}
