//! The pieces of the migrator's work.

ghost use Rattle.std.specs.Prelude.{◌≡◌, ◌≢◌, []};
ghost use Rattle.nm_vpages.specs.VPages.{vpages_of};
ghost use Rattle.nm_migrator_work.specs.Works.{migrator_work_made, made_mark, made_looks, made_cool, made_batch, made_move, made_ask, IsNewMigratorWork};

use crate::work::MigratorWork;
use nm_base::Geometry;
use nm_batch::{BatchAsked, PieceList};
use nm_compose::Act;
use nm_cool::{CoolRun, Cooled};
use nm_drawing::Drawn;
use nm_ended::AskRun;
use nm_event::{Action, Reply, Spent, Step};
use nm_locked::{ChooseMade, LockedOver};
use nm_looks::{Looks, LooksMade, LooksRun, Seen};
use nm_migrator_parts::{BatchWork, MoveWork};
use nm_part::{Part, Piece};
use nm_transfer::TakenWords;
use nm_txn::TxnEnd;
use nm_vpages::VPageSet;

/// The tier that Looks of the migrator ask for.
const FASTEST: u32 = 0;

/// A piece of the migrator's work. All that is said of it is said by the piece of its kind.
#[derive(Drop)]
pub struct MigratorPiece<'a> {
    work: MigratorWork<Act, LooksRun<'a>, CoolRun<'a>, BatchWork<'a>, MoveWork<'a>, AskRun>,
}

/// How a piece of the migrator's work ends: with the reply to a Mark; with what Looks have seen; with how a candidate was
/// cooled; with how each piece of a batch ended, in order; with how a locked move is over; or with whether all processors have
/// ended.
pub type MigratorEnd = MigratorWork<
    Reply,
    Seen,
    Cooled,
    Drawn<PieceList<TxnEnd>>,
    Drawn<LockedOver>,
    bool,
>;

/// What a piece of the migrator's work is made with; those that draw, also with what was drawn before.
pub type MigratorMade = MigratorWork<
    Action,
    (Geometry, LooksMade),
    (Geometry, u32),
    ((Geometry, BatchAsked), Spent),
    ((Geometry, ChooseMade), Spent),
    u32,
>;

impl<'a> Part for MigratorPiece<'a> {
    type Outcome = MigratorEnd;

    type Made = MigratorMade;

    ghost use Rattle.nm_migrator_work.specs.Works.{migrator_work_made, IsNewMigratorWork, MayMigratorWork, IsMigratorWork, MigratorWorkLeaves, AwaitsMigratorWork, MigratorWorkEnded};

    ghost made = { migrator_work_made };

    ghost is_new = { IsNewMigratorWork };

    ghost may_begin = { MayMigratorWork };

    ghost shape = { IsMigratorWork };

    ghost leaves = { MigratorWorkLeaves };

    ghost awaits = { AwaitsMigratorWork };

    ghost ended = { MigratorWorkEnded };

    fn first(&mut self) -> Step<MigratorEnd> {
        Step::Do(self.start())
    }

    fn after(&mut self, reply: Reply) -> Step<MigratorEnd> {
        self.work.after(reply)
    }
}

impl<'a> Piece for MigratorPiece<'a> {
    fn start(&mut self) -> Action {
        self.work.start()
    }
}

/// The Mark of a page. Where it begins the page is there, and the mark makes a step that needs no operation.
pub fn mark_work<'a>(page: u32, from: u64, to: u64) -> MigratorPiece<'a>
    ensures made { migrator_work_made result ≡ made_mark page from to }
    ensures new { IsNewMigratorWork result }
{
    MigratorPiece {
        work: MigratorWork::Mark(Act::new(Action::Mark { page, from, to })),
    }
}

/// The Looks at the virtual pages of a page. Condition: there is one.
pub fn looks_work<'a>(g: &'a Geometry, page: u32) -> MigratorPiece<'a>
    requires { vpages_of g.now page ≢ [] }
    ensures made { migrator_work_made result ≡ made_looks g.now page }
    ensures new { IsNewMigratorWork result }
{
    let plan = Looks::new(g, page, FASTEST, VPageSet::of_page(g, page));
    MigratorPiece {
        work: MigratorWork::Looks(LooksRun::new(plan)),
    }
}

/// The cooling of a candidate. Where it begins the page is there, has a virtual page, and may be locked.
pub fn cool_work<'a>(g: &'a Geometry, page: u32) -> MigratorPiece<'a>
    ensures made { migrator_work_made result ≡ made_cool g.now page }
    ensures new { IsNewMigratorWork result }
{
    MigratorPiece {
        work: MigratorWork::Cool(CoolRun::new(g, page)),
    }
}

/// The batch of these pieces, pages each with a virtual page, by an actor that has drawn so much. Condition: there is a piece.
/// Where it begins the pages are there and no page stands twice, the view has no open operation and holds no turn, and `spent`
/// is what the view has made.
pub fn batch_work<'a>(
    g: &'a Geometry,
    pieces: PieceList<(u32, u32)>,
    spent: Spent,
) -> MigratorPiece<'a>
    requires { pieces ≢ [] }
    ensures made { migrator_work_made result ≡ made_batch g.now pieces spent }
    ensures new { IsNewMigratorWork result }
{
    MigratorPiece {
        work: MigratorWork::Batch(BatchWork::new(g, pieces, spent)),
    }
}

/// The locked move of a page of which so many virtual pages are to have table words, by an actor that has drawn so much;
/// `taken` gives the room for the words that are taken. Where it begins the page is there, the count is at least 1, the view
/// has no open operation and holds no turn, and `spent` is what the view has made.
pub fn move_work<'a>(
    g: &'a Geometry,
    page: u32,
    count: u32,
    spent: Spent,
    taken: TakenWords,
) -> MigratorPiece<'a>
    ensures made { migrator_work_made result ≡ made_move g.now page count spent }
    ensures new { IsNewMigratorWork result }
{
    MigratorPiece {
        work: MigratorWork::Move(MoveWork::new(g, page, count, spent, taken)),
    }
}

/// The question to the processors of a geometry. Where it begins the view has no open operation.
pub fn ask_work<'a>(g: &Geometry) -> MigratorPiece<'a>
    ensures made { migrator_work_made result ≡ made_ask g.now }
    ensures new { IsNewMigratorWork result }
{
    MigratorPiece {
        work: MigratorWork::Ask(AskRun::new(g)),
    }
}
