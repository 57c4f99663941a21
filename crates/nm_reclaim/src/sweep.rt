//! The visits of Reclaim, one page after the other.

ghost use Rattle.std.specs.Prelude.{◌≡◌, ◌≢◌, ◌<◌, ◌+◌, ◌^◌};
ghost use Rattle.nm_base.specs.Geometry.{frame_count};
ghost use Rattle.nm_base.specs.ShadowWord.{shadow_frame};
ghost use Rattle.nm_reclaim.specs.Reclaims.{is_skipped, is_shadow_in};
ghost use Rattle.nm_reclaim.specs.Sweeping.{new_place, next_visited, sweep_piece_made, sweep_piece_at, IsNewSweepPiece, HasFrame, IsNextVisit};

use nm_base::Geometry;
use nm_base::shadow_word::shadow_frame;
use nm_compose::{Act, Next, Or, Plan};
use nm_event::{Action, Cell, Reply};
use nm_pool::{PoolEnd, PoolTask};

/// What Reclaim is made with.
#[derive(Clone, Copy, Debug, PartialEq, Eq)]
pub struct ReclaimMade {
    /// The tier whose shadows are discarded.
    pub tier: u32,
    /// Up to ten times so many are freed.
    pub want: u32,
    /// The page that is not visited, on which the actor has an operation.
    pub skip: Option<u32>,
}

/// What a sweep is made with: it begins at a page that is there to visit.
#[derive(Clone, Copy, Debug, PartialEq, Eq)]
pub struct SweepMade {
    /// What Reclaim is made with.
    pub asked: ReclaimMade,
    /// The first page.
    pub first: u32,
}

/// What is done at a page.
#[derive(Clone, Copy, Debug, PartialEq, Eq)]
pub(crate) enum Stage {
    /// The sweep has not begun.
    New,
    /// The page is locked.
    Locking,
    /// The home of the page is read.
    ReadingHome,
    /// The shadow word of this master is read.
    ReadingShadow(u32),
    /// This shadow is taken away from this master.
    Discarding { master: u32, shadow: u32 },
    /// The page is unlocked, and this frame will be put back.
    Freeing(u32),
    /// This frame is put back.
    PuttingBack(u32),
    /// The page is unlocked as it is.
    Unlocking,
}

/// How far a sweep has come: the page that is visited, how many shadows were freed before, and what is done at the page.
#[derive(Clone, Copy, Debug, PartialEq, Eq)]
pub(crate) struct Place {
    page: u32,
    freed: u32,
    stage: Stage,
}

/// A piece of a sweep: a single action, or a frame put back.
pub type SweepPiece = Or<Act, PoolTask>;

/// The plan of Reclaim, where there is a page to visit.
#[derive(Clone, Copy)]
pub struct Sweep<'a> {
    geometry: &'a Geometry,
    made: SweepMade,
    place: Place,
}

impl<'a> Sweep<'a> {
    /// The sweep from its first page on.
    pub fn new(geometry: &'a Geometry, made: SweepMade) -> Sweep<'a>
        ensures geometry { result.geometry.now ≡ geometry.now }
        ensures made { result.made ≡ made }
        ensures new { result.place ≡ new_place made }
    {
        Sweep {
            geometry,
            made,
            place: Place {
                page: made.first,
                freed: 0,
                stage: Stage::New,
            },
        }
    }

    /// How many shadows were freed so far.
    pub(crate) fn freed(&self) -> u32
        ensures { result ≡ self.now.place.freed }
    {
        self.place.freed
    }

    /// Comes to a stage at its page, and gives its piece.
    fn go(&mut self, stage: Stage) -> SweepPiece
        requires { HasFrame self.old.geometry.now stage }
        ensures stage { self.new ≡ record self.old { place = record self.old.place { stage = stage } } }
        ensures made { sweep_piece_made result ≡ sweep_piece_at self.old.geometry.now self.new.place }
        ensures new { IsNewSweepPiece result }
    {
        self.place.stage = stage;
        let page = self.place.page;
        let action = match stage {
            Stage::New | Stage::Locking => Action::Lock { page },
            Stage::ReadingHome => Action::Read {
                page,
                cell: Cell::Home(page),
            },
            Stage::ReadingShadow(master) => Action::Read {
                page,
                cell: Cell::Shadow(master),
            },
            Stage::Discarding { master, .. } => Action::SetShadow {
                page,
                master,
                shadow: None,
            },
            Stage::Freeing(_) | Stage::Unlocking => Action::Unlock { page },
            Stage::PuttingBack(shadow) => return Or::Other(PoolTask::give_back(
                self.geometry,
                shadow,
            )),
        };
        Or::This(Act::new(action))
    }

    /// Visits the next page that is at least `page`, with so many freed before. It is over where enough are freed or there is
    /// no such page.
    fn visit_from(&mut self, page: u32, freed: u32) -> Next<SweepPiece, u32>
        requires { page + 1 < 2 ^ 32 }
        ensures { IsNextVisit page freed self.old self.new result }
    {
        self.place.freed = freed;
        match next_visited(self.geometry, self.made.asked, page, freed) {
            Some(page) => {
                self.place.page = page;
                Next::Run(self.go(Stage::Locking))
            }
            None => Next::Over(freed),
        }
    }
}

/// The next page that is visited, from this one on; none where enough are freed or there is none.
pub(crate) fn next_visited(
    geometry: &Geometry,
    made: ReclaimMade,
    page: u32,
    freed: u32,
) -> Option<u32>
    requires { page + 1 < 2 ^ 32 }
    ensures { result ≡ next_visited geometry.now made page freed }
{
    let next = if is_skipped(made.skip, page) {
        page + 1
    } else {
        page
    };
    if u64::from(freed) < 10 * u64::from(made.want) && next < geometry.pages() {
        Some(next)
    } else {
        None
    }
}

/// Whether a page is the one that is skipped.
fn is_skipped(skip: Option<u32>, page: u32) -> bool
    ensures { result ≡ is_skipped skip page }
{
    match skip {
        Some(skip) => skip == page,
        None => false,
    }
}

/// Whether a shadow word names a shadow in the tier.
fn is_shadow_in(geometry: &Geometry, tier: u32, word: u64) -> bool
    requires { word ≢ 0 → shadow_frame word < frame_count geometry.now }
    ensures { result ≡ is_shadow_in geometry.now tier word }
{
    word != 0 && geometry.tier_of(shadow_frame(word)) == tier
}

impl<'a> Plan<SweepPiece> for Sweep<'a> {
    type Outcome = u32;

    type Made = (Geometry, SweepMade);

    ghost use Rattle.std.specs.Prelude.{◌≡◌};
    ghost use Rattle.nm_compose.specs.Stages.{IsPieceAt};
    ghost use Rattle.nm_reclaim.specs.Sweeping.{sweep_made, MaySweep, IsSweep, SweepLeaves, sweep_stages, sweep_left, new_place};

    ghost made = { λ s. sweep_made s.geometry.now s.made };

    ghost is_new = { λ s. s.place ≡ new_place s.made };

    ghost may_begin = { MaySweep };

    ghost shape = { IsSweep };

    ghost leaves = { SweepLeaves };

    ghost knows = { λ s. IsPieceAt sweep_stages (sweep_made s.geometry.now s.made) s.place };

    ghost left = { λ s. sweep_left (sweep_made s.geometry.now s.made) s.place };

    ghost ended = { λ s g freed. s.place.freed ≡ freed };

    fn begin(&mut self) -> SweepPiece {
        self.go(Stage::Locking)
    }

    fn go_on(&mut self, _piece: &SweepPiece, end: Or<Reply, PoolEnd>) -> Next<SweepPiece, u32> {
        match end {
            Or::Other(_) => {
                let Stage::PuttingBack(_) = self.place.stage else {
                    unreachable!()
                };
                self.visit_from(self.place.page + 1, self.place.freed + 1)
            }
            Or::This(reply) => match self.place.stage {
                Stage::New | Stage::PuttingBack(_) => unreachable!(),
                Stage::Locking => match reply {
                    Reply::Done => Next::Run(self.go(Stage::ReadingHome)),
                    Reply::Busy(_) => self.visit_from(self.place.page + 1, self.place.freed),
                    Reply::Word(_) | Reply::Lost(_) => unreachable!(),
                },
                Stage::ReadingHome => {
                    let Reply::Word(word) = reply else {
                        unreachable!()
                    };
                    if word == 0 {
                        return Next::Run(self.go(Stage::Unlocking));
                    }
                    Next::Run(self.go(Stage::ReadingShadow((word - 1) as u32)))
                }
                Stage::ReadingShadow(master) => {
                    let Reply::Word(word) = reply else {
                        unreachable!()
                    };
                    if !is_shadow_in(self.geometry, self.made.asked.tier, word) {
                        return Next::Run(self.go(Stage::Unlocking));
                    }
                    let shadow = shadow_frame(word);
                    Next::Run(self.go(Stage::Discarding { master, shadow }))
                }
                Stage::Discarding { shadow, .. } => Next::Run(self.go(Stage::Freeing(shadow))),
                Stage::Freeing(shadow) => Next::Run(self.go(Stage::PuttingBack(shadow))),
                Stage::Unlocking => self.visit_from(self.place.page + 1, self.place.freed),
            },
        }
    }
}
