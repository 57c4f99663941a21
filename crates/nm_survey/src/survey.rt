//! A page is locked, each virtual page is looked at, and the page is unlocked.

ghost use Rattle.std.specs.Prelude.{◌≡◌, ◌+◌, ◌<◌, ◌^◌, length};
ghost use Rattle.nm_survey.specs.declared.survey.Stage.TheVariants.{New};
ghost use Rattle.nm_survey.specs.Surveys.{survey_action, count_with, looking_from};

use nm_base::Geometry;
use nm_compose::{Act, Next, Plan};
use nm_event::{Action, Reply};

/// How far a survey has come.
#[derive(Clone, Copy, Debug, PartialEq, Eq)]
pub(crate) enum Stage {
    /// It has not begun.
    New,
    /// It locks the page.
    Locking,
    /// It looks at this virtual page, after so many that are mapped.
    Looking { vpage: u32, mapped: u32 },
    /// It unlocks the page, after so many that are mapped.
    Unlocking(u32),
}

/// What a survey is made with.
#[derive(Clone, Copy, Debug, PartialEq, Eq)]
pub struct SurveyMade {
    /// The page.
    pub page: u32,
    /// How many virtual pages there are.
    pub vpages: u32,
}

/// Locks a page; where that is busy, it ends. It looks at each virtual page in order, and counts those that are mapped;
/// and unlocks the page.
#[derive(Clone, Copy, Debug, PartialEq, Eq)]
pub struct Survey {
    made: SurveyMade,
    stage: Stage,
}

/// The count after one word more.
fn count_with(word: u64, mapped: u32) -> u32
    requires { mapped + 1 < 2 ^ 32 }
    ensures { result ≡ count_with word mapped }
{
    if word == 0 { mapped } else { mapped + 1 }
}

impl Survey {
    /// The survey of a page. Where it begins the page is there, and may be locked.
    pub fn new(g: &Geometry, page: u32) -> Survey
        ensures made { result.made ≡ record { page = page; vpages = length g.now.vpages } }
        ensures new { result.stage ≡ New }
    {
        Survey {
            made: SurveyMade {
                page,
                vpages: g.vpages.len() as u32,
            },
            stage: Stage::New,
        }
    }

    /// What it was made with.
    pub fn made(&self) -> SurveyMade
        ensures { result ≡ self.now.made }
    {
        self.made
    }

    /// Comes to a stage, and gives its action.
    fn go(&mut self, stage: Stage) -> Act
        ensures stage { self.new ≡ record self.old { stage = stage } }
        ensures act { result.action ≡ survey_action self.old.made stage }
    {
        self.stage = stage;
        Act::new(match stage {
            Stage::New | Stage::Locking => Action::Lock {
                page: self.made.page,
            },
            Stage::Looking { vpage, .. } => Action::Look { vpage },
            Stage::Unlocking(_) => Action::Unlock {
                page: self.made.page,
            },
        })
    }

    /// SurveyLooks at this virtual page, if there is one, and else unlocks.
    fn look_from(&mut self, vpage: u32, mapped: u32) -> Act
        ensures stage { self.new ≡ record self.old { stage = looking_from self.old.made vpage mapped } }
        ensures act { result.action ≡ survey_action self.old.made (looking_from self.old.made vpage mapped) }
    {
        if vpage < self.made.vpages {
            self.go(Stage::Looking { vpage, mapped })
        } else {
            self.go(Stage::Unlocking(mapped))
        }
    }
}

impl Plan<Act> for Survey {
    type Outcome = Option<u32>;

    type Made = SurveyMade;

    ghost use Rattle.std.specs.Prelude.{◌≡◌};
    ghost use Rattle.nm_survey.specs.declared.survey.Stage.TheVariants.{New};
    ghost use Rattle.nm_compose.specs.Stages.{IsPieceAt};
    ghost use Rattle.nm_survey.specs.Surveys.{MaySurvey, IsSurvey, IsSurveyed, survey_stages, survey_left};

    ghost made = { λ s. s.made };

    ghost is_new = { λ s. s.stage ≡ New };

    ghost may_begin = { MaySurvey };

    ghost shape = { IsSurvey };

    ghost leaves = { λ made g view mapped left. IsSurveyed view left };

    ghost knows = { λ s. IsPieceAt survey_stages s.made s.stage };

    ghost left = { λ s. survey_left s.made s.stage };

    ghost ended = { λ s g mapped. Unit {0} };

    fn begin(&mut self) -> Act {
        self.go(Stage::Locking)
    }

    fn go_on(&mut self, _piece: &Act, end: Reply) -> Next<Act, Option<u32>> {
        match self.stage {
            Stage::New => unreachable!(),
            Stage::Locking => match end {
                Reply::Done => Next::Run(self.look_from(0, 0)),
                Reply::Busy(_) => Next::Over(None),
                Reply::Word(_) | Reply::Lost(_) => unreachable!(),
            },
            Stage::Looking { vpage, mapped } => {
                let Reply::Word(word) = end else {
                    unreachable!()
                };
                Next::Run(self.look_from(vpage + 1, count_with(word, mapped)))
            }
            Stage::Unlocking(mapped) => Next::Over(Some(mapped)),
        }
    }
}
