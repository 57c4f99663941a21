//! A page is copied into an owned frame, word by word.

ghost use Rattle.std.specs.Prelude.{◌≡◌, ◌+◌, ◌<◌, ◌^◌};
ghost use Rattle.nm_copying.specs.declared.copies.Stage.TheVariants.{New};
ghost use Rattle.nm_copying.specs.Copying.{copies_action};

use nm_base::Geometry;
use nm_compose::{Act, Next, Plan};
use nm_event::{Action, Reply};

/// How far a copy has come.
#[derive(Clone, Copy, Debug, PartialEq, Eq)]
pub(crate) enum Stage {
    /// It has not begun.
    New,
    /// It loads the word of this index.
    Loading(u32),
    /// It stores the word that it has loaded at this index.
    Storing { index: u32, word: u64 },
}

/// What a copy is made with.
#[derive(Clone, Copy, Debug, PartialEq, Eq)]
pub struct CopiesMade {
    /// The page.
    pub page: u32,
    /// The frame to which its words are copied.
    pub frame: u32,
    /// How many words a page has.
    pub words: u32,
}

/// Copies all words of a page into an owned frame: for each index, in order, it loads the word from the page's home and
/// stores it in the frame.
#[derive(Clone, Copy, Debug, PartialEq, Eq)]
pub struct Copies {
    made: CopiesMade,
    stage: Stage,
}

impl Copies {
    /// The copy of a page into a frame. Where it begins the page and the frame are there; the view owns the frame, and
    /// nothing is known of its words; and it has an operation on the page whose flush ended, of which no word is copied:
    /// in phase Cleared, or with the page out of the table and no new home set.
    pub fn new(g: &Geometry, page: u32, frame: u32) -> Copies
        ensures made { result.made ≡ record { page = page; frame = frame; words = g.now.words } }
        ensures new { result.stage ≡ New }
    {
        Copies {
            made: CopiesMade {
                page,
                frame,
                words: g.words,
            },
            stage: Stage::New,
        }
    }

    /// What it was made with.
    pub fn made(&self) -> CopiesMade
        ensures { result ≡ self.now.made }
    {
        self.made
    }

    /// Comes to a stage, and gives its action.
    fn go(&mut self, stage: Stage) -> Act
        ensures stage { self.new ≡ record self.old { stage = stage } }
        ensures act { result.action ≡ copies_action self.old.made stage }
    {
        self.stage = stage;
        Act::new(match stage {
            Stage::New => Action::CopyLoad {
                page: self.made.page,
                index: 0,
            },
            Stage::Loading(index) => Action::CopyLoad {
                page: self.made.page,
                index,
            },
            Stage::Storing { index, word } => Action::CopyStore {
                page: Some(self.made.page),
                frame: self.made.frame,
                index,
                value: word,
            },
        })
    }
}

impl Plan<Act> for Copies {
    type Outcome = ();

    type Made = CopiesMade;

    ghost use Rattle.std.specs.Prelude.{◌≡◌};
    ghost use Rattle.nm_copying.specs.declared.copies.Stage.TheVariants.{New};
    ghost use Rattle.nm_compose.specs.Stages.{IsPieceAt};
    ghost use Rattle.nm_copying.specs.Copying.{MayCopies, IsCopying, IsCopied, copies_stages, copies_left};

    ghost made = { λ s. s.made };

    ghost is_new = { λ s. s.stage ≡ New };

    ghost may_begin = { MayCopies };

    ghost shape = { IsCopying };

    ghost leaves = { λ made g view end left. IsCopied made view left };

    ghost knows = { λ s. IsPieceAt copies_stages s.made s.stage };

    ghost left = { λ s. copies_left s.made s.stage };

    ghost ended = { λ s g end. Unit {0} };

    fn begin(&mut self) -> Act {
        self.go(Stage::Loading(0))
    }

    fn go_on(&mut self, _piece: &Act, end: Reply) -> Next<Act, ()> {
        match self.stage {
            Stage::New => unreachable!(),
            Stage::Loading(index) => {
                let Reply::Word(word) = end else {
                    unreachable!()
                };
                Next::Run(self.go(Stage::Storing { index, word }))
            }
            Stage::Storing { index, .. } => if index + 1 < self.made.words {
                Next::Run(self.go(Stage::Loading(index + 1)))
            } else {
                Next::Over(())
            },
        }
    }
}
