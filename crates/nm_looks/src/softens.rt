//! The accessed bit is taken from the table words of several virtual pages.

ghost use Rattle.std.specs.Prelude.{◌≡◌, ◌≢◌, [], Some};
ghost use Rattle.nm_looks.specs.Softening.{soften_at, IsNewSoftens};

use nm_compose::{Act, Next, Plan};
use nm_event::{Action, Bit, Reply};
use nm_vpages::VPageSet;

/// Takes the accessed bit from the table word of each of several virtual pages, in ascending order.
#[derive(Debug, Drop)]
pub struct Softens {
    pages: VPageSet,
    at: Option<u32>,
}

impl Softens {
    /// The Softens of these virtual pages. Condition: there is one at least. They may begin in every view, with an operation
    /// on their page or without one. Where they begin, the geometry has these virtual pages.
    pub fn new(pages: VPageSet) -> Softens
        requires { pages ≢ [] }
        ensures made { result.pages ≡ pages }
        ensures new { IsNewSoftens result }
    {
        Softens { pages, at: None }
    }

    /// Comes to a virtual page, and gives the action there.
    fn soften(&mut self, vpage: u32) -> Act
        ensures place { self.new ≡ record self.old { at = Some vpage } }
        ensures act { result.action ≡ soften_at vpage }
    {
        self.at = Some(vpage);
        Act::new(Action::Soften {
            vpage,
            bit: Bit::Accessed,
        })
    }
}

impl Plan<Act> for Softens {
    type Outcome = ();

    type Made = VPageSet;

    ghost use Rattle.std.specs.Prelude.{◌≡◌};
    ghost use Rattle.nm_compose.specs.Stages.{IsPieceAt};
    ghost use Rattle.nm_looks.specs.Softening.{IsSoftens, MaySoften, IsNewSoftens, softens_left, softens_stages};

    ghost made = { λ p. p.pages };

    ghost is_new = { IsNewSoftens };

    ghost may_begin = { MaySoften };

    ghost shape = { IsSoftens };

    ghost leaves = { λ pages g view end left. left ≡ view };

    ghost knows = { λ p. IsPieceAt softens_stages p.pages p.at };

    ghost left = { λ p. softens_left p.pages p.at };

    ghost ended = { λ p g end. Unit {0} };

    fn begin(&mut self) -> Act {
        let Some(vpage) = self.pages.next(0) else {
            unreachable!()
        };
        self.soften(vpage)
    }

    fn go_on(&mut self, _piece: &Act, _end: Reply) -> Next<Act, ()> {
        let Some(vpage) = self.at else { unreachable!() };
        match self.pages.next(vpage + 1) {
            Some(next) => Next::Run(self.soften(next)),
            None => Next::Over(()),
        }
    }
}
