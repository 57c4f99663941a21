//! What is done at each of several virtual pages of a backing page.

ghost use Rattle.std.specs.Prelude.{◌≡◌, ◌≢◌, ◌<◌, [], Some};
ghost use Rattle.nm_vpages.specs.VPages.{vpages_of, most_vpages, AreBelow};
ghost use Rattle.nm_mappings.specs.Visits.{looks_made, arms_made, raises_made, visit_action, found_with};
ghost use Rattle.nm_mappings.specs.Visiting.{IsNewVisits};

use nm_compose::{Act, Next, Plan};
use nm_event::{Action, Reply};
use nm_vpages::VPageSet;

/// What is done at a virtual page.
#[derive(Clone, Copy, Debug, PartialEq, Eq)]
pub enum Visit {
    /// Its table word is looked at.
    Look,
    /// Its table word, which is not 0, is given the hint.
    Arm,
    /// It is raised.
    Raise,
}

/// What visits are made with.
#[derive(Debug, Drop)]
pub struct VisitsMade {
    /// What is done.
    pub visit: Visit,
    /// The backing page.
    pub page: u32,
    /// At which of its virtual pages.
    pub pages: VPageSet,
}

/// Does the same at each of several virtual pages of a backing page, in ascending order. The outcome are those for which a
/// word other than 0 was told.
#[derive(Debug, Drop)]
pub struct VisitPlan {
    made: VisitsMade,
    at: Option<u32>,
    found: VPageSet,
}

impl VisitPlan {
    /// Looks at these virtual pages of a page. Condition: there is one at least. Where they begin, they are virtual pages
    /// of that page.
    pub fn looks(page: u32, pages: VPageSet) -> VisitPlan
        requires { pages ≢ [] }
        ensures made { result.made ≡ looks_made page pages }
        ensures new { IsNewVisits result }
    {
        VisitPlan::of(Visit::Look, page, pages)
    }

    /// Arms these virtual pages of a page. Condition: there is one at least. Where they begin, they are virtual pages of
    /// that page, and the view's operation on the page has looked at each as not 0 and has not taken it.
    pub fn arms(page: u32, pages: VPageSet) -> VisitPlan
        requires { pages ≢ [] }
        ensures made { result.made ≡ arms_made page pages }
        ensures new { IsNewVisits result }
    {
        VisitPlan::of(Visit::Arm, page, pages)
    }

    /// Raises these virtual pages of a page. Condition: there is one at least. Where they begin, they are virtual pages of
    /// that page, each wet in the view's operation on the page, and so many raises are left.
    pub fn raises(page: u32, pages: VPageSet) -> VisitPlan
        requires { pages ≢ [] }
        ensures made { result.made ≡ raises_made page pages }
        ensures new { IsNewVisits result }
    {
        VisitPlan::of(Visit::Raise, page, pages)
    }

    /// Does this at each of these virtual pages.
    fn of(visit: Visit, page: u32, pages: VPageSet) -> VisitPlan
        requires { pages ≢ [] }
        ensures made { result.made ≡ record { visit = visit; page = page; pages = pages } }
        ensures new { IsNewVisits result }
    {
        VisitPlan {
            made: VisitsMade { visit, page, pages },
            at: None,
            found: VPageSet::new(),
        }
    }

    /// Comes to a virtual page, and gives the action there.
    fn visit(&mut self, vpage: u32) -> Act
        ensures place { self.new ≡ record self.old { at = Some vpage } }
        ensures act { result.action ≡ visit_action self.old.made.visit vpage }
    {
        self.at = Some(vpage);
        Act::new(match self.made.visit {
            Visit::Look => Action::Look { vpage },
            Visit::Arm => Action::Arm { vpage },
            Visit::Raise => Action::Raise { vpage },
        })
    }

    /// Notes a virtual page for which this word was told.
    fn note(&mut self, vpage: u32, word: u64)
        requires small { vpage < most_vpages }
        requires last { AreBelow vpage self.old.found }
        ensures { self.new ≡ record self.old { found = found_with vpage word self.old.found } }
    {
        if word != 0 {
            self.found.push(vpage);
        }
    }
}

impl Plan<Act> for VisitPlan {
    type Outcome = VPageSet;

    type Made = VisitsMade;

    ghost use Rattle.nm_compose.specs.Stages.{IsPieceAt};
    ghost use Rattle.nm_mappings.specs.Visits.{IsVisits, MayVisit, IsVisited};
    ghost use Rattle.nm_mappings.specs.Visiting.{visit_place, IsNewVisits, visit_left, visit_stages};

    ghost made = { λ p. p.made };

    ghost is_new = { IsNewVisits };

    ghost may_begin = { MayVisit };

    ghost shape = { IsVisits };

    ghost leaves = { λ made g view found left. IsVisited made view found left };

    ghost knows = { λ p. IsPieceAt visit_stages p.made (visit_place p) };

    ghost left = { λ p. visit_left p.made (visit_place p) };

    ghost ended = { λ p g found. Unit {0} };

    fn begin(&mut self) -> Act {
        let Some(vpage) = self.made.pages.next(0) else {
            unreachable!()
        };
        self.visit(vpage)
    }

    fn go_on(&mut self, _piece: &Act, end: Reply) -> Next<Act, VPageSet> {
        let Some(vpage) = self.at else { unreachable!() };
        let Reply::Word(word) = end else {
            unreachable!()
        };
        self.note(vpage, word);
        match self.made.pages.next(vpage + 1) {
            Some(next) => Next::Run(self.visit(next)),
            None => Next::Over(self.found.copy()),
        }
    }
}
