//! Each of several virtual pages is looked at, and what their words show is summed up.

ghost use Rattle.std.specs.Prelude.{◌≡◌, ◌≢◌, ◌<◌, [], Some, None};
ghost use Rattle.nm_base.specs.PageWord.{frame_of};
ghost use Rattle.nm_base.specs.Ranges.{IsFrame};
ghost use Rattle.nm_vpages.specs.VPages.{most_vpages, AreBelow};
ghost use Rattle.nm_looks.specs.Seeing.{tier_looks_made, look_at, nothing_seen, is_in_tier, is_outside, seen_with_word};
ghost use Rattle.nm_looks.specs.Looking.{IsNewLooks};

use crate::seen::{Seen, is_accessed_word, is_hot_word, push_where};
use nm_base::Geometry;
use nm_base::table_word::frame_of;
use nm_compose::{Act, Next, Plan};
use nm_event::{Action, Reply};
use nm_vpages::VPageSet;

/// What Looks are made with.
#[derive(Debug, Drop)]
pub struct LooksMade {
    /// The backing page.
    pub page: u32,
    /// The tier that is asked for.
    pub tier: u32,
    /// The virtual pages that are looked at.
    pub pages: VPageSet,
}

/// Looks at each of several virtual pages of a backing page, in ascending order. The outcome is what their words show.
#[derive(Debug, Drop)]
pub struct Looks<'a> {
    geometry: &'a Geometry,
    made: LooksMade,
    at: Option<u32>,
    seen: Seen,
}

impl<'a> Looks<'a> {
    /// Looks at these virtual pages of a page, which ask whether their words map frames of this tier. Condition: there is
    /// one virtual page at least (`VPageSet::is_empty` tells). They may begin in every view of an actor of this geometry, with
    /// an operation on the page or without one. Where they begin, they are virtual pages of that page.
    pub fn new(g: &'a Geometry, page: u32, tier: u32, pages: VPageSet) -> Looks<'a>
        requires { pages ≢ [] }
        ensures geometry { result.geometry.now ≡ g.now }
        ensures made { result.made ≡ tier_looks_made page tier pages }
        ensures new { IsNewLooks result }
    {
        Looks {
            geometry: g,
            made: LooksMade { page, tier, pages },
            at: None,
            seen: Seen::nothing(),
        }
    }

    /// Comes to a virtual page, and gives the action there.
    fn look(&mut self, vpage: u32) -> Act
        ensures place { self.new ≡ record self.old { at = Some vpage } }
        ensures act { result.action ≡ look_at vpage }
    {
        self.at = Some(vpage);
        Act::new(Action::Look { vpage })
    }

    /// Whether a word maps a frame of the tier that is asked for.
    fn is_in_tier(&self, word: u64) -> bool
        requires { word ≢ 0 → IsFrame self.now.geometry.now (frame_of word) }
        ensures { result ≡ is_in_tier self.now.geometry.now self.now.made.tier word }
    {
        word != 0 && self.geometry.tier_of(frame_of(word)) == self.made.tier
    }

    /// Whether a word maps a frame of another tier.
    fn is_outside(&self, word: u64) -> bool
        requires { word ≢ 0 → IsFrame self.now.geometry.now (frame_of word) }
        ensures { result ≡ is_outside self.now.geometry.now self.now.made.tier word }
    {
        word != 0 && self.geometry.tier_of(frame_of(word)) != self.made.tier
    }

    /// Notes what the word of a virtual page shows.
    fn note(&mut self, vpage: u32, word: u64)
        requires small { vpage < most_vpages }
        requires mapped { AreBelow vpage self.old.seen.mapped }
        requires outside { AreBelow vpage self.old.seen.outside }
        requires frame { word ≢ 0 → IsFrame self.old.geometry.now (frame_of word) }
        ensures { self.new ≡ record self.old { seen = seen_with_word self.old.geometry.now self.old.made.tier vpage word self.old.seen } }
    {
        let inside = self.is_in_tier(word);
        let outside = self.is_outside(word);
        push_where(&mut self.seen.mapped, vpage, word != 0);
        push_where(&mut self.seen.outside, vpage, outside);
        self.seen.inside = self.seen.inside || inside;
        self.seen.hot = self.seen.hot || is_hot_word(word);
        self.seen.accessed = self.seen.accessed || is_accessed_word(word);
    }
}

impl<'a> Plan<Act> for Looks<'a> {
    type Outcome = Seen;

    type Made = (Geometry, LooksMade);

    ghost use Rattle.nm_compose.specs.Stages.{IsPieceAt};
    ghost use Rattle.nm_looks.specs.Seeing.{IsLooks, MayLooks, HasLooked};
    ghost use Rattle.nm_looks.specs.Looking.{looks_place, IsNewLooks, looks_left, looks_stages};

    ghost made = { λ p. record { 0 = p.geometry.now; 1 = p.made } };

    ghost is_new = { IsNewLooks };

    ghost may_begin = { MayLooks };

    ghost shape = { IsLooks };

    ghost leaves = { λ made g view seen left. HasLooked made view seen left };

    ghost knows = { λ p. IsPieceAt looks_stages (record { 0 = p.geometry.now; 1 = p.made }) (looks_place p) };

    ghost left = { λ p. looks_left (record { 0 = p.geometry.now; 1 = p.made }) (looks_place p) };

    ghost ended = { λ p g seen. Unit {0} };

    fn begin(&mut self) -> Act {
        let Some(vpage) = self.made.pages.next(0) else {
            unreachable!()
        };
        self.look(vpage)
    }

    fn go_on(&mut self, _piece: &Act, end: Reply) -> Next<Act, Seen> {
        let Some(vpage) = self.at else { unreachable!() };
        let Reply::Word(word) = end else {
            unreachable!()
        };
        self.note(vpage, word);
        match self.made.pages.next(vpage + 1) {
            Some(next) => Next::Run(self.look(next)),
            None => Next::Over(self.seen.copy()),
        }
    }
}
