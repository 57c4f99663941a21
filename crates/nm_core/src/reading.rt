//! What a state tells: the views of its actors, homes and shadows, marks, and its end words.

ghost use Rattle.std.specs.Prelude.{◌≡◌, ◌+◌, ◌<◌, ◌≤◌, ◌^◌, ◌↔◌, ◌==◌, ℕ, IsTrue, All, map, slice_index, [], length};
ghost use Rattle.std.specs.List.{range_with_len, list_any};
ghost use Rattle.nm_base.specs.Geometry.{page_count, frame_count};
ghost use Rattle.nm_base.specs.HomeWord.{named_home};
ghost use Rattle.nm_base.specs.ShadowWord.{named_shadow};
ghost use Rattle.nm_base.specs.Ranges.{IsPage, IsFrame};
ghost use Rattle.nm_view.specs.Views.{View, end_word};
ghost use Rattle.nm_view.specs.Opening.{IsActor};
ghost use Rattle.nm_core.specs.State.{view_of};
ghost use Rattle.nm_core.specs.Roles.{all_frames, IsSettled};
ghost use Rattle.nm_core.specs.EndWords.{HasEndRoom, IsEndOf};

use crate::ends::EndWords;
use crate::state::State;
use nm_base::home_word::named_home;
use nm_base::shadow_word::named_shadow;
use nm_view::{ActorView, END};
use nm_words::Where;

/// Whether every word of a list is this one.
fn are_all(words: &[u64], word: u64) -> bool
    ensures { IsTrue result ↔ All (λ n. n ≡ word) words.now }
{
    words.iter().all(|other| *other == word)
}

/// Whether a view has no operation and no owned frame.
fn is_idle(view: &ActorView) -> bool
    ensures { IsTrue result ↔ ((view.now.ops ≡ []) × (view.now.owned ≡ [])) }
{
    view.ops.is_empty() && view.owned.is_empty()
}

/// Whether no view has an operation or an owned frame.
fn are_idle(views: &[ActorView]) -> bool
    ensures { IsTrue result ↔ All (λ v. (v.ops ≡ []) × (v.owned ≡ [])) views.now }
{
    for view in views {
        if !is_idle(view) {
            return false;
        }
    }
    true
}

impl State {
    /// The view of an actor. The actor exists.
    pub fn view(&self, actor: u32) -> &ActorView
        requires { IsActor self.now.geometry actor }
        ensures { result.now ≡ view_of self.now actor }
    {
        &self.views[actor as usize]
    }

    /// The home of a backing page. None where it has none. The page exists.
    pub fn home(&self, page: u32) -> Option<u32>
        requires { IsPage self.now.geometry page }
        ensures { result ≡ named_home (slice_index self.now.words.home page) }
    {
        named_home(self.home_word(page))
    }

    /// The home word of a backing page.
    fn home_word(&self, page: u32) -> u64
        requires { IsPage self.now.geometry page }
        ensures word { result ≡ slice_index self.now.words.home page }
        ensures bound { result ≤ 4096 }
    {
        self.words.load(&self.geometry, Where::Home(page))
    }

    /// The page of which a frame is the master, and the shadow of it. None where it is no master. The frame exists.
    pub fn shadow(&self, frame: u32) -> Option<(u32, u32)>
        requires { IsFrame self.now.geometry frame }
        ensures { result ≡ named_shadow (slice_index self.now.words.shadow frame) }
    {
        named_shadow(self.words.load(&self.geometry, Where::Shadow(frame)))
    }

    /// The mark of a backing page: 0 none, 1 candidate, 2 pending. The page exists.
    pub fn mark(&self, page: u32) -> u64
        requires { IsPage self.now.geometry page }
        ensures { result ≡ slice_index self.now.words.mark page }
    {
        self.words.load(&self.geometry, Where::Mark(page))
    }

    /// Whether every processor has ended, no lock and no turn is held, no page has a mark, and no view has an
    /// operation or an owned frame.
    fn is_settled(&self) -> bool
        ensures { IsTrue result ↔ IsSettled self.now }
    {
        are_all(self.words.acks(), END)
            && are_all(self.words.locks(), 0)
            && are_all(self.words.turns(), 0)
            && are_all(self.words.marks(), 0)
            && are_idle(&self.views)
    }

    /// Writes the end words of this state: the home and the mark of each backing page, the shadow word and the role of
    /// each frame, and whether the machine is settled. It takes no memory. `into` was made for the same geometry.
    pub fn end_words(&self, into: &mut EndWords)
        requires { HasEndRoom self.now.geometry into.old }
        ensures { IsEndOf self.now into.new }
    {
        self.write_homes(&mut into.homes);
        self.write_shadows(&mut into.shadows);
        self.write_marks(&mut into.marks);
        self.write_roles(&mut into.roles);
        into.settled = self.is_settled();
    }

    /// Writes the home of each backing page.
    fn write_homes(&self, homes: &mut [Option<u32>])
        requires { length homes.old ≡ page_count self.now.geometry }
        ensures { homes.new ≡ map (λ page. named_home (slice_index self.now.words.home page)) (range_with_len 0 (page_count self.now.geometry)) }
    {
        for page in 0..self.geometry.pages() {
            homes[page as usize] = self.home(page);
        }
    }

    /// Writes the shadow word of each frame.
    fn write_shadows(&self, shadows: &mut [Option<(u32, u32)>])
        requires { length shadows.old ≡ frame_count self.now.geometry }
        ensures { shadows.new ≡ map (λ frame. named_shadow (slice_index self.now.words.shadow frame)) (all_frames self.now.geometry) }
    {
        for frame in 0..self.geometry.frames() {
            shadows[frame as usize] = self.shadow(frame);
        }
    }

    /// Writes the marks.
    fn write_marks(&self, marks: &mut [u64])
        requires { length marks.old ≡ page_count self.now.geometry }
        ensures { marks.new ≡ self.now.words.mark }
    {
        marks.copy_from_slice(self.words.marks());
    }
}
