//! The roles of frames: of one, and of all of them in one pass over the frames, one over the shadow words and one over the
//! home words.

ghost use Rattle.std.specs.Prelude.{◌≡◌, ◌+◌, ◌<◌, ◌==◌, ℕ, if◌then◌else◌, true, map, slice_index_or, length};
ghost use Rattle.std.specs.List.{list_any};
ghost use Rattle.nm_base.specs.Geometry.{frame_count};
ghost use Rattle.nm_base.specs.Ranges.{IsFrame};
ghost use Rattle.nm_core.specs.Roles.{is_free, is_home_of, names_shadow, marked, role_of, all_frames};

use crate::ends::Role;
use crate::state::State;
use nm_base::home_word::home_word;
use nm_base::shadow_word::shadow_frame;
use nm_base::table_word::has_bit;
use nm_step::free_word_of;

/// Whether a shadow word names a frame as shadow.
fn names_shadow(frame: u32, word: u64) -> bool
    ensures { result ≡ names_shadow frame word }
{
    word != 0 && shadow_frame(word) == frame
}

/// Whether some home word names a frame.
fn is_home(homes: &[u64], frame: u32) -> bool
    ensures { result ≡ list_any (is_home_of frame) homes.now }
{
    let home = home_word(frame);
    homes.iter().any(|word| *word == home)
}

/// Whether some shadow word names a frame as shadow.
fn is_copy(shadows: &[u64], frame: u32) -> bool
    ensures { result ≡ list_any (names_shadow frame) shadows.now }
{
    shadows.iter().any(|word| names_shadow(frame, *word))
}

/// The role of a frame that was found to have this one too: a free frame stays free.
fn marked(role: Role, before: Role) -> Role
    ensures { result ≡ marked role true before }
{
    match before {
        Role::Free => Role::Free,
        _ => role,
    }
}

/// Marks a frame with a role, if there is such a frame.
fn mark(roles: &mut [Role], frame: u64, role: Role)
    ensures count { length roles.new ≡ length roles.old }
    ensures roles { (k : ℕ) → k < length roles.old → slice_index_or roles.new k Role.Free
        ≡ marked role (frame == k) (slice_index_or roles.old k Role.Free) }
{
    if frame < roles.len() as u64 {
        let place = frame as usize;
        roles[place] = marked(role, roles[place]);
    }
}

/// Marks the frame that a shadow word names as shadow.
fn mark_shadow(roles: &mut [Role], word: u64)
    ensures count { length roles.new ≡ length roles.old }
    ensures roles { (k : ℕ) → k < length roles.old → slice_index_or roles.new k Role.Free
        ≡ marked Role.Shadow (names_shadow k word) (slice_index_or roles.old k Role.Free) }
{
    if word != 0 {
        mark(roles, u64::from(shadow_frame(word)), Role::Shadow);
    }
}

/// Marks the frame that a home word names.
fn mark_home(roles: &mut [Role], word: u64)
    ensures count { length roles.new ≡ length roles.old }
    ensures roles { (k : ℕ) → k < length roles.old → slice_index_or roles.new k Role.Free
        ≡ marked Role.Mapped (is_home_of k word) (slice_index_or roles.old k Role.Free) }
{
    if word != 0 {
        mark(roles, word - 1, Role::Mapped);
    }
}

/// Marks the frames that shadow words name as shadow.
fn mark_shadows(roles: &mut [Role], shadows: &[u64])
    ensures count { length roles.new ≡ length roles.old }
    ensures roles { (k : ℕ) → k < length roles.old → slice_index_or roles.new k Role.Free
        ≡ marked Role.Shadow (list_any (names_shadow k) shadows.now) (slice_index_or roles.old k Role.Free) }
{
    for word in shadows {
        mark_shadow(roles, *word);
    }
}

/// Marks the frames that home words name.
fn mark_homes(roles: &mut [Role], homes: &[u64])
    ensures count { length roles.new ≡ length roles.old }
    ensures roles { (k : ℕ) → k < length roles.old → slice_index_or roles.new k Role.Free
        ≡ marked Role.Mapped (list_any (is_home_of k) homes.now) (slice_index_or roles.old k Role.Free) }
{
    for word in homes {
        mark_home(roles, *word);
    }
}

impl State {
    /// Whether the bit of a frame is set.
    fn is_free(&self, frame: u32) -> bool
        requires { IsFrame self.now.geometry frame }
        ensures { result ≡ is_free self.now frame }
    {
        let g = &self.geometry;
        let word = self.words.load(g, free_word_of(g, frame));
        has_bit(word, g.free_bit(frame))
    }

    /// The role of a frame: Free where its bit is set, Mapped where a home word names it, Shadow where a shadow word
    /// names it as shadow, and otherwise Held. The frame exists.
    pub fn role(&self, frame: u32) -> Role
        requires { IsFrame self.now.geometry frame }
        ensures { result ≡ role_of self.now frame }
    {
        if self.is_free(frame) {
            Role::Free
        } else if is_home(self.words.homes(), frame) {
            Role::Mapped
        } else if is_copy(self.words.shadows(), frame) {
            Role::Shadow
        } else {
            Role::Held
        }
    }

    /// Writes the role of each frame.
    pub(crate) fn write_roles(&self, roles: &mut [Role])
        requires { length roles.old ≡ frame_count self.now.geometry }
        ensures { roles.new ≡ map (role_of self.now) (all_frames self.now.geometry) }
    {
        self.write_free(roles);
        mark_shadows(roles, self.words.shadows());
        mark_homes(roles, self.words.homes());
    }

    /// Writes Free for each frame whose bit is set, and Held for the others.
    fn write_free(&self, roles: &mut [Role])
        requires { length roles.old ≡ frame_count self.now.geometry }
        ensures count { length roles.new ≡ length roles.old }
        ensures roles { (k : ℕ) → k < frame_count self.now.geometry → slice_index_or roles.new k Role.Free
            ≡ (if is_free self.now k then Role.Free else Role.Held) }
    {
        for frame in 0..self.geometry.frames() {
            roles[frame as usize] = self.free_or_held(frame);
        }
    }

    /// Free where the bit of a frame is set, and Held otherwise.
    fn free_or_held(&self, frame: u32) -> Role
        requires { IsFrame self.now.geometry frame }
        ensures { result ≡ (if is_free self.now frame then Role.Free else Role.Held) }
    {
        if self.is_free(frame) {
            Role::Free
        } else {
            Role::Held
        }
    }
}
