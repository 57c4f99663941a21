//! The words of a machine at the end of a run.

ghost use Rattle.std.specs.Prelude.{◌≡◌, IfOk};
ghost use Rattle.nm_core.specs.EndWords.{empty_end};

use nm_base::Geometry;
use std::alloc::{AllocError, Global};
use std::marker::Model;

/// What a frame is used for.
#[derive(Clone, Copy, Debug, PartialEq, Eq)]
pub enum Role {
    /// No page has it.
    Free,
    /// It is the home of a page.
    Mapped,
    /// It has a copy of a page that lies in a faster tier.
    Shadow,
    /// An actor has taken it.
    Held,
}

/// The words at the end of a run, as a report reads them.
#[derive(Debug, Drop)]
pub struct EndWords {
    /// The frame of each backing page, if it has one.
    pub homes: Vec<Option<u32>>,
    /// For each frame the page of which it is a master and the frame of the copy, if there is one.
    pub shadows: Vec<Option<(u32, u32)>>,
    /// The mark of each backing page, 0 being none.
    pub marks: Vec<u64>,
    /// What each frame is used for.
    pub roles: Vec<Role>,
    /// Whether every processor has ended, and nothing is open, held or marked.
    pub settled: bool,
}

impl Model for EndWords {
    ghost use Rattle.nm_core.specs.EndWords as plain;

    ghost Value = { plain.EndWords };

    ghost view = { λ e. record { homes = e.homes.items; shadows = e.shadows.items; marks = e.marks.items; roles = e.roles.items; settled = e.settled } };
}

impl EndWords {
    /// Room for the end words of a machine of this geometry: no page has a frame or a mark, every frame is free, and
    /// nothing is settled. `AllocError` comes where there is no memory for them.
    pub fn with_room(alloc: Global, g: &Geometry) -> Result<EndWords, AllocError>
        ensures { IfOk result (λ e. e ≡ empty_end g.now) }
    {
        let pages = g.pages() as usize;
        let frames = g.frames() as usize;
        let homes = vec![in alloc; None; pages]?;
        let shadows = vec![in alloc; None; frames]?;
        let marks = vec![in alloc; 0; pages]?;
        let roles = vec![in alloc; Role::Free; frames]?;
        Ok(EndWords {
            homes,
            shadows,
            marks,
            roles,
            settled: false,
        })
    }
}
