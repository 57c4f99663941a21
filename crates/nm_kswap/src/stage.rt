//! How far the reclaimer has come.

use nm_event::Spent;

/// What the reclaimer keeps from step to step.
#[derive(Clone, Copy)]
pub(crate) struct Kept {
    /// The page at which the hand of each tier is: at most three tiers have a slower one.
    pub(crate) hands: [u32; 3],
    /// What it has drawn.
    pub(crate) spent: Spent,
}

/// A visit of a page by the demotion of a tier.
#[derive(Clone, Copy)]
pub(crate) struct Visit {
    /// Whether all processors had ended when the round began.
    pub(crate) last: bool,
    /// The tier.
    pub(crate) tier: u32,
    /// Its counted level of free frames.
    pub(crate) level: u32,
    /// The page.
    pub(crate) page: u32,
    /// How many visits more may be made at most.
    pub(crate) left: u32,
}

/// How far the reclaimer has come.
#[derive(Clone, Copy)]
pub(crate) enum Stage {
    /// It has not begun.
    New,
    /// A round begins: all processors are asked whether they have ended.
    Asking,
    /// The free frames of a tier are counted.
    Counting {
        /// Whether all processors had ended when the round began.
        last: bool,
        /// The tier.
        tier: u32,
    },
    /// A page is inspected.
    Inspecting(Visit),
    /// It is demoted.
    Demoting(Visit),
    /// It has ended.
    Over,
}
