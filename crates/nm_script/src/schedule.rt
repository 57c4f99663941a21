//! Schedules: which actor makes the next turn.

use nm_action::ActionKind;
use std::marker::Model;

/// An item of a plan.
#[derive(Clone, Copy, Debug, PartialEq, Eq)]
pub struct PlanItem {
    /// The number of the actor: the processors from 0, then the migrator, then the reclaimer.
    pub actor: u32,
    /// The kind of action that is counted.
    pub kind: ActionKind,
    /// The actor makes turns until it has made this many actions of the kind, 1 to 1,000,000.
    pub count: u32,
}

/// The items of a plan, in their order.
#[derive(Debug, Drop)]
pub struct PlanItems {
    /// The items.
    pub items: Vec<PlanItem>,
}

impl Model for PlanItems {
    ghost use Rattle.std.specs.Prelude.{List};
    ghost use Rattle.nm_script.specs.declared.schedule.PlanItem.{PlanItem};

    ghost Value = { List PlanItem };

    ghost view = { λ p. p.items.items };
}

/// How the actor of each turn is picked, and how many turns there are at most, 0 to 8,000,000.
#[derive(Debug, Drop)]
pub enum Schedule {
    /// One actor after the other, by number.
    Serial {
        /// The most turns.
        turns: u32,
    },
    /// By random numbers.
    Shuffle {
        /// The number that the random numbers start from.
        number: u64,
        /// The most turns.
        turns: u32,
    },
    /// By a plan.
    Plan {
        /// The most turns.
        turns: u32,
        /// The items of the plan.
        items: PlanItems,
    },
}
