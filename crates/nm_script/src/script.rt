//! What a script says.

use crate::schedule::Schedule;
use nm_base::Geometry;
use nm_tiers::Node;
use std::marker::Model;

/// A line of a processor's program.
#[derive(Clone, Copy, Debug, PartialEq, Eq)]
pub enum Line {
    /// Loads a word.
    Load {
        /// The virtual page.
        v: u32,
        /// The word of the page.
        w: u32,
    },
    /// Stores a value to a word.
    Store {
        /// The virtual page.
        v: u32,
        /// The word of the page.
        w: u32,
        /// The value.
        x: u64,
    },
    /// Adds to a word, modulo 2^64.
    Add {
        /// The virtual page.
        v: u32,
        /// The word of the page.
        w: u32,
        /// What is added.
        x: u64,
    },
    /// Loads a word until it has a value.
    Await {
        /// The virtual page.
        v: u32,
        /// The word of the page.
        w: u32,
        /// The value.
        x: u64,
        /// The most loads, 1 to 1,000,000,000.
        max: u32,
    },
}

/// A script: a machine, what its processors do, and the order of the turns.
#[derive(Debug, Drop)]
pub struct Script {
    /// The version of its text, 1 or 2.
    pub version: u32,
    /// The geometry of the machine.
    pub geometry: Geometry,
    /// The lines of each processor.
    pub programs: Vec<Vec<Line>>,
    /// The order of the turns.
    pub schedule: Schedule,
    /// The nodes that form the tiers in version 2. Empty in version 1.
    pub nodes: Vec<Node>,
    /// After how many aborts a page goes to the locked move, in version 2 with a line `retry`, 0 to 1,000.
    pub retry: Option<u32>,
}

impl Model for Script {
    ghost use Rattle.std.specs.Prelude.{map};
    ghost use Rattle.nm_script.specs.Plain as plain;

    ghost Value = { plain.Script };

    ghost view = { λ s. record { version = s.version; geometry = s.geometry; programs = map (λ p. p.items) s.programs.items; schedule = s.schedule; nodes = s.nodes.items; retry = s.retry } };
}
