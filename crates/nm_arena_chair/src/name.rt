//! Names of boards.

use std::marker::Model;

/// The name of a board, for contracts alone: its running machine and its two queues. No value of it is made.
pub struct ArenaName;

impl Model for ArenaName {
    ghost use Rattle.nm_arena_chair.specs.Names.{BoardName, no_name};

    ghost Value = { BoardName };

    ghost view = { λ _. no_name };
}
