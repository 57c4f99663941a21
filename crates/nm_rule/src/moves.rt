//! What is done with a seat, as the table wants it told_of: a step, a seat that is split off, a seat that is joined back.

ghost use Rattle.std.specs.Prelude.{ℕ};
ghost use Rattle.nm_base.specs.Geometry.{Geometry};
ghost use Rattle.nm_action.specs.declared.action.Action.{Action};

use crate::known::Knowledge;
use atomic_table::{Join, Play, Split};
use std::marker::{Brand, PhantomData};

/// Which action is made, on a machine of which geometry. Each call picks it.
pub trait Made {
    ghost use Rattle.nm_base.specs.Geometry.{Geometry};
    ghost use Rattle.nm_action.specs.declared.action.Action.{Action};

    ghost geometry: { Geometry };

    ghost action: { Action };
}

impl Made for Brand {
    ghost use Rattle.nm_action.specs.declared.action.Action.TheVariants.{Poll};
    ghost use Rattle.nm_rule.specs.Knows.{no_geometry};

    ghost geometry = { no_geometry };

    ghost action = { Poll };
}

/// The step of an actor that makes this action.
pub struct MadeStep<J: Made> {
    of: PhantomData<J>,
}

impl<J: Made> Play<(), Knowledge> for MadeStep<J> {
    ghost use Rattle.nm_rule.specs.Steps.{Tells};

    ghost then = { λ _ before word after. Tells J.geometry J.action word before after };
}

/// Which actor is given a seat. Each call picks it.
pub trait Given {
    ghost use Rattle.std.specs.Prelude.{ℕ};

    ghost actor: { ℕ };
}

impl Given for Brand {
    ghost actor = { 0 };
}

/// The first seat gives this actor its seat.
pub struct GivenActor<J: Given> {
    of: PhantomData<J>,
}

impl<J: Given> Split<Knowledge> for GivenActor<J> {
    ghost use Rattle.nm_rule.specs.Knows.{without, handed};

    ghost left = { without J.actor };

    ghost right = { handed J.actor };
}

/// The first seat takes the seat of an actor back.
pub struct TakenBack;

impl Join<Knowledge> for TakenBack {
    ghost use Rattle.nm_rule.specs.Knows.{with_back, nobody};

    ghost both = { with_back };

    ghost spent = { nobody };
}
