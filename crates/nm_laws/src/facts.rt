//! The five facts of every run: of every list of permitted steps, whoever the actors are.

ghost use Rattle.std.specs.Prelude.{List};
ghost use Rattle.nm_base.specs.Geometry.{Geometry, IsGeometry};
ghost use Rattle.nm_action.specs.declared.action.Event.{Event};
ghost use Rattle.nm_core.specs.Runs.{IsRun};
ghost use Rattle.nm_laws.specs.Facts.{HoldsOfRun};

/// The five facts hold of each run: its accesses are those of a flat memory, its transactions obey their law, and in the state
/// after it shadows are true, the roles of frames are a partition, and locks and turns are held as the views say.
pub fn the_facts_hold_of_each_run()
    ensures { (g : Geometry) (events : List Event) → IsGeometry g → IsRun g events → HoldsOfRun g events }
{}
