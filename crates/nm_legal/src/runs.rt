//! What the accesses of every run tell: of every list of permitted steps, whoever the actors are.

ghost use Rattle.std.specs.Prelude.{List};
ghost use Rattle.nm_base.specs.Geometry.{Geometry, IsGeometry};
ghost use Rattle.nm_action.specs.declared.action.Event.{Event};
ghost use Rattle.nm_flat.specs.Memory.{Memory, AllPlaced, IsLegal, memory_after};
ghost use Rattle.nm_core.specs.Runs.{IsStep, IsRun, access_of, accesses_of, after_event, state_after};
ghost use Rattle.nm_core.specs.State.{State};
ghost use Rattle.nm_core.specs.Kept.{IsKept};
ghost use Rattle.nm_world.specs.Laws.{AreAll};
ghost use Rattle.nm_world.specs.Seen.{world_of};
ghost use Rattle.nm_legal.specs.Linked.{IsLinked, FollowsMemory};

/// The accesses of each run lie in mapped pages and are legal: each load gives, and each add gave, what a flat memory has
/// in its word after the stores and adds before it.
pub fn accesses_of_a_run_are_legal()
    ensures placed { (g : Geometry) (events : List Event) → IsGeometry g → IsRun g events → AllPlaced g (accesses_of events) }
    ensures legal { (g : Geometry) (events : List Event) → IsGeometry g → IsRun g events → IsLegal g (accesses_of events) }
{}

/// In the state after each run every page has the words of the flat memory that the accesses of the run leave.
pub fn each_page_has_the_words_of_flat_memory()
    ensures { (g : Geometry) (events : List Event) → IsGeometry g → IsRun g events
        → IsLinked g (world_of (state_after g events)) (memory_after g (accesses_of events)) }
{}

/// Each step of a state in which the laws hold follows a flat memory to which the state is linked: its access, if it is one,
/// lies in a mapped page and tells what the memory has, and the state after it is linked to the memory after the access.
pub fn each_step_follows_flat_memory()
    ensures { (s : State) (e : Event) (memory : Memory) → IsKept s → AreAll s.geometry (world_of s)
        → IsLinked s.geometry (world_of s) memory → IsStep s e
        → FollowsMemory s.geometry (world_of (after_event s e)) memory (access_of e) }
{}
