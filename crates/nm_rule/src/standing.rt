//! What holds of every table under the rule, and that each move keeps the rule.

ghost use Rattle.std.specs.Prelude.{◌≡◌, ℕ, List, [], Option, Some, None};
ghost use Rattle.atomic_table.specs.Table.{State, Me, Allows, Splits, Joins, Final, Seen, opening};
ghost use Rattle.nm_base.specs.Geometry.{Geometry, IsGeometry};
ghost use Rattle.nm_action.specs.declared.action.Action.{Action};
ghost use Rattle.nm_words.specs.declared.exchanges.Change.{Change};
ghost use Rattle.nm_words.specs.Exchanges.{changed};
ghost use Rattle.nm_words.specs.Flat.{flat};
ghost use Rattle.nm_words.specs.Words.{opening_words};
ghost use Rattle.nm_rule.specs.declared.known.Progress.{Progress};
ghost use Rattle.nm_rule.specs.declared.known.ActorSeat.TheVariants.{Unsplit};
ghost use Rattle.nm_rule.specs.declared.known.Knowledge.{Knowledge};
ghost use Rattle.nm_rule.specs.Knows.{first_knowledge, without, handed, with_back, nobody, seat_of};
ghost use Rattle.nm_rule.specs.Shows.{Shows};
ghost use Rattle.nm_rule.specs.Steps.{told_of, Tells, IsExchange};
ghost use Rattle.nm_rule.specs.Stands.{SeatsStand, IsEnd};

use crate::known::{Knowledge, RunRule};
use atomic_table::TableRule;
use nm_base::Geometry;

/// At every moment what each seat has seen is a beginning of one run, and so, actor by actor, of each actor's part of it;
/// and what each seat knows of actors is how far they have come in this run.
pub fn each_seat_has_seen_a_front_of_the_run()
    ensures { (g : Geometry) (t : State (Unit {0}) Knowledge)
        → ⟦<RunRule as TableRule<(), Knowledge, Geometry>>⟧.holds g t → SeatsStand g t }
{}

/// The words of a machine in which nothing was done, with a first seat that names no actor, are under the rule.
pub fn the_rule_holds_at_first()
    ensures { (g : Geometry) → IsGeometry g → Shows g (opening (flat (opening_words g)) [] (first_knowledge g)) }
{}

/// Each permitted action of a seat's actor, made as its one exchange, keeps the rule, whatever was done before it, and
/// tells what the event of this action adds to the run.
pub fn each_permitted_step_keeps_the_rule()
    ensures { (g : Geometry) (slots seat : ℕ) (me : Me (Unit {0}) Knowledge) (place : ℕ) (a : Action) (change : Change)
        → IsExchange g a me.0 place change
        → Allows (Shows g) slots seat me place (changed change) (λ word after. Tells g a (told_of change word) me after) }
{}

/// Where the first seat splits off the seat of an actor that it has not named yet, the rule is kept.
pub fn each_split_keeps_the_rule()
    ensures { (g : Geometry) (seat : ℕ) (k : Knowledge) (actor : ℕ) (p : Progress) → k.mine ≡ None
        → seat_of k.seats actor ≡ Unsplit p → Splits (Shows g) seat k (without actor k) (handed actor k) }
{}

/// Where the first seat takes the seat of an actor back, the rule is kept.
pub fn each_join_keeps_the_rule()
    ensures { (g : Geometry) (seat : ℕ) (k : Knowledge) (other : ℕ) (theirs : Knowledge) (p : Progress) → k.mine ≡ None
        → theirs.mine ≡ Some p → Joins (Shows g) seat k other theirs (with_back k theirs) nobody }
{}

/// The words that a closed table had at its end are those of the state after a run, of which the seat that closed it has seen
/// a beginning, and in which each actor has come as far as that seat knows.
pub fn the_end_is_that_of_a_run()
    ensures { (g : Geometry) (seat : ℕ) (k : Knowledge) (words : List ℕ) (slots : List (Unit {0}))
        → Final (Seen (Shows g) seat k) words slots → IsEnd g k words }
{}
