//! Picking the actor of the next turn.

ghost use Rattle.std.specs.Prelude.{◌≡◌, ℕ, ◌<◌, ◌++◌, ◌∷◌, [], false, List, length, ◌^◌, ◌+◌, if◌then◌else◌, ◌≤◌, ◌↔◌, IsTrue, IfOk, IfSome, MatchOption, drop, filter, not, ◌==◌, ◌||◌, slice_set, slice_index_or};
ghost use Rattle.std.specs.List.{list_any, range_with_len};
ghost use Rattle.nm_script.specs.declared.schedule.Schedule.{Schedule};
ghost use Rattle.nm_script.specs.Script.{IsSchedule};
ghost use Rattle.nm_schedule.specs.declared.turn.Played.{Played};
ghost use Rattle.nm_schedule.specs.Played.{active_actors};
ghost use Rattle.nm_schedule.specs.Stalls.{Yields};
ghost use Rattle.nm_schedule.specs.Picks.{IsCounted, first_from, drawn_from};
ghost use Rattle.nm_schedule.specs.Standing.{StandsAfter, HasStood, HasPicked, IsPick, IsOnWay, IsAtItem, ArePlanned, Carries, MayGoOn, PicksItem, IsSpent, HasItem, item_actor, plan_of, standing, way_picks, bumped_by, stalls_by};

use crate::flush::{bumped_after, stalls};
use crate::limits::MOST_ITEM_TURNS;
use crate::turn::Played;
use nm_action::{ActionKind, Heard, Reply, Turn};
use nm_gen::random::next;
use nm_script::{PlanItem, Schedule};
use std::alloc::{AllocError, Global};
use std::marker::Model;

/// How the next actor is found.
#[derive(Clone, Copy, Debug)]
pub enum Way {
    /// This actor goes on.
    Stay(u32),
    /// The first from this number on, in cyclic order, that has not ended.
    Next(u32),
    /// The one that this number draws.
    Draw(u64),
    /// That of an item of the plan.
    Item {
        /// The place of the item.
        place: usize,
        /// How many turns it made.
        made: u32,
        /// How many of these count.
        counted: u32,
    },
}

/// Picks the actors of a schedule's turns, one after the other. It keeps the actors that have not ended, for each actor whether
/// it is in a flush, and how the next actor is found; so a turn takes a time that doesn't depend on how many were made.
#[derive(Drop)]
pub struct Picker<'a> {
    active: Vec<u32>,
    bumped: Vec<Option<u64>>,
    items: &'a [PlanItem],
    way: Way,
}

impl<'a> Model for Picker<'a> {
    ghost use Rattle.nm_schedule.specs.Standing.{Standing};

    ghost Value = { Standing };

    ghost view = { λ p. record { active = p.active.items; bumped = p.bumped.items; items = p.items.now; way = p.way } };
}

/// Whether a turn counts for an item of this kind.
fn is_counted(kind: ActionKind, turn: Turn, heard: Heard) -> bool
    ensures { IsTrue result ↔ IsCounted kind turn heard }
{
    match (turn, heard) {
        (_, Heard::Answer(Reply::Busy(_) | Reply::Lost(_))) => false,
        (Turn::Do(action), Heard::Answer(_)) => action.kind() == kind,
        _ => false,
    }
}

/// The first of some actors from a number on, in cyclic order.
fn first_from(from: u32, active: &[u32]) -> u32
    requires { 0 < length active.now }
    ensures { result ≡ first_from from active.now }
{
    for actor in active {
        if *actor >= from {
            return *actor;
        }
    }
    active[0]
}

/// The one of some actors that a random number draws.
fn drawn_from(x: u64, active: &[u32]) -> u32
    requires { 0 < length active.now }
    ensures { result ≡ drawn_from x active.now }
{
    let place = (x >> 33) % active.len() as u64;
    active[place as usize]
}

/// Whether an item is not over at once: it has turns to count, and its actor has not ended.
fn may_begin(item: PlanItem, active: &[u32]) -> bool
    ensures { IsTrue result ↔ ((0 < item.count) × IsTrue (list_any (λ a. a == item.actor) active.now)) }
{
    item.count > 0 && active.contains(&item.actor)
}

/// The way on from an item of a plan on: to the first that is not over at once, and after the items to the cooperative rule.
fn way_from(items: &[PlanItem], active: &[u32], from: usize) -> Way
    ensures { (schedule : Schedule) (actors : ℕ) (before : List Played) → active.now ≡ active_actors actors before → ArePlanned actors items.now
        → Carries schedule actors (drop from items.now) (length before) before → IsOnWay schedule actors items.now result before }
{
    for place in from..items.len() {
        if may_begin(items[place], active) {
            return Way::Item {
                place,
                made: 0,
                counted: 0,
            };
        }
    }
    Way::Next(0)
}

/// The way on after a turn under the cooperative rule.
fn way_after_turn(actor: u32, yields: bool) -> Way
    requires { actor + 1 < 2 ^ 32 }
    ensures { result ≡ (if yields then Way.Next (actor + 1) else Way.Stay actor) }
{
    if yields {
        Way::Next(actor + 1)
    } else {
        Way::Stay(actor)
    }
}

/// One more where a turn counts.
fn counted_with(counted: u32, counts: bool) -> u32
    requires { counted + 1 < 2 ^ 32 }
    ensures { result ≡ counted + (if counts then 1 else 0) }
{
    if counts { counted + 1 } else { counted }
}

/// Whether an item is over that made so many turns, of which so many count.
fn is_spent(item: PlanItem, made: u32, counted: u32, ended: bool) -> bool
    ensures { IsTrue result ↔ IsSpent item made counted ended }
{
    counted >= item.count || ended || made >= MOST_ITEM_TURNS
}

/// The way on after a turn of an item of a plan.
fn way_after_item(
    items: &[PlanItem],
    active: &[u32],
    place: usize,
    made: u32,
    counted: u32,
    played: Played,
) -> Way
    requires place { place < length items.now }
    requires made { made < MOST_ITEM_TURNS }
    requires counted { counted ≤ made }
    ensures { (schedule : Schedule) (actors : ℕ) (before : List Played) → active.now ≡ active_actors actors (before ++ played ∷ [])
        → ArePlanned actors items.now → IsPick schedule actors before played.actor
        → IsAtItem schedule actors items.now place made counted before → played.actor ≡ item_actor (drop place items.now)
        → IsOnWay schedule actors items.now result (before ++ played ∷ []) }
{
    let item = items[place];
    let counts = is_counted(item.kind, played.turn, played.heard);
    let counted = counted_with(counted, counts);
    if is_spent(item, made + 1, counted, played.ended) {
        way_from(items, active, place + 1)
    } else {
        Way::Item {
            place,
            made: made + 1,
            counted,
        }
    }
}

/// The way on after a turn of the actor that was picked.
fn way_after(way: Way, items: &[PlanItem], active: &[u32], played: Played, yields: bool) -> Way
    requires { MayGoOn items.now way played.actor }
    ensures { (schedule : Schedule) (actors : ℕ) (before : List Played) → active.now ≡ active_actors actors (before ++ played ∷ [])
        → ArePlanned actors items.now → IsPick schedule actors before played.actor → (IsTrue yields ↔ Yields before played)
        → IsOnWay schedule actors items.now way before → PicksItem items.now way played.actor
        → IsOnWay schedule actors items.now result (before ++ played ∷ []) }
{
    match way {
        Way::Stay(_) => way_after_turn(played.actor, yields),
        Way::Next(_) => way_after_turn(played.actor, yields),
        Way::Draw(x) => Way::Draw(next(x)),
        Way::Item {
            place,
            made,
            counted,
        } => way_after_item(items, active, place, made, counted, played),
    }
}

/// Follows the flush of an actor through a turn of it, and says whether the turn is the actor's last for now: the actor has
/// ended, or the turn stalls.
fn note_flush(bumped: &mut Vec<Option<u64>>, played: Played) -> bool
    requires { played.actor < length bumped.old.items }
    ensures bumped { bumped.new.items ≡ slice_set bumped.old.items played.actor (bumped_by (slice_index_or bumped.old.items played.actor None) played.turn played.heard) }
    ensures yields { result ≡ (played.ended || stalls_by (slice_index_or bumped.old.items played.actor None) played.turn played.heard) }
{
    let place = played.actor as usize;
    let before = bumped[place];
    bumped[place] = bumped_after(before, played.turn, played.heard);
    played.ended || stalls(before, played.turn, played.heard)
}

/// Drops an actor that has ended.
fn note_end(active: &mut Vec<u32>, played: Played)
    ensures { active.new.items ≡ (if played.ended then filter (λ a. not (played.actor == a)) active.old.items else active.old.items) }
{
    if played.ended {
        active.retain(|actor| played.actor != *actor);
    }
}

/// The actor that a picker with these parts picks. Conditions: there is an actor that has not ended, and an item that is not
/// over where the way is an item's.
fn pick_by(way: Way, items: &[PlanItem], active: &[u32]) -> u32
    requires some { 0 < length active.now }
    requires item { HasItem items.now way }
    ensures { result ≡ way_picks active.now items.now way }
{
    match way {
        Way::Stay(actor) => actor,
        Way::Next(from) => first_from(from, active),
        Way::Draw(x) => drawn_from(x, active),
        Way::Item { place, .. } => items[place].actor,
    }
}

/// Takes note of a turn in the parts of a picker, and gives the way on.
fn note_in(
    active: &mut Vec<u32>,
    bumped: &mut Vec<Option<u64>>,
    items: &[PlanItem],
    way: Way,
    played: Played,
) -> Way
    requires { HasPicked (standing active.old.items bumped.old.items items.now way) played.actor }
    ensures { (schedule : Schedule) (actors : ℕ) (before : List Played)
        → StandsAfter schedule actors (standing active.old.items bumped.old.items items.now way) before
        → StandsAfter schedule actors (standing active.new.items bumped.new.items items.now result) (before ++ played ∷ []) }
{
    let yields = note_flush(bumped, played);
    note_end(active, played);
    way_after(way, items, active, played, yields)
}

/// The items of a schedule, if it is a plan.
fn plan_of(schedule: &Schedule) -> &[PlanItem]
    ensures { result.now ≡ plan_of schedule.now }
{
    match schedule {
        Schedule::Plan { items, .. } => &items.items,
        _ => &[],
    }
}

/// The way on which the first actor is found.
fn first_way(schedule: &Schedule, active: &[u32], cpus: u32) -> Way
    requires plan { IsSchedule cpus schedule.now }
    requires active { active.now ≡ range_with_len 0 (cpus + 2) }
    ensures { IsOnWay schedule.now (cpus + 2) (plan_of schedule.now) result [] }
{
    match schedule {
        Schedule::Serial { .. } => Way::Next(0),
        Schedule::Shuffle { number, .. } => Way::Draw(next(*number)),
        Schedule::Plan { .. } => way_from(plan_of(schedule), active, 0),
    }
}

/// So many actors, by number.
fn actors_below(alloc: Global, actors: u32) -> Result<Vec<u32>, AllocError>
    ensures { IfOk result (λ v. v.items ≡ range_with_len 0 actors) }
{
    let mut all = Vec::new(alloc);
    for actor in 0..actors {
        all.push(actor)?;
    }
    Ok(all)
}

impl<'a> Picker<'a> {
    /// The picker of a schedule of so many actors, before the first turn. `AllocError` comes where there is no memory for a
    /// word or two an actor. Condition: the items of a plan are of actors that there are.
    pub fn new(alloc: Global, schedule: &'a Schedule, cpus: u32) -> Result<Picker<'a>, AllocError>
        requires few { cpus ≤ 16 }
        requires plan { IsSchedule cpus schedule.now }
        ensures { IfOk result (λ p. StandsAfter schedule.now (cpus + 2) p []) }
    {
        let active = actors_below(alloc, cpus + 2)?;
        let bumped = vec![in alloc; None; (cpus + 2) as usize]?;
        let way = first_way(schedule, &active, cpus);
        Ok(Picker {
            active,
            bumped,
            items: plan_of(schedule),
            way,
        })
    }

    /// The actor of the next turn. `None` comes exactly where every actor has ended.
    pub fn pick(&self) -> Option<u32>
        requires { HasStood self.now }
        ensures picks { MatchOption result (self.now.active ≡ []) (HasPicked self.now) }
        ensures picked { (schedule : Schedule) (actors : ℕ) (before : List Played) → StandsAfter schedule actors self.now before
            → IfSome result (IsPick schedule actors before) }
    {
        if self.active.is_empty() {
            return None;
        }
        Some(pick_by(self.way, self.items, &self.active))
    }

    /// Takes note of a turn of the actor that was picked.
    pub fn note(&mut self, played: Played)
        requires { HasPicked self.old played.actor }
        ensures { (schedule : Schedule) (actors : ℕ) (before : List Played) → StandsAfter schedule actors self.old before
            → StandsAfter schedule actors self.new (before ++ played ∷ []) }
    {
        self.way = note_in(
            &mut self.active,
            &mut self.bumped,
            self.items,
            self.way,
            played,
        );
    }
}
