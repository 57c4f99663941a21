//! What is done with a seat of the table: one exchange on a word, and the seat of an actor that is split off.

ghost use Rattle.std.specs.Prelude.{◌≡◌, ◌<◌, [], None};
ghost use Rattle.nm_rule.specs.Knows.{seat_of, without, handed};
ghost use Rattle.nm_rule.specs.Steps.{Tells, IsExchange};
ghost use Rattle.nm_arena.specs.Seats.{IsUnsplit};

use atomic_table::{Seat as Place, Table};
use nm_action::Action;
use nm_base::Geometry;
use nm_rule::{Given, GivenActor, Knowledge, Made, MadeStep, RunRule};
use nm_words::Change;
use std::alloc::Global;

/// The table of a running machine: it has no slots.
pub(crate) type Board = Table<(), Knowledge, Geometry, RunRule, Global>;

/// Makes an exchange on a word, which is the action of the seat's actor, and gives the word before it; for a put, which does
/// not read it, the word that was put.
pub(crate) fn exchange<J: Made>(
    board: &Board,
    place: &mut Place<(), Knowledge>,
    word: usize,
    change: Change,
    _geometry: &Geometry,
    _action: Action,
) -> u64
    requires table { (place.old.table_id ≡ board.now.shared.table_id) × (word < board.now.shared.table_id.words) }
    requires key { board.now.shared.key ≡ J.geometry }
    requires exchange { IsExchange J.geometry J.action place.old.me.0 word change }
    ensures table { (place.new.table_id ≡ place.old.table_id) × (place.new.id ≡ place.old.id) }
    ensures tells { Tells J.geometry J.action result place.old.me place.new.me }
{
    match change {
        Change::Keep => board.shared.load::<MadeStep<J>>(place, word),
        Change::Swap(new) => board.shared.swap::<MadeStep<J>>(place, word, new),
        Change::Put(new) => {
            board.shared.store::<MadeStep<J>>(place, word, new);
            new
        }
        Change::Add(more) => board.shared.fetch_add::<MadeStep<J>>(place, word, more),
        Change::And(mask) => board.shared.fetch_and::<MadeStep<J>>(place, word, mask),
        Change::Or(mask) => board.shared.fetch_or::<MadeStep<J>>(place, word, mask),
        Change::Xor(mask) => board.shared.fetch_xor::<MadeStep<J>>(place, word, mask),
        Change::Take(new) => board
            .shared
            .compare_exchange::<MadeStep<J>>(place, word, 0, new),
        Change::IfIs(old, new) => board
            .shared
            .compare_exchange::<MadeStep<J>>(place, word, old, new),
    }
}

/// Splits the seat of an actor off the first seat, which has not named it yet.
pub(crate) fn split_off<J: Given>(
    board: &Board,
    place: &mut Place<(), Knowledge>,
    _actor: u32,
) -> Place<(), Knowledge>
    requires table { (place.old.table_id ≡ board.now.shared.table_id) × (0 < board.now.shared.table_id.words) }
    requires first { place.old.me.0.mine ≡ None }
    requires unsplit { IsUnsplit (seat_of place.old.me.0.seats J.actor) }
    ensures table { (place.new.table_id ≡ place.old.table_id) × (result.table_id ≡ place.old.table_id) }
    ensures left { place.new.me ≡ (without J.actor place.old.me.0, place.old.me.1) }
    ensures right { result.me ≡ (handed J.actor place.old.me.0, []) }
{
    board.shared.split_seat::<GivenActor<J>>(place)
}
