//! The running machine.

ghost use Rattle.std.specs.Prelude.{◌≡◌, ℕ, ◌<◌, ◌++◌, [], ◌∷◌, length, slice_index_or, slice_set, Some, None, IsSomeAnd, IfOk};
ghost use Rattle.nm_view.specs.Opening.{IsActor};
ghost use Rattle.nm_permit.specs.Permitted.{Allowed};
ghost use Rattle.nm_event.specs.After.{after_of};
ghost use Rattle.nm_event.specs.Fitting.{Fits};
ghost use Rattle.nm_core.specs.EndWords.{HasEndRoom};
ghost use Rattle.nm_rule.specs.Knows.{seat_of, unsplit_seats};
ghost use Rattle.nm_rule.specs.Steps.{IsMoveMade};
ghost use Rattle.nm_arena.specs.Seats.{IsActorSeat, IsFirstSeat, IsUnsplit, IsSplitOut, progress_at, opening_seat, without_seat, with_seat};
ghost use Rattle.nm_arena.specs.Ends.{IsEndOfRun};

use crate::exchanging::{Board, exchange, split_off};
use crate::layout::Layout;
use crate::reading::{all_views, copied, listed, opening_views, read_back, room_for_views};
use crate::seat::{Held, Seat};
use nm_action::{Action, Reply};
use nm_base::Geometry;
use nm_core::{EndWords, State};
use nm_rule::TakenBack;
use nm_shape::advance;
use nm_step::{exchange_of, reply_of};
use nm_view::ActorView;
use nm_words::Words;
use std::alloc::{AllocError, Global};
use std::marker::{Brand, Model};

/// A machine on which several threads step at the same time, each by its own seat. Its words lie in one table of words that
/// change in single atomic steps.
#[derive(Drop)]
pub struct Arena {
    geometry: Geometry,
    layout: Layout,
    board: Board,
    words: Words,
    room: Vec<ActorView>,
}

impl Model for Arena {
    ghost use Rattle.nm_arena.specs.Faces.{ArenaFace};

    ghost Value = { ArenaFace };

    ghost use Rattle.std.specs.Vec.{vec_capacity};
    ghost use Rattle.nm_arena.specs.Standing.{IsArenaKept};

    ghost view = { λ a. record { geometry = a.geometry; table = a.board.shared.table_id } };

    ghost invariant = { λ a. IsArenaKept a.geometry a.layout a.board.shared.key a.board.shared.table_id a.words a.room.items (vec_capacity a.room) };
}

impl Arena {
    /// A machine in which nothing was done, and its first seat. It takes all memory that the machine ever takes;
    /// `AllocError` comes where there is none.
    pub fn start(alloc: Global, g: &Geometry) -> Result<(Arena, Seat), AllocError>
        ensures geometry { IfOk result (λ r. r.0.geometry ≡ g.now) }
        ensures first { IfOk result (λ r. IsFirstSeat r.0 r.1) }
        ensures seats { IfOk result (λ r. r.1.seats ≡ unsplit_seats g.now) }
        ensures seen { IfOk result (λ r. r.1.seen ≡ []) }
    {
        let geometry = copied(alloc, g)?;
        let layout = Layout::of(g);
        let words = Words::start(alloc, g)?;
        let list = listed(alloc, g, &layout, &words)?;
        let (board, place) = Board::of_words(alloc, &list, g)?;
        let held = Held::First(opening_views(alloc, g)?);
        let room = room_for_views(alloc, g)?;
        let arena = Arena {
            geometry,
            layout,
            board,
            words,
            room,
        };
        Ok((arena, Seat { place, held }))
    }

    /// Splits the seat of an actor off the first seat. The seat has the opening view and an empty own list, and has seen what
    /// the first seat has seen. Conditions: the seat is the first, and does not name the actor yet. It takes no memory.
    pub fn split(&self, seat: &mut Seat, actor: u32) -> Seat
        requires first { IsFirstSeat self.now seat.old }
        requires unsplit { IsUnsplit (seat_of seat.old.seats actor) }
        ensures first { IsFirstSeat self.now seat.new }
        ensures rest { seat.new ≡ without_seat actor seat.old }
        ensures actor { IsActorSeat self.now result }
        ensures opens { result ≡ opening_seat self.now actor seat.old.seen }
    {
        let Seat { place, held } = seat;
        let Held::First(views) = held else {
            unreachable!()
        };
        let own = split_off::<Brand>(&self.board, place, actor);
        let view = given(views, actor);
        Seat {
            place: own,
            held: Held::Actor(view),
        }
    }

    /// Joins the seat of an actor back to the first seat, which has its view and own list from then on, and has seen the
    /// longer of what the two have seen. Conditions: the seat is the first, and the other is that of an actor. It takes no
    /// memory.
    pub fn join(&self, seat: &mut Seat, other: Seat)
        requires first { IsFirstSeat self.now seat.old }
        requires other { IsActorSeat self.now other }
        ensures first { IsFirstSeat self.now seat.new }
        ensures joined { seat.new ≡ with_seat other seat.old }
    {
        let Seat { place, held } = seat;
        let Held::First(views) = held else {
            unreachable!()
        };
        let Seat {
            place: own,
            held: theirs,
        } = other;
        let Held::Actor(view) = theirs else {
            unreachable!()
        };
        self.board.shared.join_seat::<TakenBack>(place, own);
        take_back(views, view);
    }

    /// Makes an action of the seat's actor, by one exchange on one word of the table: its event is the next of the run. It
    /// waits for nobody, whatever the other seats do meanwhile, and takes no memory. Conditions: the seat is that of an
    /// actor, whose view permits the action.
    ///
    /// `Busy` comes exactly where the lock or turn word that the action would take is not 0, and carries it. `Lost` comes
    /// exactly where the table word or mark is not the expected one, and carries it. Both change no word.
    pub fn step(&self, seat: &mut Seat, action: Action) -> Reply
        requires actor { IsActorSeat self.now seat.old }
        requires allowed { Allowed self.now.geometry seat.old.view action }
        ensures actor { IsActorSeat self.now seat.new }
        ensures view { seat.new.view ≡ after_of self.now.geometry seat.old.view action result }
        ensures own { seat.new.own ≡ seat.old.own ++ (action, result) ∷ [] }
        ensures made { IsMoveMade self.now.geometry (progress_at seat.old) action result seat.old.seen seat.new.seen }
        ensures fits { Fits self.now.geometry seat.old.view action result }
    {
        let Seat { place, held } = seat;
        let Held::Actor(view) = held else {
            unreachable!()
        };
        let (name, change) = exchange_of(&self.geometry, view, action);
        let word = self.layout.at(&self.geometry, name);
        let found = exchange::<Brand>(&self.board, place, word, change, &self.geometry, action);
        let reply = reply_of(change, found);
        advance(&self.geometry, view, action, reply);
        reply
    }

    /// Ends the machine, and writes the end words of a run that merges the own lists which the first seat holds. Conditions:
    /// the seat is the first, every actor whose seat was split off was joined back, and `into` was made for the machine's
    /// geometry. It takes no memory.
    pub fn close(self, seat: Seat, into: &mut EndWords)
        requires first { IsFirstSeat self seat }
        requires back { (actor : ℕ) → IsActor self.geometry actor → ¬ IsSplitOut (seat_of seat.seats actor) }
        requires room { HasEndRoom self.geometry into.old }
        ensures { IsEndOfRun self.geometry seat into.new }
    {
        let Arena {
            geometry,
            layout,
            board,
            mut words,
            room,
        } = self;
        let Seat { place, held } = seat;
        let Held::First(views) = held else {
            unreachable!()
        };
        let closed = board.close_with(place);
        read_back(&closed, &geometry, &layout, &mut words);
        closed.free();
        let views = all_views(views, room);
        let state = State::of_parts(geometry, words, views);
        state.end_words(into);
    }
}

/// Takes the view of an actor out of a list.
fn given(views: &mut [Option<ActorView>], actor: u32) -> ActorView
    requires { IsSomeAnd (slice_index_or views.old actor None) (λ _. Unit {0}) }
    ensures view { slice_index_or views.old actor None ≡ Some result }
    ensures rest { views.new ≡ slice_set views.old actor None }
{
    let place = &mut views[actor as usize];
    let Some(view) = place.take() else {
        unreachable!()
    };
    view
}

/// Puts the view of an actor back into a list.
fn take_back(views: &mut [Option<ActorView>], view: ActorView)
    requires { view.number < length views.old }
    ensures { views.new ≡ slice_set views.old view.number (Some view) }
{
    let actor = view.number as usize;
    views[actor] = Some(view);
}
