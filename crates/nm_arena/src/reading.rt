//! The words of a machine, laid out in one list and read back; its views, gathered; and what a machine begins with.

ghost use Rattle.std.specs.Prelude.{◌≡◌, ◌≤◌, [], length, map, Some, IfOk};
ghost use Rattle.std.specs.List.{range_with_len};
ghost use Rattle.std.specs.Vec.{vec_capacity};
ghost use Rattle.std.specs.Slots.{slots_items, slots_len, IsFull};
ghost use Rattle.nm_base.specs.Geometry.{IsGeometry};
ghost use Rattle.nm_view.specs.Opening.{opening};
ghost use Rattle.nm_core.specs.State.{actor_count};
ghost use Rattle.nm_words.specs.Flat.{flat, total_words};
ghost use Rattle.nm_words.specs.Words.{HasSizes};
ghost use Rattle.nm_arena.specs.Layouts.{IsLayoutOf};
ghost use Rattle.nm_arena.specs.Views.{views_in};

use crate::layout::Layout;
use atomic_table::Closed;
use nm_base::Geometry;
use nm_view::ActorView;
use nm_words::{Change, Words};
use std::alloc::{AllocError, Global};

/// The list of all words.
pub(crate) fn listed(
    alloc: Global,
    g: &Geometry,
    layout: &Layout,
    words: &Words,
) -> Result<Vec<u64>, AllocError>
    requires layout { IsLayoutOf g.now layout.now }
    requires sizes { HasSizes g.now words.now }
    ensures { IfOk result (λ list. list.items ≡ flat words.now) }
{
    let mut list = Vec::with_capacity(alloc, layout.end)?;
    for place in 0..layout.end {
        let name = layout.name_at(g, place);
        list.push_reserved(words.load(g, name));
    }
    Ok(list)
}

/// Writes the words that a table had at its end.
pub(crate) fn read_back(
    closed: &Closed<(), Global>,
    g: &Geometry,
    layout: &Layout,
    words: &mut Words,
)
    requires full { IsFull closed.now.words × (slots_len closed.now.words ≡ total_words g.now) }
    requires count { length (slots_items closed.now.words) ≡ total_words g.now }
    requires layout { IsLayoutOf g.now layout.now }
    requires sizes { HasSizes g.now words.old }
    ensures words { flat words.new ≡ slots_items closed.now.words }
    ensures sizes { HasSizes g.now words.new }
{
    for place in 0..layout.end {
        let name = layout.name_at(g, place);
        let word = closed.word(place);
        words.exchange(g, name, Change::Put(word));
    }
}

/// The opening views of all actors.
pub(crate) fn opening_views(
    alloc: Global,
    g: &Geometry,
) -> Result<Vec<Option<ActorView>>, AllocError>
    ensures { IfOk result (λ views. views.items ≡ map (λ actor. Some (opening g.now actor)) (range_with_len 0 (actor_count g.now))) }
{
    let actors = g.cpus + 2;
    let mut views = Vec::with_capacity(alloc, actors as usize)?;
    for number in 0..actors {
        let view = ActorView::start(alloc, g, number)?;
        views.push_reserved(Some(view));
    }
    Ok(views)
}

/// An empty list with room for the views of all actors.
pub(crate) fn room_for_views(alloc: Global, g: &Geometry) -> Result<Vec<ActorView>, AllocError>
    ensures empty { IfOk result (λ views. views.items ≡ []) }
    ensures room { IfOk result (λ views. actor_count g.now ≤ vec_capacity views) }
{
    let actors = g.cpus + 2;
    Vec::with_capacity(alloc, actors as usize)
}

/// The views of all actors, each of which is there, in a list that has room for them. It takes no memory.
pub(crate) fn all_views(views: Vec<Option<ActorView>>, room: Vec<ActorView>) -> Vec<ActorView>
    requires there { views.items ≡ map Some (views_in views.items) }
    requires empty { room.items ≡ [] }
    requires room { length views.items ≤ vec_capacity room }
    ensures { result.items ≡ views_in views.items }
{
    let mut left = views;
    let mut all = room;
    for actor in 0..left.len() {
        let Some(view) = left[actor].take() else {
            unreachable!()
        };
        all.push_reserved(view);
    }
    all
}

/// A geometry of its own with the same fields.
pub(crate) fn copied(alloc: Global, g: &Geometry) -> Result<Geometry, AllocError>
    ensures same { IfOk result (λ copy. copy ≡ g.now) }
    ensures sound { IfOk result IsGeometry }
{
    match Geometry::new(alloc, g.words, &g.tiers, g.cpus, &g.vpages) {
        Ok(copy) => Ok(copy),
        Err(_) => Err(AllocError),
    }
}
