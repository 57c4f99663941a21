//! What a history of a queue leaves.

ghost use Rattle.std.specs.Prelude.{◌≡◌, ◌≢◌, ◌≤◌, ℕ, [], map};
ghost use Rattle.std.specs.List.{range_with_len};
ghost use Rattle.nm_actor.specs.Alone.{MovesLeave};
ghost use Rattle.nm_actor.specs.Boards.{puts_of, takes_of};
ghost use Rattle.nm_queue.specs.Histories.{History, moves_by, IsFifo, pages_left};

/// Where one pass made all moves of a history that is first in, first out, its moves are those of a lane that is empty before, and
/// holds after them the pages that the history leaves.
pub fn a_pass_alone_is_first_in_first_out()
    ensures { (history : History) (pass : ℕ) → IsFifo history → ((other : ℕ) → other ≢ pass → moves_by other history ≡ [])
        → MovesLeave [] (moves_by pass history) (pages_left history) }
{}

/// Where the passes with the first so many numbers made all moves of a history, and together took each page as often as they put it,
/// no page is left.
pub fn a_history_leaves_no_page_where_each_was_taken()
    ensures { (history : History) (many : ℕ) → IsFifo history → ((pass : ℕ) → many ≤ pass → moves_by pass history ≡ [])
        → ((page : ℕ) → takes_of page (map (λ pass. moves_by pass history) (range_with_len 0 many))
        ≡ puts_of page (map (λ pass. moves_by pass history) (range_with_len 0 many)))
        → pages_left history ≡ [] }
{}
