//! What holds of a rested chair whose lane was found empty.

ghost use Rattle.std.specs.Prelude.{◌≡◌, ℕ, [], ◌∷◌, ◌++◌, List, IsSomeAnd};
ghost use Rattle.nm_action.specs.declared.turn.Lane.{Lane};
ghost use Rattle.nm_actor.specs.Lanes.{LaneMove};
ghost use Rattle.nm_actor.specs.Turns.{Turns, IsDrained};
ghost use Rattle.nm_actor.specs.Chairs.{ChairState, lane_of};
ghost use Rattle.nm_actor.specs.Boards.{IsRest, puts_of, takes_of};
ghost use Rattle.nm_threads.specs.Driven.{AreMade};

use nm_actor::Tells;

/// Where a chair was given rest, and then turns were made on it in which a lane was found empty and in which nothing was done in the
/// lane since: each page was taken from the lane as often as it was put into it, by all actors together.
pub fn a_drained_lane_was_emptied<S: Tells>(_chair: &S)
    ensures { (capacity : ℕ) (lists : List (List LaneMove)) (lane : Lane) (old new : ChairState S.Name) (turns : Turns)
        → IsSomeAnd (lane_of lane old).held (IsRest capacity (lists ++ (lane_of lane old).moves ∷ []))
        → AreMade old turns new → IsDrained lane turns
        → (page : ℕ) → takes_of page (lists ++ (lane_of lane new).moves ∷ []) ≡ puts_of page (lists ++ (lane_of lane new).moves ∷ []) }
{}
