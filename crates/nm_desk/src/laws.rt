//! What a part does at its desk its actor may do, and the rest is nothing to it.

ghost use Rattle.std.specs.Prelude.{◌≡◌};
ghost use Rattle.nm_desk.specs.Desk.{DeskAllows, DeskFits, DeskFollows, DeskStays, QuietKeeps};

/// A quiet action that the desk permits is permitted by the view, and each reply that then fits it fits it at the desk.
pub fn a_desk_allows_what_its_view_allows()
    ensures allows { DeskAllows }
    ensures fits { DeskFits }
{}

/// A quiet action changes the desk as it changes the view, and every other action leaves the desk as it is.
pub fn a_desk_follows_its_view()
    ensures quiet { DeskFollows }
    ensures loud { DeskStays }
{}

/// A quiet action leaves the translations and the acknowledgement of its view as they are.
pub fn a_quiet_action_keeps_the_translations()
    ensures { QuietKeeps }
{}
