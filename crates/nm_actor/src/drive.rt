//! A part driven to its end.

ghost use Rattle.std.specs.Prelude.{◌≡◌};
ghost use Rattle.nm_actor.specs.Drives.{IsDriven};

use crate::chair::Stepper;
use nm_event::Step;
use nm_part::Part;
use std::sync::Wait;

/// Makes the actions of a part on a chair until the part is over. It may wait, since a part may have to ask again for ever.
/// Conditions: the part has given no action yet, and it may begin in the chair's view.
pub fn run_part<T: Wait, P: Part, S: Stepper>(rt: &T, part: &mut P, chair: &mut S) -> P::Outcome
    requires new { P.is_new part.old }
    requires begin { P.may_begin (P.made part.old) (S.state chair.old).geometry (S.state chair.old).view }
    ensures made { P.made part.new ≡ P.made part.old }
    ensures driven { IsDriven (P.shape (P.made part.old)) (P.leaves (P.made part.old)) (P.ended part.new) (S.state chair.old) (S.state chair.new) result }
{
    let mut step = part.first();
    for _ in rt.forever() {
        match step {
            Step::Over(outcome) => return outcome,
            Step::Do(action) => {
                let reply = chair.step(action);
                step = part.after(reply);
            }
        }
    }
    unreachable!()
}
