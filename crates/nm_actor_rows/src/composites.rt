//! Rows of composites and of choices of pieces.

ghost use Rattle.std.specs.Prelude.{IfOk};
ghost use Rattle.nm_base.specs.Geometry.{IsGeometry};

use nm_base::{Geometry, VPage};
use nm_compose::{Act, Composite, Or};
use nm_event::{Action, Reply, Step};
use nm_part::Part;
use nm_survey::{Survey, SurveyMade};
use std::alloc::Global;
use std::test::Fail;

/// One virtual page, and tiers of 4 and of 8 frames.
pub(crate) fn geometry(alloc: Global) -> Result<Geometry, Fail>
    ensures { IfOk result IsGeometry }
{
    let vpage = VPage {
        page: 0,
        writable: true,
    };
    Ok(Geometry::new(alloc, 4, &[4, 8], 1, &[Some(vpage)])?)
}

#[test]
fn a_survey_locks_looks_and_unlocks(rt: HostRuntime) -> Result<(), Fail> {
    let g = geometry(rt.alloc())?;
    let mut part: Or<Act, Composite<Survey, Act>> = Or::Other(Composite::new(Survey::new(&g, 0)));
    let Step::Do(Action::Lock { page: 0 }) = part.first() else {
        panic!(rt; "no lock")
    };
    let Step::Do(Action::Look { vpage: 0 }) = part.after(Reply::Done) else {
        panic!(rt; "no look")
    };
    let Step::Do(Action::Unlock { page: 0 }) = part.after(Reply::Word(0)) else {
        panic!(rt; "no unlock")
    };
    let Step::Over(Or::Other(Some(0))) = part.after(Reply::Done) else {
        panic!(rt; "not over with the word")
    };
    Ok(())
}

#[test]
fn a_survey_of_a_busy_page_ends(rt: HostRuntime) -> Result<(), Fail> {
    let g = geometry(rt.alloc())?;
    let mut part = Composite::new(Survey::new(&g, 0));
    let Step::Do(Action::Lock { page: 0 }) = part.first() else {
        panic!(rt; "no lock")
    };
    let Step::Over(None) = part.after(Reply::Busy(2)) else {
        panic!(rt; "not over with no word")
    };
    let SurveyMade { page, vpages } = part.plan().made();
    assert!(rt; page == 0 && vpages == 1);
    Ok(())
}

#[test]
fn an_action_ends_with_its_reply(rt: HostRuntime) {
    let mut part: Or<Act, Composite<Survey, Act>> = Or::This(Act::new(Action::Bump));
    let Step::Do(Action::Bump) = part.first() else {
        panic!(rt; "no bump")
    };
    let Step::Over(Or::This(Reply::Word(6))) = part.after(Reply::Word(6)) else {
        panic!(rt; "not over with the reply")
    };
}
