//! The two faults, each as a part of an actor's work.

ghost use Rattle.std.specs.Prelude.{◌≡◌};
ghost use Rattle.nm_shadow_fault.specs.Granting.{fault_made};
ghost use Rattle.nm_fault.specs.Runs.{missing_of, IsNewMissing, shadow_of, IsNewShadow};

use nm_base::Geometry;
use nm_compose::Composite;
use nm_event::{Action, Reply, Step};
use nm_missing_fault::{MissingFault, MissingPiece};
use nm_part::{Part, Piece};
use nm_shadow_fault::{FaultEnd, FaultMade, FaultPiece, ShadowFault};

/// The fault on a virtual page that is not mapped.
#[derive(Drop)]
pub struct MissingTask<'a> {
    run: Composite<MissingFault<'a>, MissingPiece<'a>>,
}

impl<'a> MissingTask<'a> {
    /// The fault on this virtual page. Where it begins the virtual page is mapped to the page, and the view holds no turn and
    /// has no operation.
    pub fn new(geometry: &'a Geometry, made: FaultMade) -> MissingTask<'a>
        ensures made { missing_of result ≡ fault_made geometry.now made }
        ensures new { IsNewMissing result }
    {
        MissingTask {
            run: Composite::new(MissingFault::new(geometry, made)),
        }
    }
}

impl<'a> Part for MissingTask<'a> {
    type Outcome = FaultEnd;

    type Made = (Geometry, FaultMade);

    ghost use Rattle.nm_part.specs.Parts.{NothingTold};
    ghost use Rattle.nm_shadow_fault.specs.Granting.{MayFault, IsFaulted};
    ghost use Rattle.nm_missing_fault.specs.MissingFault.{IsMissingFault};
    ghost use Rattle.nm_fault.specs.Runs.{missing_of, IsNewMissing, AwaitsMissing};

    ghost made = { missing_of };

    ghost is_new = { IsNewMissing };

    ghost may_begin = { MayFault };

    ghost shape = { λ made. IsMissingFault made.1 };

    ghost leaves = { λ made g view end left. IsFaulted view left };

    ghost awaits = { AwaitsMissing };

    ghost ended = { λ t. NothingTold };

    fn first(&mut self) -> Step<FaultEnd> {
        self.run.first()
    }

    fn after(&mut self, reply: Reply) -> Step<FaultEnd> {
        self.run.after(reply)
    }
}

impl<'a> Piece for MissingTask<'a> {
    fn start(&mut self) -> Action {
        self.run.start()
    }
}

/// The fault on a virtual page that is read-only for its shadow.
#[derive(Drop)]
pub struct ShadowTask<'a> {
    run: Composite<ShadowFault<'a>, FaultPiece>,
}

impl<'a> ShadowTask<'a> {
    /// The fault on this virtual page. Where it begins the virtual page is mapped to the page, and the view holds no turn and
    /// has no operation.
    pub fn new(geometry: &'a Geometry, made: FaultMade) -> ShadowTask<'a>
        ensures made { shadow_of result ≡ fault_made geometry.now made }
        ensures new { IsNewShadow result }
    {
        ShadowTask {
            run: Composite::new(ShadowFault::new(geometry, made)),
        }
    }
}

impl<'a> Part for ShadowTask<'a> {
    type Outcome = FaultEnd;

    type Made = (Geometry, FaultMade);

    ghost use Rattle.nm_part.specs.Parts.{NothingTold};
    ghost use Rattle.nm_shadow_fault.specs.ShadowFault.{IsShadowFault};
    ghost use Rattle.nm_shadow_fault.specs.Granting.{MayFault, IsFaulted};
    ghost use Rattle.nm_fault.specs.Runs.{shadow_of, IsNewShadow, AwaitsShadow};

    ghost made = { shadow_of };

    ghost is_new = { IsNewShadow };

    ghost may_begin = { MayFault };

    ghost shape = { λ made. IsShadowFault made.1 };

    ghost leaves = { λ made g view end left. IsFaulted view left };

    ghost awaits = { AwaitsShadow };

    ghost ended = { λ t. NothingTold };

    fn first(&mut self) -> Step<FaultEnd> {
        self.run.first()
    }

    fn after(&mut self, reply: Reply) -> Step<FaultEnd> {
        self.run.after(reply)
    }
}

impl<'a> Piece for ShadowTask<'a> {
    fn start(&mut self) -> Action {
        self.run.start()
    }
}
