//! The chair of a machine that has no page, no tier and no processor: a smallest chair.

ghost use Rattle.std.specs.Prelude.{◌≡◌, false};
ghost use Rattle.nm_io.specs.Count.{next_count};

use nm_actor::{PagePort, Stepper, Tells};
use nm_event::{Action, Full, Lane, Reply};
use std::sync::Wait;

/// How often a lane refused.
#[derive(Drop)]
pub(super) struct Refused {
    pub(super) fulls: u64,
    pub(super) empties: u64,
}

/// The chair of an actor.
#[derive(Drop)]
pub(super) struct Alone {
    pub(super) actor: u32,
    pub(super) bumps: u64,
    pub(super) rested: bool,
    pub(super) candidates: Refused,
    pub(super) pending: Refused,
}

impl Alone {
    pub(super) fn new(actor: u32) -> Alone
        ensures { result ≡ record { actor = actor; bumps = 0; rested = false; candidates = record { fulls = 0; empties = 0 }; pending = record { fulls = 0; empties = 0 } } }
    {
        Alone {
            actor,
            bumps: 0,
            rested: false,
            candidates: Refused {
                fulls: 0,
                empties: 0,
            },
            pending: Refused {
                fulls: 0,
                empties: 0,
            },
        }
    }
}

impl Tells for Alone {
    type Name = u32;

    ghost use Rattle.nm_actor_rows.specs.Alone.{lone_lane, lone_state};

    ghost state = { λ c. lone_state c.actor c.bumps c.rested (lone_lane c.rested c.candidates.fulls c.candidates.empties) (lone_lane c.rested c.pending.fulls c.pending.empties) };
}

impl Stepper for Alone {
    fn step(&mut self, action: Action) -> Reply {
        match action {
            Action::Bump => {
                let old = self.bumps;
                self.bumps += 1;
                Reply::Word(old)
            }
            _ => unreachable!(),
        }
    }
}

/// Counts once more; the greatest count stays.
fn rise(count: &mut u64)
    ensures { count.new ≡ next_count count.old }
{
    *count = count.saturating_add(1);
}

impl PagePort for Alone {
    fn put<T: Wait>(&mut self, _rt: &T, lane: Lane, _page: u32) -> Result<(), Full> {
        match lane {
            Lane::Candidates => rise(&mut self.candidates.fulls),
            Lane::Pending => rise(&mut self.pending.fulls),
        }
        Err(Full)
    }

    fn take<T: Wait>(&mut self, _rt: &T, lane: Lane) -> Option<u32> {
        match lane {
            Lane::Candidates => rise(&mut self.candidates.empties),
            Lane::Pending => rise(&mut self.pending.empties),
        }
        None
    }
}

#[test]
fn refuses_every_page(rt: HostRuntime) {
    let mut chair = Alone::new(1);
    assert!(rt; chair.put(&rt, Lane::Candidates, 3).is_err());
    assert!(rt; chair.take(&rt, Lane::Pending).is_none());
    assert!(rt; chair.candidates.fulls == 1 && chair.pending.empties == 1);
}
