//! Rows of actions, of what an actor has drawn, and of what is counted.
use super::all_hold;
use nm_action::{AckTo, Action, ActionKind, Cell, Spent, Tally};

#[test]
fn tells_kinds(rt: HostRuntime) {
    let load = Action::Load { vpage: 1, word: 2 };
    let off = Action::Ack { to: AckTo::Off };
    let home = Action::Read {
        page: 0,
        cell: Cell::Home(0),
    };
    all_hold(
        &rt,
        &[
            load.kind() == ActionKind::Load,
            Action::Poll.kind() == ActionKind::Poll,
            off.kind() == ActionKind::Ack,
            home.kind() == ActionKind::Read,
        ],
    );
}

#[test]
fn counts_bumps_and_raises(rt: HostRuntime) {
    let mut spent = Spent::default();
    spent.count(Action::Bump);
    spent.count(Action::Raise { vpage: 3 });
    spent.count(Action::Bump);
    spent.count(Action::Poll);
    all_hold(&rt, &[spent.bumps == 2, spent.raises == 1]);
}

#[test]
fn adds_tallies(rt: HostRuntime) {
    let one = Tally {
        demand: 3,
        words: 2,
        reclaimed: u64::MAX,
        ..Tally::default()
    };
    let other = Tally {
        demand: 4,
        flushes: 5,
        reclaimed: 1,
        ..Tally::default()
    };
    let sum = one.plus(other);
    all_hold(
        &rt,
        &[
            sum.demand == 7,
            sum.words == 2,
            sum.flushes == 5,
            sum.reclaimed == u64::MAX,
            sum.alias == 0,
        ],
    );
}
