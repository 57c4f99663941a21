//! The board of a machine that has no page, no tier and no processor, which has two actors.

use super::chairs::Alone;
use nm_actor::Board;
use std::sync::Wait;

/// The seat of an actor.
#[derive(Clone, Copy)]
struct LoneSeat {
    sat: bool,
    // After so many bumps.
    stood: Option<u64>,
}

/// A board with the seats of two actors, and lanes without room.
#[derive(Drop)]
struct LoneBoard {
    first: LoneSeat,
    second: LoneSeat,
    rested: bool,
}

impl Board for LoneBoard {
    type Name = u32;

    type Chair = Alone;

    ghost use Rattle.nm_actor_rows.specs.Alone.{lone_board, lone_seats, lone_seat};

    ghost board = { λ b. lone_board (lone_seats (lone_seat b.first.sat b.first.stood) (lone_seat b.second.sat b.second.stood)) b.rested };

    fn sit<T: Wait>(&mut self, _rt: &T, actor: u32) -> Alone {
        let seated = LoneSeat {
            sat: true,
            stood: None,
        };
        if actor == 0 {
            self.first = seated;
        } else {
            self.second = seated;
        }
        Alone::new(actor)
    }

    fn rest<T: Wait>(&mut self, _rt: &T, chair: &mut Alone) {
        self.rested = true;
        chair.rested = true;
    }

    fn stand<T: Wait>(&mut self, _rt: &T, chair: Alone) {
        if chair.actor == 0 {
            self.first.stood = Some(chair.bumps);
        } else {
            self.second.stood = Some(chair.bumps);
        }
    }
}

#[test]
fn an_actor_sits_and_stands(rt: HostRuntime) {
    let empty = LoneSeat {
        sat: false,
        stood: None,
    };
    let mut board = LoneBoard {
        first: empty,
        second: empty,
        rested: false,
    };
    let mut chair = board.sit(&rt, 1);
    board.rest(&rt, &mut chair);
    board.stand(&rt, chair);
    assert!(rt; board.second.stood == Some(0));
}
