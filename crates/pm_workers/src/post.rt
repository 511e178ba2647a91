// A station with the number of deliveries that it may still make, as the turns have it.
ghost use Rattle.std.specs.Prelude.{refl};
ghost use Rattle.pm_workers.specs.Posts.{FitsPost};

use crate::seats::Player;
use crate::{Station, Turned};
use pm_io::Gate;
use pm_turn::{Fit, Marked};
use std::alloc::Global;

#[derive(Drop)]
pub struct Post<S> {
    pub station: S,
    pub left: u64,
}

impl<S: Station> Marked for Post<S> {
    ghost fits = { FitsPost S.story S.follows };
}

impl<S: Station> Fit for Post<S> {
    ghost same = { λ x. (S.reflexive x.station, refl) };
}

impl<S: Station> Player for Post<S> {
    // One turn of the station, before which the gate is asked, where it may still make a delivery.
    fn go<G: Gate>(&mut self, alloc: Global, gate: &G, worker: u32) -> Turned {
        if self.left == 0 {
            return Turned::Nothing;
        }
        gate.at(worker, self.station.number());
        let turned = self.station.turn(alloc);
        if matches!(turned, Turned::Delivered) {
            self.left -= 1;
        }
        turned
    }
}
