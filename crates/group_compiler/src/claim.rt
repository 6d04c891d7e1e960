//! A worker's right to draw group numbers.

ghost use Rattle.std.specs.Prelude.{◌≡◌, []};

use crate::steps::View;
use atomic_table::Seat;
use std::marker::Model;

/// A right to draw, with the numbers that it has drawn, which contracts alone see. It has no bytes.
#[derive(Drop)]
pub struct Claim {
    pub(crate) seat: Seat<u8, View>,
    ghost bare: { seat.me.1 ≡ [] },
}

impl Model for Claim {
    ghost use Rattle.group_compiler.specs.Claimed.{Claimed};
    ghost use Rattle.group_compiler.specs.inside.Claimed.{claimed};

    ghost Value = { Claimed };

    ghost view = { λ c. claimed c.seat.table_id c.seat.me.0.drawn c.seat.me.0.room };
}
