//! A caller's seat.

use crate::rule::Doing;
use atomic_table::Seat;
use std::marker::Model;

/// A caller's seat at a store. Contracts see what it knows: its parts of the 64, the cursor that it saw last, its open
/// ranges, the codes that it saw with their places, those that it made, how many moves it made, and where it found
/// nothing.
#[derive(Drop)]
pub struct Pass<Q> {
    pub(crate) seat: Seat<(u64, u64), Doing<Q>>,
}

impl<Q> Model for Pass<Q> {
    ghost use Rattle.std.specs.Prelude.{◌≡◌, []};
    ghost use Rattle.claim_store.specs.Seen.{PassSeen};

    ghost Value = { PassSeen Q };

    ghost view = { λ p. record {
      table = p.seat.table_id;
      number = p.seat.id;
      facts = p.seat.me.0.facts;
      giving = p.seat.me.0.giving;
      view = p.seat.me.0.view;
    } };

    ghost invariant = { λ p. p.seat.me.1 ≡ [] };
}
