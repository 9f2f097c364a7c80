//! The state of the store: the cursor, the words of the table, and what each seat knows.

ghost use Rattle.std.specs.Prelude.{◌≡◌};

use crate::rows::{Numbers, Pairs, Ranges};
use std::marker::Model;

/// What a seat knows.
#[derive(Drop)]
pub struct View {
    /// How many of the 64 parts it has. A seat with none is spent.
    pub parts: u16,
    /// The cursor, as it saw it last.
    pub cursor: u64,
    /// The ranges that it claimed and hasn't settled.
    pub held: Ranges,
    /// The places that it found filled, each with the code there.
    pub seen: Pairs,
    /// The codes that it stored, and those that it gained by a join.
    pub made: Numbers,
    /// How many steps it took.
    pub moves: u64,
    /// The places that it found empty, each with the number of the last step that did.
    pub bare: Pairs,
}

/// What each seat knows.
#[derive(Drop)]
pub struct Views {
    pub(crate) items: Vec<View>,
}

impl Model for Views {
    ghost use Rattle.std.specs.Prelude.{List};
    ghost use Rattle.cover_core.specs.declared.state.View.{View as Seen};

    ghost Value = { List Seen };

    ghost view = { λ v. v.items.items };
}

impl Views {
    /// The seats with these views, in their order.
    pub fn from_vec(items: Vec<View>) -> Views
        ensures { result ≡ items.items }
    {
        Views { items }
    }

    /// The views, to be read.
    pub fn as_slice(&self) -> &[View]
        ensures { self.now ≡ result.now }
    {
        &self.items
    }

    /// The views, given back.
    pub fn into_vec(self) -> Vec<View>
        ensures { self ≡ result.items }
    {
        self.items
    }
}

/// A state of the store. The seats are numbered from 0 in the order of their views.
#[derive(Drop)]
pub struct State {
    /// All ranks below it were claimed.
    pub cursor: u64,
    /// The table: 0 where a place is empty, else the code of a failing tuple.
    pub words: Numbers,
    pub views: Views,
}
