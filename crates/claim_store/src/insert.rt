//! The insertion of a failing tuple.

ghost use Rattle.std.specs.Prelude.{◌≡◌, ◌≢◌, ℕ, ◌<◌};
ghost use Rattle.tuple_order.specs.Codes.{code_of};
ghost use Rattle.cover_core.specs.Core.{path, times};
ghost use Rattle.cover_core.specs.Effects.{looks, publishes, Due, Open};
ghost use Rattle.claim_store.specs.Answers.{Answers};
ghost use Rattle.claim_store.specs.Rule.{asked, Agrees, Tight};
ghost use Rattle.claim_store.specs.Seen.{IsPassOf};

use crate::pass::Pass;
use crate::rule::Publish;
use crate::store::Store;
use cover_core::Query;
use tuple_order::Tuple;

/// What came of an insertion.
#[derive(Clone, Copy, Debug, PartialEq, Eq, Drop)]
pub enum Insert {
    /// This call stored the tuple.
    Kept,
    /// It was stored before.
    Already,
    /// Each word was found filled with another code.
    Full,
}

impl<Q: Query> Store<Q> {
    /// Stores a failing tuple whose rank lies in a range that the pass has open. It finds the table full only where it
    /// met another tuple in each word.
    pub fn insert(&self, pass: &mut Pass<Q>, t: Tuple) -> Insert
        requires pass { IsPassOf Q.Question.items Q.Question.size Q.Question.Fails self.now pass.old }
        requires fails { Q.Question.Fails self.now.facts.query.value t }
        requires open { Open (asked Q.Question.items Q.Question.size Q.Question.Fails self.now.facts) t pass.old.view }
        ensures kept { IsPassOf Q.Question.items Q.Question.size Q.Question.Fails self.now pass.new }
        ensures answer { Answers (asked Q.Question.items Q.Question.size Q.Question.Fails self.now.facts)
            self.now.facts.width (code_of t) pass.old.view pass.new.view result }
    {
        self.insert_code(pass, t.code())
    }

    // Tries the places along the code's path, until it stands at one.
    fn insert_code(&self, pass: &mut Pass<Q>, code: u64) -> Insert
        requires pass { IsPassOf Q.Question.items Q.Question.size Q.Question.Fails self.now pass.old }
        requires code { code ≢ 0 }
        requires due { Due (asked Q.Question.items Q.Question.size Q.Question.Fails self.now.facts)
            self.now.facts.width pass.old.view 0 code }
        ensures kept { IsPassOf Q.Question.items Q.Question.size Q.Question.Fails self.now pass.new }
        ensures answer { Answers (asked Q.Question.items Q.Question.size Q.Question.Fails self.now.facts)
            self.now.facts.width code pass.old.view pass.new.view result }
    {
        let mut place = self.home(code);
        for step in 0..self.width {
            let found = self.publish(pass, step, place, code);
            if found == 0 {
                return Insert::Kept;
            }
            if found == code {
                return Insert::Already;
            }
            place = self.place_after(place);
        }
        Insert::Full
    }

    // Stores a code at a place, so many steps along its path, where that is empty, and answers what was there.
    fn publish(&self, pass: &mut Pass<Q>, step: usize, place: usize, code: u64) -> u64
        requires pass { IsPassOf Q.Question.items Q.Question.size Q.Question.Fails self.now pass.old }
        requires place { place ≡ path self.now.facts.width code step }
        requires within { place < self.now.facts.width }
        requires short { step < self.now.facts.width }
        requires code { code ≢ 0 }
        requires due { Due (asked Q.Question.items Q.Question.size Q.Question.Fails self.now.facts)
            self.now.facts.width pass.old.view step code }
        ensures kept { IsPassOf Q.Question.items Q.Question.size Q.Question.Fails self.now pass.new }
        ensures new { result ≡ 0 →
            (pass.new.view ≡ publishes place code pass.old.view) × (times code pass.old.view.made ≡ 0) }
        ensures old { result ≢ 0 → pass.new.view ≡ looks place result pass.old.view }
        ensures tight { result ≢ 0 → Tight (asked Q.Question.items Q.Question.size Q.Question.Fails self.now.facts)
            self.now.facts.width pass.new.view code }
    {
        self.table
            .shared
            .compare_exchange::<Publish>(&mut pass.seat, place + 1, 0, code)
    }
}
