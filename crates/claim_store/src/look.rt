//! The look for a stored subset of a tuple.

ghost use Rattle.std.specs.Prelude.{◌≡◌, ◌≢◌, ℕ, ◌^◌, ◌≤◌, IsTrue, false, length};
ghost use Rattle.tuple_model.specs.Limits.{most_items, most_size};
ghost use Rattle.tuple_model.specs.Tuples.{IsTuple};
ghost use Rattle.cover_core.specs.Core.{IsFailing};
ghost use Rattle.cover_core.specs.Effects.{Further, Looks, Seen, ShowsAbsent, Unseen};
ghost use Rattle.claim_store.specs.Rule.{asked};
ghost use Rattle.claim_store.specs.Seen.{IsPassOf};

use crate::pass::Pass;
use crate::store::Store;
use cover_core::Query;
use tuple_order::{Tuple, subset};

impl<Q: Query> Store<Q> {
    /// A stored subset of a tuple, which may be the tuple itself; none where each subset was absent at some moment of
    /// this call, and the pass had seen none before.
    pub fn look(&self, pass: &mut Pass<Q>, t: &Tuple) -> Option<Tuple>
        requires pass { IsPassOf Q.Question.items Q.Question.size Q.Question.Fails self.now pass.old }
        ensures kept { IsPassOf Q.Question.items Q.Question.size Q.Question.Fails self.now pass.new }
        ensures further { Further self.now.facts.width pass.old.view pass.new.view }
        ensures answer { Looks (asked Q.Question.items Q.Question.size Q.Question.Fails self.now.facts)
            self.now.facts.width t.now pass.old.view pass.new.view result }
    {
        let codes = t.subset_codes();
        for k in 0..subset_count(t) {
            if self.look_code(pass, codes[k]) {
                return Some(subset(k as u8, t));
            }
        }
        None
    }

    // Whether a code is stored, looked for along its path.
    fn look_code(&self, pass: &mut Pass<Q>, code: u64) -> bool
        requires pass { IsPassOf Q.Question.items Q.Question.size Q.Question.Fails self.now pass.old }
        requires code { code ≢ 0 }
        ensures kept { IsPassOf Q.Question.items Q.Question.size Q.Question.Fails self.now pass.new }
        ensures further { Further self.now.facts.width pass.old.view pass.new.view }
        ensures found { IsTrue result → Seen code pass.new.view }
        ensures sound { IsTrue result →
            IsFailing (asked Q.Question.items Q.Question.size Q.Question.Fails self.now.facts) code }
        ensures absent { result ≡ false →
            ShowsAbsent self.now.facts.width code pass.old.view.moves pass.new.view }
        ensures unseen { result ≡ false → Unseen code pass.old.view }
    {
        let mut place = self.home(code);
        for _step in 0..self.width {
            let found = self.see_place(pass, place);
            if found == code {
                return true;
            }
            if found == 0 {
                return false;
            }
            place = self.place_after(place);
        }
        false
    }
}

// How many subsets a tuple has.
fn subset_count(t: &Tuple) -> usize
    ensures count { result ≡ 2 ^ length t.now }
    ensures few { result ≤ 64 }
    ensures tuple { IsTuple most_items most_size t.now }
{
    1 << t.items().len()
}
