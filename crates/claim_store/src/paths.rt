//! The places that a code is looked for at, one after another.

ghost use Rattle.std.specs.Prelude.{◌≡◌, ◌≢◌, ℕ, ◌+◌, ◌%◌, ◌^◌, ◌<◌};
ghost use Rattle.cover_core.specs.Core.{Fits, home_of, path};
ghost use Rattle.cover_core.specs.Effects.{looks};
ghost use Rattle.claim_store.specs.Rule.{asked, full, Agrees};
ghost use Rattle.claim_store.specs.Seen.{IsPassOf};

use crate::pass::Pass;
use crate::rule::SeePlace;
use crate::store::Store;
use cover_core::Query;

impl<Q: Query> Store<Q> {
    // Where a code's path begins.
    pub(crate) fn home(&self, code: u64) -> usize
        ensures home { result ≡ home_of self.now.facts.width code }
        ensures within { result < self.now.facts.width }
    {
        (code.wrapping_mul(0x9E37_79B9_7F4A_7C15) >> self.shift) as usize
    }

    // The place after one on a path, which goes on with the first after the last.
    pub(crate) fn place_after(&self, place: usize) -> usize
        requires { place < self.now.facts.width }
        ensures next { result ≡ (place + 1) % self.now.facts.width }
        ensures within { result < self.now.facts.width }
    {
        let width = self.width;
        if place + 1 < width { place + 1 } else { 0 }
    }

    // Loads a word of the table.
    pub(crate) fn see_place(&self, pass: &mut Pass<Q>, place: usize) -> u64
        requires pass { IsPassOf Q.Question.items Q.Question.size Q.Question.Fails self.now pass.old }
        requires place { place < self.now.facts.width }
        ensures kept { IsPassOf Q.Question.items Q.Question.size Q.Question.Fails self.now pass.new }
        ensures view { pass.new.view ≡ looks place result pass.old.view }
        ensures agrees { Agrees self.now.facts pass.old.view place result }
        ensures sound { result ≢ 0 → Fits (asked Q.Question.items Q.Question.size Q.Question.Fails self.now.facts)
            (full Q.Question.items Q.Question.size self.now.facts.query.value) result }
    {
        self.table
            .shared
            .load::<SeePlace>(&mut pass.seat, place + 1)
    }
}
