//! How a pass is cut in two, and how two become one.

ghost use Rattle.std.specs.Prelude.{◌≡◌, ℕ, ◌<◌, ◌≤◌};
ghost use Rattle.cover_core.specs.Effects.{knows, split_left, split_right, joins};
ghost use Rattle.claim_store.specs.Rule.{full};
ghost use Rattle.claim_store.specs.Seen.{IsPassOf, IsSeatOf};

use crate::pass::Pass;
use crate::rule::{Cut, Glue, Intend};
use crate::store::Store;
use cover_core::Query;

impl<Q: Query> Store<Q> {
    /// Makes another pass, with so many of this one's parts. It has seen what this one has seen, and has no range open
    /// and no code made.
    pub fn split(&self, pass: &mut Pass<Q>, parts: u16) -> Pass<Q>
        requires pass { IsPassOf Q.Question.items Q.Question.size Q.Question.Fails self.now pass.old }
        requires some { 1 ≤ parts }
        requires fewer { parts < pass.old.view.parts }
        ensures kept { IsPassOf Q.Question.items Q.Question.size Q.Question.Fails self.now pass.new }
        ensures made { IsPassOf Q.Question.items Q.Question.size Q.Question.Fails self.now result }
        ensures old { (cursor : ℕ) × (pass.old.view.cursor ≤ cursor)
            × (pass.new.view ≡ split_left parts (knows cursor pass.old.view)) }
        ensures new { (cursor : ℕ) × (pass.old.view.cursor ≤ cursor)
            × (result.view ≡ split_right parts (knows cursor pass.old.view)) }
    {
        self.intend(pass, parts as u64);
        self.cut(pass)
    }

    // Says how many parts the pass is about to give.
    fn intend(&self, pass: &mut Pass<Q>, parts: u64)
        requires pass { IsPassOf Q.Question.items Q.Question.size Q.Question.Fails self.now pass.old }
        ensures kept { IsPassOf Q.Question.items Q.Question.size Q.Question.Fails self.now pass.new }
        ensures giving { pass.new.giving ≡ parts }
        ensures view { (cursor : ℕ) × (pass.old.view.cursor ≤ cursor) × (pass.new.view ≡ knows cursor pass.old.view) }
    {
        self.table
            .shared
            .compare_exchange_with::<Intend>(&mut pass.seat, 0, 0, 0, &(parts, 0));
    }

    // Gives these parts to another pass.
    fn cut(&self, pass: &mut Pass<Q>) -> Pass<Q>
        requires pass { IsPassOf Q.Question.items Q.Question.size Q.Question.Fails self.now pass.old }
        requires giving { (0 < pass.old.giving) × (pass.old.giving < pass.old.view.parts) }
        ensures kept { IsPassOf Q.Question.items Q.Question.size Q.Question.Fails self.now pass.new }
        ensures made { IsPassOf Q.Question.items Q.Question.size Q.Question.Fails self.now result }
        ensures old { pass.new.view ≡ split_left pass.old.giving pass.old.view }
        ensures new { result.view ≡ split_right pass.old.giving pass.old.view }
    {
        let seat = self.table.shared.split_seat::<Cut>(&mut pass.seat);
        Pass { seat }
    }

    /// Takes another pass in: its parts, its open ranges, and what it has seen and made. Then it looks at the cursor.
    pub fn join(&self, pass: &mut Pass<Q>, other: Pass<Q>)
        requires pass { IsPassOf Q.Question.items Q.Question.size Q.Question.Fails self.now pass.old }
        requires other { IsPassOf Q.Question.items Q.Question.size Q.Question.Fails self.now other }
        ensures kept { IsPassOf Q.Question.items Q.Question.size Q.Question.Fails self.now pass.new }
        ensures view { (cursor : ℕ) × ((joins pass.old.view other.view).cursor ≤ cursor)
            × (cursor ≤ full Q.Question.items Q.Question.size self.now.facts.query.value)
            × (pass.new.view ≡ knows cursor (joins pass.old.view other.view)) }
    {
        self.glue(pass, other);
        // What both have seen together is known to be at one place each by a look at the table.
        self.see_cursor(pass);
    }

    // Takes another pass in.
    fn glue(&self, pass: &mut Pass<Q>, other: Pass<Q>)
        requires pass { IsSeatOf self.now pass.old }
        requires other { IsSeatOf self.now other }
        ensures seat { IsSeatOf self.now pass.new }
        ensures view { pass.new.view ≡ joins pass.old.view other.view }
    {
        let Pass { seat } = other;
        self.table.shared.join_seat::<Glue>(&mut pass.seat, seat);
    }
}
