//! The laws of the shared store, over any question: what its states, its steps and its runs are good for.

ghost use Rattle.std.specs.Prelude.{◌≡◌, ◌≢◌, ◌<◌, ◌≤◌, ◌↔◌, ◌⊎◌, ℕ, List, [], ◌∷◌, length, AllPairs, Contains};
ghost use Rattle.tuple_model.specs.Limits.{most_items, most_size};
ghost use Rattle.tuple_model.specs.Tuples.{IsTuple, IsBefore};
ghost use Rattle.tuple_model.specs.Minimal.{IsMinimal, IsAnswer};
ghost use Rattle.tuple_order.specs.Codes.{code_of};
ghost use Rattle.tuple_order.specs.declared.ranks.Range.{Range as Ranked};
ghost use Rattle.cover_core.specs.Core.{Any, CoreOk, Has, IsAt, IsFailing, IsLeast, IsPlaceBefore, IsRangeBefore};
ghost use Rattle.cover_core.specs.Core.{ListsRise, ManyFail, Quiet, Rises, Saw, question_of, total_of};
ghost use Rattle.cover_core.specs.Effects.{Fresh, PassedBy, Shows, ShowsAbsent, put_bare, put_number, put_numbers};
ghost use Rattle.cover_core.specs.Effects.{put_pair, put_pairs, take_out, settles};
ghost use Rattle.cover_core.specs.Laws.{HasBoth, HasView, Keeps, NotedBy, StandsIn};
ghost use Rattle.cover_core.specs.Machine.{Allowed, IsRun, after, opening};
ghost use Rattle.cover_core.specs.Past.{IsAbsent, NeverStored, WasAbsent};
ghost use Rattle.cover_core.specs.declared.state.State.{State};
ghost use Rattle.cover_core.specs.declared.state.View.{View as Seen};
ghost use Rattle.cover_core.specs.declared.kind.At.TheVariants.{Cursor, Place};
ghost use Rattle.cover_core.specs.declared.kind.Kind.{Kind};
ghost use Rattle.cover_core.specs.declared.kind.Kind.TheVariants.{Split, Join, Claim, Look, Publish, Settle};

use tuple_model::Failing;

/// In the opening state all holds that always holds, for a table of any width.
pub fn opening_law<F: Failing>()
    ensures { (items size width : ℕ) → CoreOk (question_of items size F.Fails) (opening width) }
{}

/// Each kind of step, where it is allowed, keeps what always holds. It does so from every state in which that holds,
/// whether or not a run leads there.
pub fn step_law<F: Failing>()
    ensures split { (items size parts : ℕ) → Keeps (question_of items size F.Fails) (Split parts) }
    ensures join { (items size other : ℕ) → Keeps (question_of items size F.Fails) (Join other) }
    ensures claim { (items size to : ℕ) → Keeps (question_of items size F.Fails) (Claim to) }
    ensures look_at_cursor { (items size : ℕ) → Keeps (question_of items size F.Fails) (Look Cursor) }
    ensures look_at_place { (items size place : ℕ) → Keeps (question_of items size F.Fails) (Look (Place place)) }
    ensures publish { (items size place : ℕ) (t : List ℕ) → Keeps (question_of items size F.Fails) (Publish place t) }
    ensures settle { (items size : ℕ) (range : Ranked) → Keeps (question_of items size F.Fails) (Settle range) }
    ensures any { (items size : ℕ) (kind : Kind) → Keeps (question_of items size F.Fails) kind }
{}

/// A run keeps what always holds. So it holds in each state that a run from the opening state leads to.
pub fn run_law<F: Failing>()
    ensures kept { (items size : ℕ) (steps : List (ℕ × Kind)) (s end : State) →
        CoreOk (question_of items size F.Fails) s → IsRun (question_of items size F.Fails) steps s end →
        CoreOk (question_of items size F.Fails) end }
    ensures reached { (items size width : ℕ) (steps : List (ℕ × Kind)) (end : State) →
        IsRun (question_of items size F.Fails) steps (opening width) end → CoreOk (question_of items size F.Fails) end }
{}

/// Where nothing is left to do, the stored tuples within which no other one is stored are the answer: they are exactly
/// the minimal failing ones. The answer has them as its members, and a list that has them, in order, is the answer. So
/// it is at the end of each run from the opening state that comes to rest.
pub fn quiet_law<F: Failing>()
    ensures least { (items size : ℕ) (s : State) → items ≤ most_items → size ≤ most_size →
        CoreOk (question_of items size F.Fails) s → Quiet (question_of items size F.Fails) s →
        (t : List ℕ) → IsTuple items size t → IsLeast s.words t ↔ IsMinimal F.Fails t }
    ensures answer { (items size : ℕ) (s : State) → items ≤ most_items → size ≤ most_size →
        CoreOk (question_of items size F.Fails) s → Quiet (question_of items size F.Fails) s →
        (list : List (List ℕ)) → IsAnswer F.Fails items size list →
        (t : List ℕ) → Contains list t ↔ (IsTuple items size t × IsLeast s.words t) }
    ensures listed { (items size : ℕ) (s : State) → items ≤ most_items → size ≤ most_size →
        CoreOk (question_of items size F.Fails) s → Quiet (question_of items size F.Fails) s →
        (list : List (List ℕ)) → AllPairs IsBefore list →
        ((t : List ℕ) → Contains list t ↔ (IsTuple items size t × IsLeast s.words t)) →
        IsAnswer F.Fails items size list }
    ensures reached { (items size width : ℕ) (steps : List (ℕ × Kind)) (end : State) →
        items ≤ most_items → size ≤ most_size →
        IsRun (question_of items size F.Fails) steps (opening width) end →
        Quiet (question_of items size F.Fails) end →
        (t : List ℕ) → IsTuple items size t → IsLeast end.words t ↔ IsMinimal F.Fails t }
{}

/// What a seat has seen stands in the table now, and is the code of a failing tuple. What two seats saw at one place is
/// the same, and one code was seen at one place alone.
pub fn seen_law<F: Failing>()
    ensures stands { (items size seat place code : ℕ) (s : State) (v : Seen) →
        CoreOk (question_of items size F.Fails) s → HasView s seat v → Saw place code v →
        IsAt s.words place code × (code ≢ 0) }
    ensures coded { (items size seat place code : ℕ) (s : State) (v : Seen) →
        CoreOk (question_of items size F.Fails) s → HasView s seat v → Saw place code v →
        (t : List ℕ) × (code_of t ≡ code) × IsTuple items size t × F.Fails t }
    ensures fails { (items size seat place code : ℕ) (s : State) (v : Seen) → items ≤ most_items → size ≤ most_size →
        CoreOk (question_of items size F.Fails) s → HasView s seat v → Saw place code v →
        IsFailing (question_of items size F.Fails) code }
    ensures one_code { (items size seat other place code found : ℕ) (s : State) (v w : Seen) →
        CoreOk (question_of items size F.Fails) s → HasView s seat v → HasView s other w →
        Saw place code v → Saw place found w → code ≡ found }
    ensures one_place { (items size seat other place second code : ℕ) (s : State) (v w : Seen) →
        CoreOk (question_of items size F.Fails) s → HasView s seat v → HasView s other w →
        Saw place code v → Saw second code w → place ≡ second }
{}

/// What a view shows absent since a move was stored in no state of the run, or was not stored in some state of it after
/// that move. Nothing that the seat noted before the run may be newer than the move; in the opening state nothing is
/// noted. Where a view shows other codes along the whole path, no later state has the tuple either. What a seat shows,
/// it goes on to show with each of its steps, as long as it noted no later move than it has made; in a run from the
/// opening state no seat does.
pub fn absent_law<F: Failing>()
    ensures past { (items size seat move : ℕ) (t : List ℕ) (steps : List (ℕ × Kind)) (s end : State) (v : Seen) →
        CoreOk (question_of items size F.Fails) s → IsRun (question_of items size F.Fails) steps s end →
        ((before : Seen) → HasView s seat before → NotedBy move before) → HasView end seat v →
        ShowsAbsent (length end.words) (code_of t) move v →
        NeverStored (question_of items size F.Fails) steps s end (code_of t)
        ⊎ WasAbsent (question_of items size F.Fails) steps s end seat move (code_of t) }
    ensures opened { (items size width seat move : ℕ) (t : List ℕ) (steps : List (ℕ × Kind)) (end : State) (v : Seen) →
        IsRun (question_of items size F.Fails) steps (opening width) end → HasView end seat v →
        ShowsAbsent width (code_of t) move v →
        NeverStored (question_of items size F.Fails) steps (opening width) end (code_of t)
        ⊎ WasAbsent (question_of items size F.Fails) steps (opening width) end seat move (code_of t) }
    ensures future { (items size seat : ℕ) (t : List ℕ) (steps : List (ℕ × Kind)) (s end : State) (v : Seen) →
        CoreOk (question_of items size F.Fails) s → IsRun (question_of items size F.Fails) steps s end →
        HasView s seat v → PassedBy (length s.words) (code_of t) (length s.words) v →
        IsAbsent end.words (code_of t) }
    ensures shown { (items size width seat : ℕ) (s : State) (kind : Kind) (v w : Seen) →
        Allowed (question_of items size F.Fails) s seat kind → HasView s seat v → Fresh v →
        HasView (after s seat kind) seat w → Fresh w × Shows width v w }
    ensures fresh { (items size width seat : ℕ) (steps : List (ℕ × Kind)) (end : State) (v : Seen) →
        IsRun (question_of items size F.Fails) steps (opening width) end → HasView end seat v → Fresh v }
{}

/// The codes that the views have as made are the stored ones, each in one view.
pub fn made_law<F: Failing>()
    ensures stored { (items size place code : ℕ) (s : State) → CoreOk (question_of items size F.Fails) s →
        IsAt s.words place code → code ≢ 0 → Any (λ v. Has code v.made) s.views }
    ensures made { (items size seat code : ℕ) (s : State) (v : Seen) → CoreOk (question_of items size F.Fails) s →
        HasView s seat v → Has code v.made → StandsIn s.words code }
    ensures once { (items size seat other code : ℕ) (s : State) (v w : Seen) →
        CoreOk (question_of items size F.Fails) s → HasView s seat v → HasView s other w →
        Has code v.made → Has code w.made → seat ≡ other }
{}

/// A path on which a seat has met other codes alone goes through the whole table, so the table is full: as many tuples
/// fail as it has words. They are fewer than there are tuples, so with a word for each tuple no path is full.
pub fn full_law<F: Failing>()
    ensures many { (items size seat code : ℕ) (s : State) (v : Seen) → CoreOk (question_of items size F.Fails) s →
        HasView s seat v → PassedBy (length s.words) code (length s.words) v →
        ManyFail (question_of items size F.Fails) (length s.words) }
    ensures fewer { (items size seat : ℕ) (t : List ℕ) (s : State) (v : Seen) →
        CoreOk (question_of items size F.Fails) s → HasView s seat v → IsTuple items size t →
        PassedBy (length s.words) (code_of t) (length s.words) v →
        length s.words < total_of (question_of items size F.Fails) }
{}

/// The lists of each view rise, and so hold nothing twice. So a range that a seat settles is open no longer.
pub fn lists_law<F: Failing>()
    ensures rise { (items size seat : ℕ) (s : State) (v : Seen) → CoreOk (question_of items size F.Fails) s →
        HasView s seat v → ListsRise v }
    ensures settled { (items size seat cursor : ℕ) (range : ℕ × ℕ) (s : State) (v : Seen) →
        CoreOk (question_of items size F.Fails) s → HasView s seat v → Has range (settles range cursor v).held → ⊥ }
{}

/// Rising lists as sets: what is put into one or taken out of it is gained or lost, and nothing else. Of a place that
/// was found empty the newest number alone is kept.
pub fn sets_law()
    ensures pair { (x : ℕ × ℕ) (list : List (ℕ × ℕ)) → HasBoth (put_pair x list) (x ∷ []) list }
    ensures pairs { (xs list : List (ℕ × ℕ)) → HasBoth (put_pairs xs list) xs list }
    ensures number { (n : ℕ) (list : List ℕ) → HasBoth (put_number n list) (n ∷ []) list }
    ensures numbers { (ns list : List ℕ) → HasBoth (put_numbers ns list) ns list }
    ensures out { (x : ℕ × ℕ) (list : List (ℕ × ℕ)) → Rises IsRangeBefore list →
        (y : ℕ × ℕ) → Has y (take_out x list) ↔ (Has y list × (y ≢ x)) }
    ensures bare { (place move : ℕ) (list : List (ℕ × ℕ)) → Rises IsPlaceBefore list →
        (y : ℕ × ℕ) → Has y (put_bare place move list) ↔ (((place, move) ≡ y) ⊎ (Has y list × (y.0 ≢ place))) }
{}
