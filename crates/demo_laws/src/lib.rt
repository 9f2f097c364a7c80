//! The gadgets that a demonstration checks are read without an offence.
#![tactic(auto)]

ghost use Rattle.std.specs.Prelude.{ℕ, ◌≤◌};
ghost use Rattle.gadget_maker.specs.Limits.{least_demo_shares, most_demo_shares};
ghost use Rattle.gadget_maker.specs.Texts.{isw_text, refresh_text};
ghost use Rattle.demo_laws.specs.Demos.{IsDemoFile};

/// The texts that are made for a demonstration are files of gadgets that can be checked, for each number of shares that
/// it takes.
pub fn demo_law()
    ensures isw { (n : ℕ) → least_demo_shares ≤ n → n ≤ most_demo_shares → IsDemoFile (isw_text n) }
    ensures refresh { (n : ℕ) → least_demo_shares ≤ n → n ≤ most_demo_shares → IsDemoFile (refresh_text n) }
{}
