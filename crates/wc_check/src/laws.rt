//! Laws of the rules. Each is the contract of a function that does nothing.

ghost use Rattle.std.specs.Prelude.{◌≡◌, ◌↔◌, List, [], Option};
ghost use Rattle.wc_check.specs.declared.error.CheckError.{CheckError};
ghost use Rattle.wc_check.specs.Laws.{RulesForgetOffsets};
ghost use Rattle.wc_check.specs.Refusals.{IsFirstFinding};
ghost use Rattle.wc_syntax.specs.declared.definition.Definition.{Definition};
ghost use Rattle.wc_syntax.specs.Checked.{KeepsRules, findings};

/// A library keeps the rules exactly where none is found broken.
#[tactic(auto, using(crate::proofs::Kept::kept))]
pub fn rules_are_kept_where_nothing_is_found()
    ensures { (library : List Definition) → KeepsRules library ↔ (findings library ≡ []) }
{}

/// A library has one first refusal, or none.
#[tactic(auto, using(crate::proofs::Single::one_first))]
pub fn first_refusal_is_one()
    ensures { (library : List Definition) (a b : Option CheckError) → IsFirstFinding library a → IsFirstFinding library b → a ≡ b }
{}

/// Libraries that are the same but for offsets keep the same rules.
#[tactic(auto, using(crate::proofs::BareFindings::rules_forget_offsets))]
pub fn offsets_break_no_rule()
    ensures { RulesForgetOffsets }
{}
