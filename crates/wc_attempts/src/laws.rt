//! What a restart chain comes to. Each law is the contract of a function that does nothing.

ghost use Rattle.std.specs.Prelude.{◌≡◌, false, List, [], ◌∷◌, None, codes};
ghost use Rattle.wc_value.specs.Ascending.{Ascends};
ghost use Rattle.wc_handlers.specs.Specs.{IsSpec};
ghost use Rattle.wc_handlers.specs.declared.spec.Spec.{Spec};
ghost use Rattle.wc_syntax.specs.Checked.{KeepsRules};
ghost use Rattle.wc_syntax.specs.declared.definition.Definition.{Definition};
ghost use Rattle.wc_semantics.specs.Meaning.{meaning};
ghost use Rattle.wc_semantics.specs.Rules.{Values};
ghost use Rattle.wc_semantics.specs.Tables.{no_kills, plain};
ghost use Rattle.wc_restart.specs.Chains.{expanded};
ghost use Rattle.wc_restart.specs.Judging.{misnamed};
ghost use Rattle.wc_restart.specs.Examples.{double, library, mends, spec};
ghost use Rattle.wc_attempts.specs.Attempts.{attempt, finished};
ghost use Rattle.wc_attempts.specs.Examples.{four, nine, rows};
ghost use Rattle.wc_attempts.specs.Laws.{Meets, Restarts, attempts_of, in_order};

/// What the attempts of three chains come to, for a number with which the job fails: with a function that mends it, with no
/// handler, and with one attempt.
pub fn worked_attempts()
    ensures mended { attempt 5 (attempts_of library (spec 5 (mends ∷ [])) double rows) nine false ≡ finished 0 four }
    ensures unhandled { attempt 5 (attempts_of library (spec 5 []) double rows) nine false ≡ finished 402 [] }
    ensures spent { attempt 1 (attempts_of library (spec 1 (mends ∷ [])) double rows) nine false ≡ finished 401 [] }
{}

/// A library that keeps the rules, with the chain of a spec of which nothing is refused: for good inputs the chain has the state and
/// the outputs that its attempts come to, or the table lacks the request that they lack first.
pub fn restarted_chain()
    ensures { (library : List Definition) (s : Spec) → KeepsRules library → IsSpec s → misnamed library s ≡ None → Restarts library s (expanded library s) }
{}

/// Inputs that stand in the order of their names are begun with as they are.
pub fn inputs_in_order()
    ensures { (v : Values) → Ascends v → in_order v ≡ v }
{}

/// What these three chains mean, by the law: the states and outputs of their attempts, with three of fuel for each attempt.
pub fn worked_chains()
    // The chain whose handler mends the input is finished with 0 and the output 4.
    ensures mended { Meets (finished 0 four) (meaning 15 (expanded library (spec 5 (mends ∷ []))) (plain rows) no_kills 15 (codes "safe") nine) }
    // The one without a handler is finished with 402.
    ensures unhandled { Meets (finished 402 []) (meaning 15 (expanded library (spec 5 [])) (plain rows) no_kills 15 (codes "safe") nine) }
    // The one with one attempt is finished with 401.
    ensures spent { Meets (finished 401 []) (meaning 15 (expanded library (spec 1 (mends ∷ []))) (plain rows) no_kills 3 (codes "safe") nine) }
{}
