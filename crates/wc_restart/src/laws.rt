//! A worked example: the contract of a function that does nothing.

ghost use Rattle.std.specs.Prelude.{◌≡◌, [], ◌∷◌};
ghost use Rattle.wc_syntax.specs.Printing.{printed_definition};
ghost use Rattle.wc_syntax.specs.declared.definition.Definition.TheVariants.{Chain};
ghost use Rattle.wc_restart.specs.Chains.{chain_of};
ghost use Rattle.wc_restart.specs.Examples.{library, mends, spec, text};

/// The printed text of a chain with one handler.
pub fn worked_chain()
    ensures { printed_definition (Chain (chain_of library (spec 5 (mends ∷ [])))) ≡ text }
{}
