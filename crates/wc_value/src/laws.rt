//! Laws of canonical bytes. Each is the contract of a function that does nothing.

ghost use Rattle.std.specs.Prelude.{◌≡◌, ◌++◌, ℕ, List, length};
ghost use Rattle.wc_value.specs.Spelling.{spelling};
ghost use Rattle.wc_value.specs.Spells.{Spells};
ghost use Rattle.wc_value.specs.Requests.{dictionary_of};
ghost use Rattle.wc_value.specs.Reading.{whole};
ghost use Rattle.wc_value.specs.Refusals.{IsTruncated};
ghost use Rattle.wc_value.specs.declared.refusal.ValueError.{ValueError};
ghost use Rattle.wc_value.specs.declared.refusal.ValueError.TheVariants.{Truncated};
ghost use Rattle.wc_value.specs.declared.value.Value.{Value};
ghost use Rattle.wc_value.specs.declared.process.Request.{Request};

/// A value has one spelling, and `spelling` computes it.
pub fn one_spelling()
    ensures { (v : Value) (b : List ℕ) → Spells v b → b ≡ spelling v }
{}

/// No spelling is a proper beginning of another, whatever follows either, and equal spellings are of equal values.
pub fn no_spelling_begins_another()
    ensures { (v w : Value) (b c x y : List ℕ) → Spells v b → Spells w c → b ++ x ≡ c ++ y → (v ≡ w) × (b ≡ c) }
{}

/// Requests with equal canonical bytes are equal.
pub fn one_request()
    ensures { (q r : Request) (b : List ℕ) → Spells (dictionary_of q) b → Spells (dictionary_of r) b → q ≡ r }
{}

/// Each refusal but that of missing bytes stays whatever follows. Bytes are missing only at the end, and others can
/// follow after which none are missing.
pub fn refusals_come_first()
    ensures stays { (b more : List ℕ) (e : ValueError) → whole b ≡ Err e → ¬ IsTruncated e → whole (b ++ more) ≡ Err e }
    ensures end { (b : List ℕ) (n : ℕ) → whole b ≡ Err (Truncated n) → n ≡ length b }
    ensures missing { (b : List ℕ) → (more : List ℕ) × ((n : ℕ) → ¬ (whole (b ++ more) ≡ Err (Truncated n))) }
{}
