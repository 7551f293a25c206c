//! Laws of the definitions. Each is the contract of a function that does nothing.

ghost use Rattle.std.specs.Prelude.{◌≡◌, ◌≢◌, ◌↔◌, ◌+ℤ◌, ◌*ℤ◌, ◌≤ℤ◌, ◌<◌, ◌≤◌, ◌∷◌, ℕ, ℤ, pos, IsTrue, List, length, unsigned_abs};
ghost use Rattle.std.specs.Cmp.Lexicographic.{slice_cmp};
ghost use Rattle.std.specs.Fmt.{signed_decimal};
ghost use Rattle.std.specs.List.{All, join_with_byte};
ghost use Rattle.std.specs.Ordering.{nat_cmp};
ghost use Rattle.std.specs.Str.Iter.{HasSubslice};
ghost use Rattle.std.specs.declared.cmp.Ordering.TheVariants.{Less, Equal, Greater};
ghost use Rattle.wc_value.specs.Spelling.{spelling, depth};
ghost use Rattle.wc_value.specs.declared.value.Value.{Value};
ghost use Rattle.wc_syntax.specs.Bare.{bare_expr};
ghost use Rattle.wc_syntax.specs.declared.expression.Expr.{Expr};
ghost use Rattle.wc_state.specs.declared.environment.Env.{Env};
ghost use Rattle.wc_expression.specs.declared.outcome.Outcome.TheVariants.{Gives};
ghost use Rattle.wc_expression.specs.Whole.{is_i64, number_of, quotient, remainder};
ghost use Rattle.wc_expression.specs.Texts.{trimmed, pieces, stands_in};
ghost use Rattle.wc_expression.specs.Equality.{equal};
ghost use Rattle.wc_expression.specs.Laws.{ComesBefore, IsTrimmed};
ghost use Rattle.wc_expression.specs.Val.{val};

/// A quotient and what it leaves make the dividend again. What is left is nearer to 0 than the divisor, and is 0 or has
/// the sign of the dividend.
pub fn one_division()
    // Quotient and remainder make the dividend again.
    ensures whole { (a b q r : ℤ) → quotient a b ≡ Gives q → remainder a b ≡ Gives r → a ≡ (b *ℤ q) +ℤ r }
    // The remainder is nearer to 0 than the divisor.
    ensures below { (a b r : ℤ) → remainder a b ≡ Gives r → unsigned_abs r < unsigned_abs b }
    // Of a dividend that isn't below 0 it isn't either.
    ensures above { (a b r : ℤ) → remainder a b ≡ Gives r → pos 0 ≤ℤ a → pos 0 ≤ℤ r }
    // Of a dividend that isn't above 0 it isn't either.
    ensures under { (a b r : ℤ) → remainder a b ≡ Gives r → a ≤ℤ pos 0 → r ≤ℤ pos 0 }
{}

/// The decimal form of a number of 64 bits spells that number, so `int(text(n))` is n.
pub fn one_numeral()
    ensures { (n : ℤ) → IsTrue (is_i64 n) → number_of (signed_decimal n) ≡ Some n }
{}

/// The pieces of a text, joined by line feeds, are the text, and none of them holds a line feed.
pub fn one_cut()
    // The lines of a text, joined, are the text.
    ensures joined { (text : List ℕ) → join_with_byte 10 (pieces text) ≡ text }
    // No line has a line feed.
    ensures apart { (text : List ℕ) → All (λ piece. All (λ b. b ≢ 10) piece) (pieces text) }
{}

/// A trimmed text is the text without white space at its ends, and without more.
pub fn one_trim()
    ensures { (text : List ℕ) → IsTrimmed text (trimmed text) }
{}

/// A text stands in another exactly where that is the text with texts around it.
pub fn texts_around()
    ensures { (part text : List ℕ) → IsTrue (stands_in part text) ↔ HasSubslice text part }
{}

/// The order of texts by their bytes.
pub fn one_order()
    ensures less { (a b : List ℕ) → (slice_cmp nat_cmp a b ≡ Less) ↔ ComesBefore a b }
    ensures equal { (a b : List ℕ) → (slice_cmp nat_cmp a b ≡ Equal) ↔ (a ≡ b) }
    ensures greater { (a b : List ℕ) → (slice_cmp nat_cmp a b ≡ Greater) ↔ ComesBefore b a }
{}

/// The test of equality is true of equal values alone.
pub fn one_equality()
    ensures { (v w : Value) → IsTrue (equal v w) ↔ (v ≡ w) }
{}

/// Offsets play no part in the value of an expression.
pub fn no_offsets()
    ensures { (e : Expr) → val (bare_expr e) ≡ val e }
{}

/// The value of every expression has at most 4,194,304 canonical bytes and 32 levels.
pub fn within_limits()
    // A value that an expression has is at most 4 MiB long.
    ensures bytes { (e : Expr) (env : Env) (v : Value) → val e env ≡ Gives v → length (spelling v) ≤ 4194304 }
    // It is at most 32 deep.
    ensures levels { (e : Expr) (env : Env) (v : Value) → val e env ≡ Gives v → depth v ≤ 32 }
{}
