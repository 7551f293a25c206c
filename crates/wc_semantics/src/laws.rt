//! Laws of the definitions. Each is the contract of a function that does nothing.

ghost use Rattle.std.specs.Prelude.{◌≡◌, ◌+◌, ◌≤◌, ◌<◌, ◌^◌, ℕ, List, [], ◌∷◌, ◌++◌, Option, Some, length, map};
ghost use Rattle.wc_value.specs.declared.process.JobResult.{JobResult};
ghost use Rattle.wc_value.specs.declared.process.ProcessState.TheVariants.{Finished};
ghost use Rattle.wc_value.specs.declared.process.Request.{Request};
ghost use Rattle.wc_syntax.specs.Bare.{bare_library};
ghost use Rattle.wc_syntax.specs.Findings.{definition_named};
ghost use Rattle.wc_syntax.specs.declared.definition.Definition.{Definition};
ghost use Rattle.wc_syntax.specs.declared.definition.Port.{Port};
ghost use Rattle.wc_syntax.specs.declared.expression.Expr.{Expr};
ghost use Rattle.wc_syntax.specs.declared.expression.Number.{Number};
ghost use Rattle.wc_syntax.specs.declared.outline.Arm.{Arm};
ghost use Rattle.wc_syntax.specs.declared.outline.Block.{Block};
ghost use Rattle.wc_syntax.specs.declared.outline.Instr.{Instr, out-Instr};
ghost use Rattle.wc_syntax.specs.declared.outline.Instr.TheOpen.{Instr-F};
ghost use Rattle.wc_syntax.specs.declared.outline.Step.{Step};
ghost use Rattle.wc_expression.specs.Val.{holds};
ghost use Rattle.wc_semantics.specs.Rules.{Values};
ghost use Rattle.wc_semantics.specs.declared.progress.Answer.TheVariants.{Gave};
ghost use Rattle.wc_semantics.specs.declared.progress.Flow.{Flow};
ghost use Rattle.wc_semantics.specs.declared.progress.Flow.TheVariants.{Goes, Ends};
ghost use Rattle.wc_semantics.specs.declared.progress.Planned.{Planned};
ghost use Rattle.wc_semantics.specs.declared.progress.Progress.{Progress};
ghost use Rattle.wc_semantics.specs.declared.progress.Replayed.{Replayed};
ghost use Rattle.wc_semantics.specs.Tables.{Label, Path, Table, Kills, under, no_kills, plain, with_paths, kills_of, rows_under};
ghost use Rattle.wc_semantics.specs.Run.{Around, ◌>->◌, spend, by_value, label, take_calls, step_of, test, picked, returned, run, instrs, settled};
ghost use Rattle.wc_semantics.specs.Meaning.{ended, meaning, around};
ghost use Rattle.wc_semantics.specs.Laws.{arm_list, else_list, Leaves, FrugalCall, MoreAnswer, HasRows, HasEach, AgreeAt, SameUnlessLacking, IsUncut};

/// What a list of instructions does, by its first one. The empty list goes on, which at the end of an outline is an end with 0.
/// A step is taken, and then the others are. An `if` puts the instructions behind its first true condition in front of the
/// others. A `while` whose condition is true goes on, with one less of the fuel, with its body, itself and the others (where
/// calls leave no more fuel than they are given, as those of every process do). A `return` ends.
pub fn first_instruction()
    // No instruction goes on as it is.
    ensures empty { (a : Around) (n : ℕ) (e : Progress) → run [] a n e ≡ Goes n e }
    // A step first, and then what follows it.
    ensures step { (i : Instr) (is : List Instr) (s : Step) (a : Around) (n : ℕ) (e : Progress) → out-Instr i ≡ Instr-F.Step s → run (i ∷ is) a n e ≡ (step_of s.stmts a n e >-> run is a) }
    // An `if` first: its picked block, and then what follows.
    ensures branch { (i : Instr) (is : List Instr) (at : ℕ) (arms : List Arm) (other : Option Block) (a : Around) (n : ℕ) (e : Progress) → out-Instr i ≡ Instr-F.If at arms other → run (i ∷ is) a n e ≡ by_value (picked (map arm_list arms) (else_list other) e.env) n e (λ js. run (js ++ is) a n e) }
    // A `while` first: one turn, with less fuel, and then itself again, or what follows.
    ensures turn { (i : Instr) (is : List Instr) (at : ℕ) (c : Expr) (b : Block) (a : Around) (n : ℕ) (e : Progress) → FrugalCall a.call → out-Instr i ≡ Instr-F.While at c b → run (i ∷ is) a n e ≡ test (holds c e.env) n e (spend n (λ m. run (instrs b ++ i ∷ is) a m e)) (run is a n e) }
    // A `return` ends the run.
    ensures leave { (i : Instr) (is : List Instr) (at : ℕ) (code : Option Number) (a : Around) (n : ℕ) (e : Progress) → out-Instr i ≡ Instr-F.Return at code → run (i ∷ is) a n e ≡ Ends (Finished (returned code)) n e }
{}

/// A list in front of a list is run first, and then the other is, with the fuel that is left. The same holds of calls. A run
/// that goes on past its last instruction ends as one that ends with 0.
pub fn one_after_another()
    // A run of two lists is one after the other.
    ensures lists { (xs ys : List Instr) (a : Around) (n : ℕ) (e : Progress) → run (xs ++ ys) a n e ≡ (run xs a n e >-> run ys a) }
    // So are the calls of two lists.
    ensures calls { (ps qs : List Planned) (a : Around) (n : ℕ) (e : Progress) → take_calls (ps ++ qs) a n e ≡ (take_calls ps a n e >-> take_calls qs a) }
    // How a chain ends doesn't hang on how the run was settled.
    ensures past { (stop : Option ℕ) (name : List ℕ) (ports : List Port) (f : Flow) → ended stop name ports (settled f) ≡ ended stop name ports f }
{}

/// With more fuel a definition has the same tree, and as much more is left; and a request that the table lacks, or a kill that
/// is missed, stays so. No more fuel is left than was given.
pub fn fuel()
    // Where there is an answer, it is the same with more fuel, and as much more is left.
    ensures more { (levels : ℕ) (library : List Definition) (table : Table) (kills : Kills) (n k : ℕ) (name : List ℕ) (inputs : Values) → MoreAnswer k (meaning levels library table kills n name inputs) (meaning levels library table kills (n + k) name inputs) }
    // No more fuel is left than there was.
    ensures left { (levels : ℕ) (library : List Definition) (table : Table) (kills : Kills) (n : ℕ) (name : List ℕ) (inputs : Values) → Leaves n (meaning levels library table kills n name inputs) }
    // No call leaves more fuel than it was given.
    ensures calls { (levels : ℕ) (library : List Definition) (table : Table) (kills : Kills) → FrugalCall (around levels library table kills).call }
{}

/// A table under a label has just the rows of that label, and its rows by request as they are.
pub fn rows_of_a_label()
    ensures table { (l : Label) (by_path : List (Path × JobResult)) (rows : List (Request × JobResult)) → under l (with_paths by_path rows) ≡ with_paths (rows_under l by_path) rows }
    ensures same { (l : Label) (rows : List (Request × JobResult)) → under l (plain rows) ≡ plain rows }
    ensures kills { (l : Label) (rows : List (Path × ℕ)) → under l (kills_of rows) ≡ kills_of (rows_under l rows) }
{}

/// A table that has each result of another gives what the other gives, unless that lacks a result. So where rows by call path
/// are there for all jobs, no row by request is asked.
pub fn more_rows()
    // A table with each row of another and more gives what the other gives, unless that lacks a result.
    ensures richer { (levels : ℕ) (library : List Definition) (table richer : Table) (kills : Kills) (n : ℕ) (name : List ℕ) (inputs : Values) → HasRows table richer → SameUnlessLacking (meaning levels library table kills n name inputs) (meaning levels library richer kills n name inputs) }
    // Where rows by call path suffice, rows by request change nothing.
    ensures by_path { (levels : ℕ) (library : List Definition) (by_path : List (Path × JobResult)) (rows : List (Request × JobResult)) (kills : Kills) (n m : ℕ) (name : List ℕ) (inputs : Values) (t : Replayed) → meaning levels library (with_paths by_path []) kills n name inputs ≡ Gave t m → meaning levels library (with_paths by_path rows) kills n name inputs ≡ Gave t m }
{}

/// Each request that was asked for a tree has, at its path, a result in the table.
pub fn asked_are_found()
    ensures { (levels : ℕ) (library : List Definition) (table : Table) (kills : Kills) (n m : ℕ) (name : List ℕ) (inputs : Values) (t : Replayed) → meaning levels library table kills n name inputs ≡ Gave t m → HasEach table t.asked }
{}

/// A tree hangs on no other rows than those that were asked for it: a table that has the same of these gives the same tree, with the
/// same asked, and leaves as much fuel.
pub fn asked_alone()
    ensures { (levels : ℕ) (library : List Definition) (table other : Table) (kills : Kills) (n m : ℕ) (name : List ℕ) (inputs : Values) (t : Replayed) → meaning levels library table kills n name inputs ≡ Gave t m → AgreeAt table other t.asked → meaning levels library other kills n name inputs ≡ Gave t m }
{}

/// With no kills nothing is killed, and none is missed.
pub fn without_kills()
    ensures { (levels : ℕ) (library : List Definition) (table : Table) (n : ℕ) (name : List ℕ) (inputs : Values) (d : Definition) → definition_named name library ≡ Some d → IsUncut (meaning levels library table no_kills n name inputs) }
{}

/// A run with a stop that it has already reached gives no tree.
pub fn passed_stop()
    ensures { (c : ℕ) (name : List ℕ) (ports : List Port) (is : List Instr) (a : Around) (n m : ℕ) (e : Progress) (t : Replayed) → a.stop ≡ Some c → c ≤ length e.calls → ended (Some c) name ports (run is a n e) ≡ Gave t m → ⊥ }
{}

/// The labels of the calls of one process differ.
pub fn labels_differ()
    ensures { (key other : List ℕ) (n m : ℕ) → n < 2 ^ 64 → m < 2 ^ 64 → label key n ≡ label other m → n ≡ m }
{}

/// Offsets play no part in what definitions mean.
pub fn no_offsets()
    ensures { (levels : ℕ) (library : List Definition) (table : Table) (kills : Kills) (n : ℕ) (name : List ℕ) (inputs : Values) → meaning levels (bare_library library) table kills n name inputs ≡ meaning levels library table kills n name inputs }
{}
