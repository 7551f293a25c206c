//! Laws of what files and settings say. Each is the contract of a function that does nothing.

ghost use Rattle.std.specs.Prelude.{◌≡◌, ◌&&◌, ℕ, true, List, Option, is_some, IsSome, Result};
ghost use Rattle.wc_syntax.specs.Findings.{definition_named, is_among};
ghost use Rattle.wc_syntax.specs.declared.definition.Definition.{Definition};
ghost use Rattle.wc_fits.specs.Fits.{names_ascend};
ghost use Rattle.wc_config.specs.Settings.{caching_on};
ghost use Rattle.wc_config.specs.declared.settings.Settings.{Settings};
ghost use Rattle.wc_plan.specs.Files.{Reads, ReadsFrom};
ghost use Rattle.wc_plan.specs.Settings.{ReadsSettings, SettingsFrom, names_on};
ghost use Rattle.wc_plan.specs.Submits.{PreparesFrom};
ghost use Rattle.wc_plan.specs.declared.libraries.Read.{Read};
ghost use Rattle.wc_plan.specs.declared.status.Cause.{Cause};
ghost use Rattle.wc_plan.specs.declared.submission.Prepared.{Prepared};

/// A file of one content is read as one thing, also where a shelf tells the content, and `submit` makes one thing of the files that it names.
/// Settings that a file of one content gives are one thing too.
#[tactic(auto, using(crate::proofs::Once::one_read, crate::proofs::Once::one_from, crate::proofs::Configured::one_settings, crate::proofs::Configured::settings_from))]
pub fn files_are_read_as_one_thing()
    // One content is read as one thing.
    ensures read { (file : List ℕ) (content : Option (List ℕ)) (r s : Read) → Reads file content r → Reads file content s → r ≡ s }
    // Where the shelf tells its contents, a file is read as one thing.
    ensures from { (told : Option (List ℕ → Option (List ℕ))) (file : List ℕ) (r s : Read) → IsSome told → ReadsFrom told file r → ReadsFrom told file s → r ≡ s }
    // A submission is then prepared as one thing.
    ensures prepared { (told : Option (List ℕ → Option (List ℕ))) (file name : List ℕ) (given : List (List ℕ × List ℕ)) (inputs : Option (List ℕ)) (p q : Prepared)
        → IsSome told → PreparesFrom told file name given inputs p → PreparesFrom told file name given inputs q → p ≡ q }
    // One content gives one settings or one refusal.
    ensures settings { (file : List ℕ) (content : Option (List ℕ)) (s t : Result Settings Cause) → ReadsSettings file content s → ReadsSettings file content t → s ≡ t }
    // So does a settings file where the shelf tells.
    ensures settings_from { (told : Option (List ℕ → Option (List ℕ))) (file : Option (List ℕ)) (s t : Result Settings Cause) → IsSome told → SettingsFrom told file s → SettingsFrom told file t → s ≡ t }
{}

/// The names that settings have on for a library are those of its definitions for which caching is on, and they ascend.
#[tactic(auto, using(crate::proofs::Configured::names_on_are, crate::proofs::Configured::names_on_ascend))]
pub fn names_on_are_as_settings_say()
    ensures among { (t : Settings) (library : List Definition) (name : List ℕ) → is_among name (names_on t library) ≡ (is_some (definition_named name library) && caching_on t name) }
    ensures ascend { (t : Settings) (library : List Definition) → names_ascend (names_on t library) ≡ true }
{}
