//! Worked examples. Each is the contract of a function that does nothing.

ghost use Rattle.std.specs.Prelude.{◌≡◌, Ok, Err, codes};
ghost use Rattle.wc_handlers.specs.declared.error.RestartError.TheVariants.{NotToml, BadValue};
ghost use Rattle.wc_handlers.specs.Reading.{spec_in};
ghost use Rattle.wc_handlers.specs.Examples.{safe_file, safe, bare_file, bare, unnamed_file, torn_file};

/// What four files say, and one that is no TOML.
pub fn worked_files()
    // A file with a handler is read as this spec.
    ensures handled { spec_in safe_file ≡ Ok safe }
    // A file without one is read as this spec.
    ensures bare { spec_in bare_file ≡ Ok bare }
    // A file without a name is refused for its key `name`.
    ensures unnamed { spec_in unnamed_file ≡ Err (BadValue (codes "name")) }
    // A handler with both a call and an abort is refused for its key `handler.abort`.
    ensures torn { spec_in torn_file ≡ Err (BadValue (codes "handler.abort")) }
    // What isn't TOML is refused as that.
    ensures garbled { spec_in (codes "name") ≡ Err NotToml }
{}
