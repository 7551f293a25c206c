//! Laws of keys. Each is the contract of a function that does nothing.

ghost use Rattle.wc_cache.specs.Laws.{EqualKeysAreEqual, KeysAreOfOne};

/// Two calculations have equal keys exactly where their keys are the same bytes.
pub fn equal_keys_are_equal()
    ensures { EqualKeysAreEqual }
{}

/// In a sound world processes with the same key run equal definitions with equal inputs.
pub fn keys_are_of_one()
    ensures { KeysAreOfOne }
{}
