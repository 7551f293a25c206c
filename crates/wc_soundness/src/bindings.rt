//! Laws of binding.
ghost use Rattle.wc_soundness.specs.BindingLaws.{BindingsKeepSound};
ghost use Rattle.wc_soundness.specs.BoundAlike.{BindsAsTheRun};

/// A chain that waits and is ready binds its children: a sound world accepts that, the world after it continues the one before and is sound.
pub fn bindings_keep_sound()
    ensures { BindingsKeepSound }
{}

/// A child that a checkpoint binds to a key is bound as the run binds it: what the world then shows of the context is what the run has, but for
/// the numbers of nodes.
pub fn binding_is_the_runs()
    ensures { BindsAsTheRun }
{}
