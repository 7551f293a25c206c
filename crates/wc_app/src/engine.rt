//! The engine as what serves the words of the command line.
ghost use Rattle.std.specs.Prelude.{◌≡◌};
ghost use Rattle.wc_app.specs.Served.{Serves};

use crate::machine::Machine;
use crate::program::Service;
use wc_engine::serve;
use wc_value::Words;

/// The engine.
pub struct Engine;

impl Service for Engine {
    ghost use Rattle.wc_app.specs.Served.{Serves};

    ghost answered = { λ _. Serves };

    fn serve(&self, rt: HostRuntime, words: &Words, machine: &mut Machine) -> u8 {
        serve(
            rt.alloc(),
            words,
            &mut machine.shelf,
            &mut machine.sink,
            &mut machine.one,
            &mut machine.two,
            &mut machine.jobs,
            &mut machine.clock,
        )
        .code()
    }
}
