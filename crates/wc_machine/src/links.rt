//! How what a process takes is linked to it.

ghost use Rattle.std.specs.Prelude.{◌≡◌};
ghost use Rattle.wc_machine.specs.Submissions.{input_link};

use wc_graph::LinkType;
use wc_state::ProcessKind;

/// How an input is linked to a process of this kind.
pub fn input_link(kind: ProcessKind) -> LinkType
    ensures { result ≡ input_link kind }
{
    match kind {
        ProcessKind::Function | ProcessKind::Job => LinkType::InputCalc,
        ProcessKind::Chain => LinkType::InputWork,
    }
}
