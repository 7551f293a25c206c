//! What is written, and how a call ends then.

ghost use Rattle.std.specs.Prelude.{◌≡◌, IfOk};
ghost use Rattle.wc_io.specs.Counts.{RisesByOne};
ghost use Rattle.wc_io.specs.Forms.{TakesPart};
ghost use Rattle.wc_plan.specs.Replies.{refuses, prints, IsReplied, OwesStatus, Writes};

use crate::status::{Cause, Status};
use crate::text::refusal_line;
use std::alloc::{AllocError, Global};
use wc_io::{Sink, write_all};
use wc_value::Text;

/// What is to be written, and the status once it is.
#[derive(Drop)]
pub struct Reply {
    /// The status.
    pub status: Status,
    /// The text.
    pub text: Text,
}

/// A refusal.
pub fn refuse(alloc: Global, cause: Cause) -> Result<Reply, AllocError>
    ensures { IfOk result (λ r. r ≡ refuses cause) }
{
    let text = refusal_line(alloc, &cause)?;
    Ok(Reply {
        status: Status::Refused(cause),
        text,
    })
}

/// A text that is printed.
pub fn print(text: Text) -> Reply
    ensures { result ≡ prints text }
{
    Reply {
        status: Status::Ok,
        text,
    }
}

/// Writes a reply, and says how that ended.
pub fn finish<W: Sink>(sink: &mut W, reply: Reply) -> Status
    requires { IsReplied reply.status }
    ensures status { OwesStatus reply.status result }
    ensures memory { result ≡ Status.OutOfMemory → ⊥ }
    ensures reading { result ≡ Status.ReadFault → ⊥ }
    ensures disks { result ≡ Status.DiskFault → ⊥ }
    ensures fault { result ≡ Status.WriteFault → RisesByOne (W.faults sink.old) (W.faults sink.new) × W.failed sink.new × TakesPart reply.text (W.taken sink.old) (W.taken sink.new) }
    ensures whole { (result ≡ Status.WriteFault → ⊥) → Writes reply.text (W.taken sink.old) (W.taken sink.new) × (W.faults sink.new ≡ W.faults sink.old) }
{
    let Reply { status, text } = reply;
    match write_all(sink, text.bytes()) {
        Ok(()) => status,
        Err(_) => Status::WriteFault,
    }
}
