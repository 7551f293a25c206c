//! How a call of the program ends.

ghost use Rattle.std.specs.Prelude.{◌≡◌};
ghost use Rattle.wc_plan.specs.Replies.{code_of};

use wc_check::CheckError;
use wc_config::ConfigError;
use wc_expansion::RestartError;
use wc_json::JsonError;
use wc_parser::ParseError;
use wc_query::QueryError;
use wc_state::What;
use wc_value::{ProcessState, Request, Text};

/// Why a command was refused.
#[derive(Drop)]
pub enum Cause {
    /// The words are no command.
    Words,
    /// There is no file of this name.
    NoFile(Text),
    /// The file of this name isn't UTF-8.
    NotUtf8(Text),
    /// The file's text stands for no library.
    Parse(ParseError),
    /// The file's library breaks a rule of checked libraries.
    Check(CheckError),
    /// The settings file gives no settings.
    Settings(ConfigError),
    /// The library has no definition of this name.
    Name(Text),
    /// The file of inputs gives none.
    Inputs(JsonError),
    /// The table file has no table.
    Table(JsonError),
    /// The least port that is given badly.
    BadInput(Text),
    /// The table has no result for this request, the first that was asked for one.
    NoAnswer(Request),
    /// The fuel doesn't suffice.
    Fuel,
    /// The words of a query are none.
    Query(QueryError),
    /// No restart chain is added to the library.
    Restart(RestartError),
    /// There is no store.
    NoStore,
    /// There is a store already.
    StoreExists,
    /// The store has no process of this number.
    UnknownProcess(u32),
    /// The store has no node of this number.
    UnknownNode(u32),
    /// The process of this number has ended, in this state.
    Ended(u32, ProcessState),
}

/// What is wrong with a world.
#[derive(Clone, Copy, Debug, PartialEq, Eq)]
pub enum Fault {
    /// Data provenance has a cycle; this is the least node that lies on one.
    Cycle(u32),
    /// The lowest calculation that isn't as its inputs give it.
    Value(u32),
}

/// How a call of the program ended.
#[derive(Drop)]
pub enum Status {
    /// The work was done, and its text was written whole.
    Ok,
    /// The command was refused.
    Refused(Cause),
    /// Memory ran out.
    OutOfMemory,
    /// The turns of this call are used up, and work is left.
    Spent,
    /// Processes are live, and each is paused or waits for a paused one.
    Resting,
    /// A disk of the store failed.
    DiskFault,
    /// A disk of the store is damaged: the disk's number, the offset, and the byte found there, none where the end is.
    Damaged(u8, u64, Option<u8>),
    /// A file can't be read.
    ReadFault,
    /// The text can't be written.
    WriteFault,
    /// The store is full: of what, how much of it there would be, and the most that it may have.
    Full(What, u64, u64),
    /// The store's world isn't sound.
    Unsound(Fault),
}

impl Status {
    /// The exit status of the program.
    pub fn code(&self) -> u8
        ensures { result ≡ code_of self.now }
    {
        match self {
            Status::Ok => 0,
            Status::Refused(_) => 1,
            Status::OutOfMemory => 2,
            Status::Spent => 3,
            Status::Resting => 4,
            Status::DiskFault => 5,
            Status::Damaged(..) => 6,
            Status::ReadFault => 7,
            Status::WriteFault => 8,
            Status::Full(..) => 9,
            Status::Unsound(_) => 10,
        }
    }
}
