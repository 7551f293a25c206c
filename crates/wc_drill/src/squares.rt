//! The table of the jobs of generated chains.

ghost use Rattle.std.specs.Prelude.{◌≡◌, ◌<◌, ◌^◌, ◌*◌, [], ◌∷◌, IfOk};
ghost use Rattle.std.specs.Fmt.{decimal};
ghost use Rattle.wc_drill.specs.GeneratedRefusals.{IsTableMemory};
ghost use Rattle.wc_drill.specs.Squares.{square_request, square_result, square_rows};

use std::alloc::{AllocError, Global};
use wc_value::{Bytes, Files, JobResult, Request, Rows, Table, TableError, Text, Words};

/// How many numbers there are.
const NUMBERS: u32 = 100;

/// A list of one text.
fn one_text(alloc: Global, text: Text) -> Result<Words, AllocError>
    ensures { IfOk result (λ words. words ≡ text ∷ []) }
{
    let mut words = Words::new(alloc);
    words.push(text)?;
    Ok(words)
}

/// A list of one file.
fn one_file(alloc: Global, name: Text, content: Bytes) -> Result<Files, AllocError>
    ensures { IfOk result (λ files. files ≡ (name, content) ∷ []) }
{
    let mut files = Files::new(alloc);
    files.push((name, content))?;
    Ok(files)
}

/// The bytes of a text.
fn bytes_of(alloc: Global, text: &Text) -> Result<Bytes, AllocError>
    ensures { IfOk result (λ bytes. bytes ≡ text.now) }
{
    let mut bytes = Bytes::new(alloc);
    bytes.extend(text.bytes())?;
    Ok(bytes)
}

/// What the job of a number asks for.
fn square_request(alloc: Global, number: u32) -> Result<Request, AllocError>
    ensures { IfOk result (λ request. request ≡ square_request number) }
{
    let argument = Text::of_string(format!(in alloc; "{number}")?)?;
    Ok(Request {
        program: Text::of_str(alloc, "square")?,
        args: one_text(alloc, argument)?,
        files: Files::new(alloc),
        fetch: one_text(alloc, Text::of_str(alloc, "y")?)?,
    })
}

/// What the job of a number leaves.
fn square_result(alloc: Global, number: u32) -> Result<JobResult, AllocError>
    requires small { number < 2 ^ 16 }
    ensures { IfOk result (λ found. found ≡ square_result number) }
{
    let square = number * number;
    let line = Text::of_string(format!(in alloc; "{square}\n")?)?;
    Ok(JobResult {
        code: 0,
        files: one_file(alloc, Text::of_str(alloc, "y")?, bytes_of(alloc, &line)?)?,
    })
}

/// For each number below 100, in order, the request of its job and what the job leaves: the square.
#[tactic(auto, using(crate::proofs::Rows::rows_pushed, crate::proofs::Rows::rows_none))]
fn square_rows(alloc: Global) -> Result<Rows, AllocError>
    ensures { IfOk result (λ rows. rows ≡ square_rows 100) }
{
    let mut rows = Rows::new(alloc);
    for number in 0..NUMBERS {
        rows.push((
            square_request(alloc, number)?,
            square_result(alloc, number)?,
        ))?;
    }
    Ok(rows)
}

/// What a table may refuse of rows whose requests differ: its memory alone.
fn table_memory(error: TableError) -> AllocError
    requires { IsTableMemory error }
{
    match error {
        TableError::OutOfMemory => AllocError,
        TableError::Twice(_) => unreachable!(),
    }
}

/// The table that gives each number below 100 its square.
pub fn square_table(alloc: Global) -> Result<Table, AllocError>
    ensures { IfOk result (λ table. table ≡ square_rows 100) }
{
    let rows = square_rows(alloc)?;
    match Table::new(alloc, rows) {
        Ok(table) => Ok(table),
        Err(error) => Err(table_memory(error)),
    }
}
