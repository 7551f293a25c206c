//! Changes, put at the end of bytes.

ghost use Rattle.std.specs.Prelude.{◌≡◌, [], ◌++◌, ◌∷◌, ◌<◌, ◌≤◌, ◌^◌, true, List, IfOk, OnOk};
ghost use Rattle.wc_world.specs.Fits.{names_ascend};
ghost use Rattle.wc_value.specs.Spells.{IsText};
ghost use Rattle.wc_value.specs.Spelling.{spelling, depth};
ghost use Rattle.wc_syntax.specs.declared.definition.Definition.{Definition};
ghost use Rattle.wc_syntax.specs.Bare.{bare_library};
ghost use Rattle.wc_syntax.specs.Checked.{IsChecked};
ghost use Rattle.wc_syntax.specs.Printing.{printed};
ghost use Rattle.wc_record.specs.Spelled.{u32_bytes, u64_bytes, text_bytes, list, truth_byte, kind_byte, type_byte, reason_number, state_bytes, code_bytes, part_bytes, new_bytes, link_bytes, set_bytes, kept_bytes, library_bytes, change_bytes, spelled};
ghost use Rattle.wc_record.specs.Written.{IsNumber, IsList, IsState, IsCode, IsValue, IsPart, IsNew, IsLink, IsSet, IsKept, IsLibrary, IsChange, IsReadablePart, IsReadableChange, FailsFit, IsWritable, AreWritable, AreReadable, IsWritten};

use crate::put::{put_bool, put_count, put_i64, put_part, put_text, put_u32, put_u64};
use std::alloc::{AllocError, Global};
use wc_graph::{Link, LinkType};
use wc_state::{Part, ProcessKind};
use wc_syntax::Checked;
use wc_value::{Bytes, ProcessState, Reason, Text, Value, Words, put_value};
use wc_world::{Change, Changes, Kept, NewProcess, SetProcess};

/// The byte of a process's kind.
fn kind_byte(kind: ProcessKind) -> u8
    ensures { result ≡ kind_byte kind }
{
    match kind {
        ProcessKind::Function => 1,
        ProcessKind::Job => 2,
        ProcessKind::Chain => 3,
    }
}

/// The byte of a link's type.
fn type_byte(link: LinkType) -> u8
    ensures { result ≡ type_byte link }
{
    match link {
        LinkType::InputCalc => 1,
        LinkType::InputWork => 2,
        LinkType::Create => 3,
        LinkType::Return => 4,
        LinkType::CallCalc => 5,
        LinkType::CallWork => 6,
    }
}

/// The number of the reason why a process excepted.
fn reason_number(reason: Reason) -> u32
    ensures { result ≡ reason_number reason }
{
    match reason {
        Reason::Overflow => 1,
        Reason::DivideByZero => 2,
        Reason::MissingKey => 3,
        Reason::WrongKind => 4,
        Reason::NoOutput => 5,
        Reason::BadText => 6,
        Reason::TooLong => 7,
        Reason::Depth => 8,
        Reason::BadInput => 9,
    }
}

/// Puts the byte of a state, and its number behind it.
fn put_numbered(out: &mut Bytes, tag: u8, number: u32) -> Result<(), AllocError>
    ensures { OnOk result (out.new ≡ out.old ++ tag ∷ u32_bytes number) }
{
    out.push(tag)?;
    put_u32(out, number)
}

/// Puts a process's state.
fn put_state(out: &mut Bytes, state: ProcessState) -> Result<(), AllocError>
    ensures bytes { OnOk result (out.new ≡ out.old ++ state_bytes state) }
    ensures fits { OnOk result (IsState state) }
{
    match state {
        ProcessState::Created => put_numbered(out, 1, 0),
        ProcessState::Running => put_numbered(out, 2, 0),
        ProcessState::Waiting => put_numbered(out, 3, 0),
        ProcessState::Finished(status) => put_numbered(out, 4, status),
        ProcessState::Excepted(reason) => put_numbered(out, 5, reason_number(reason)),
        ProcessState::Killed => put_numbered(out, 6, 0),
    }
}

/// Puts a program's status, where there is one.
fn put_code(out: &mut Bytes, code: Option<i64>) -> Result<(), AllocError>
    ensures bytes { OnOk result (out.new ≡ out.old ++ code_bytes code) }
    ensures fits { OnOk result (IsCode code) }
{
    match code {
        None => out.push(0),
        Some(code) => {
            out.push(1)?;
            put_i64(out, code)
        }
    }
}

/// Puts a new process. Its texts aren't copied.
pub(crate) fn put_process(
    out: &mut Bytes,
    kind: ProcessKind,
    definition: &Text,
    library: u32,
    depth: u32,
    label: &Text,
    caching: bool,
) -> Result<(), AllocError>
    ensures bytes { OnOk result (out.new ≡ out.old ++ 3 ∷ new_bytes (record { kind = kind; definition = definition.now; library = library; depth = depth; label = label.now; caching = caching })) }
    ensures fits { OnOk result (IsNew (record { kind = kind; definition = definition.now; library = library; depth = depth; label = label.now; caching = caching })) }
{
    out.push(3)?;
    out.push(kind_byte(kind))?;
    put_text(out, definition)?;
    put_u32(out, library)?;
    put_u32(out, depth)?;
    put_text(out, label)?;
    put_bool(out, caching)
}

/// Puts the fields of a new process behind the byte of their change.
fn put_new(out: &mut Bytes, new: &NewProcess) -> Result<(), AllocError>
    ensures bytes { OnOk result (out.new ≡ out.old ++ 3 ∷ new_bytes new.now) }
    ensures fits { OnOk result (IsNew new.now) }
{
    put_process(
        out,
        new.kind,
        &new.definition,
        new.library,
        new.depth,
        &new.label,
        new.caching,
    )
}

/// Puts a link.
pub(crate) fn put_link(out: &mut Bytes, link: &Link) -> Result<(), AllocError>
    ensures bytes { OnOk result (out.new ≡ out.old ++ 4 ∷ link_bytes link.now) }
    ensures fits { OnOk result (IsLink link.now) }
{
    out.push(4)?;
    put_u32(out, link.source)?;
    put_u32(out, link.target)?;
    out.push(type_byte(link.link))?;
    put_text(out, &link.label)
}

/// Puts the first half of what a process is from now on: its number, its state and its pause mark.
pub(crate) fn put_standing(
    out: &mut Bytes,
    pid: u32,
    state: ProcessState,
    paused: bool,
) -> Result<(), AllocError>
    ensures bytes { OnOk result (out.new ≡ out.old ++ 5 ∷ (u32_bytes pid ++ (state_bytes state ++ truth_byte paused ∷ []))) }
    ensures pid { OnOk result (IsNumber pid) }
    ensures state { OnOk result (IsState state) }
{
    out.push(5)?;
    put_u32(out, pid)?;
    put_state(out, state)?;
    put_bool(out, paused)
}

/// Puts the other half of what a process is from now on. Its part isn't copied.
pub(crate) fn put_progress(
    out: &mut Bytes,
    cached_from: u32,
    fuel: u64,
    code: Option<i64>,
    part: &Part,
) -> Result<(), AllocError>
    requires { FailsFit part.now }
    ensures bytes { OnOk result (out.new ≡ out.old ++ (u32_bytes cached_from ++ (u64_bytes fuel ++ (code_bytes code ++ part_bytes part.now)))) }
    ensures cached_from { OnOk result (IsNumber cached_from) }
    ensures fuel { OnOk result (fuel < 2 ^ 64) }
    ensures code { OnOk result (IsCode code) }
    ensures part { OnOk result (IsReadablePart part.now → IsPart part.now) }
{
    put_u32(out, cached_from)?;
    put_u64(out, fuel)?;
    put_code(out, code)?;
    put_part(out, part)
}

/// Puts the fields of what a process has come to behind the byte of their change.
fn put_set(out: &mut Bytes, set: &SetProcess) -> Result<(), AllocError>
    requires { FailsFit set.now.part }
    ensures bytes { OnOk result (out.new ≡ out.old ++ 5 ∷ set_bytes set.now) }
    ensures fits { OnOk result (IsReadablePart set.now.part → IsSet set.now) }
{
    put_standing(out, set.pid, set.state, set.paused)?;
    put_progress(out, set.cached_from, set.fuel, set.code, &set.part)
}

/// Puts how many batches there were.
pub(crate) fn put_batches(out: &mut Bytes, batches: u32) -> Result<(), AllocError>
    ensures bytes { OnOk result (out.new ≡ out.old ++ 6 ∷ u32_bytes batches) }
    ensures fits { OnOk result (IsNumber batches) }
{
    out.push(6)?;
    put_u32(out, batches)
}

/// Puts when a process started and ended.
pub(crate) fn put_kept(out: &mut Bytes, kept: &Kept) -> Result<(), AllocError>
    ensures bytes { OnOk result (out.new ≡ out.old ++ 7 ∷ kept_bytes kept.now) }
    ensures fits { OnOk result (IsKept kept.now) }
{
    out.push(7)?;
    put_u32(out, kept.pid)?;
    put_u32(out, kept.started)?;
    put_u32(out, kept.ended)
}

/// Puts names behind their number.
fn put_names(out: &mut Bytes, names: &Words) -> Result<(), AllocError>
    ensures bytes { OnOk result (out.new ≡ out.old ++ list text_bytes names.now) }
    ensures fits { OnOk result (IsList IsText names.now) }
{
    put_count(out, names.len())?;
    for name in names.as_slice() {
        put_text(out, name)?;
    }
    Ok(())
}

/// Puts the printed text of a library.
fn put_printed(alloc: Global, out: &mut Bytes, library: &Checked) -> Result<(), AllocError>
    ensures bytes { OnOk result (out.new ≡ out.old ++ text_bytes (printed library.now)) }
    ensures fits { OnOk result (IsText (printed library.now)) }
    ensures checked { (l : List Definition) × IsChecked l × (bare_library l ≡ library.now) }
{
    // A library that is kept is a checked one.
    let _checked = library.library();
    let printed = library.text(alloc)?;
    put_text(out, &printed)
}

/// Puts a library, with the names of its definitions that have caching on.
pub(crate) fn put_library(
    alloc: Global,
    out: &mut Bytes,
    library: &Checked,
    names: &Words,
) -> Result<(), AllocError>
    requires { names_ascend names.now ≡ true }
    ensures bytes { OnOk result (out.new ≡ out.old ++ 1 ∷ library_bytes library.now names.now) }
    ensures fits { OnOk result (IsLibrary library.now names.now) }
{
    out.push(1)?;
    put_printed(alloc, out, library)?;
    put_names(out, names)
}

/// Puts a data node.
pub(crate) fn put_data(out: &mut Bytes, value: &Value) -> Result<(), AllocError>
    ensures bytes { OnOk result (out.new ≡ out.old ++ 2 ∷ spelling value.now) }
    ensures fits { OnOk result (depth value.now ≤ 32 → IsValue value.now) }
{
    out.push(2)?;
    put_value(out, value)
}

/// Puts a change.
fn put_change(alloc: Global, out: &mut Bytes, change: &Change) -> Result<(), AllocError>
    requires { IsWritable change.now }
    ensures bytes { OnOk result (out.new ≡ out.old ++ change_bytes change.now) }
    ensures fits { OnOk result (IsReadableChange change.now → IsChange change.now) }
{
    match change {
        Change::Library(library, names) => put_library(alloc, out, library, names),
        Change::Data(value) => put_data(out, value),
        Change::Process(new) => put_new(out, new),
        Change::Link(link) => put_link(out, link),
        Change::Set(set) => put_set(out, set),
        Change::Count(batches) => put_batches(out, *batches),
        Change::Kept(kept) => put_kept(out, kept),
    }
}

/// The bytes of changes: a count, and that many changes.
pub fn write_changes(alloc: Global, changes: &Changes) -> Result<Bytes, AllocError>
    // Each job's fails is at most 5, and the names of each library ascend.
    requires { AreWritable changes.now }
    ensures spelled { IfOk result (λ bytes. bytes ≡ spelled changes.now) }
    // What is written is read back, where no value is deeper than 32.
    ensures written { OnOk result (AreReadable changes.now → IsWritten changes.now) }
{
    let mut out = Bytes::new(alloc);
    put_count(&mut out, changes.len())?;
    for change in changes.as_slice() {
        put_change(alloc, &mut out, change)?;
    }
    Ok(out)
}
