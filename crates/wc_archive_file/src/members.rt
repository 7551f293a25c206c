//! The members of an object, one after another in the order of their keys.

ghost use Rattle.std.specs.Prelude.{◌≡◌, ◌<◌, ◌^◌, FitsSigned, MatchOption, IsTrue, ◌↔◌};
ghost use Rattle.std.specs.Int.{w64};
ghost use Rattle.serde_json.specs.Data.{Data, Members as Object, string, no_members, member};
ghost use Rattle.serde_json.specs.View.{view, members_view};
ghost use Rattle.wc_archive_file.specs.Archives.{code_data, kind_data, number_data, state_data, value_data, IsState, IsValue};
ghost use Rattle.wc_archive_file.specs.Reads.{IsAny, ReadsNext};

use crate::misread::Misread;
use crate::numbers::{code_of, u32_of, u64_of};
use crate::parts::{process_kind_of, state_of, text_of, value_of, word_of};
use serde_json::Value as Json;
use std::alloc::Global;
use std::collections::btree_map::Iter;
use wc_state::ProcessKind;
use wc_value::{ProcessState, Text, Value};

/// The members that are left of an object.
pub(crate) type Members<'a> = Iter<'a, String, Json>;

/// What the next member has, where its key is this one.
pub(crate) fn next_data<'a>(members: &mut Members<'a>, key: &str) -> Option<&'a Json>
    ensures { MatchOption result ((d : Data) (rest : Object) → members_view members.old ≡ member key.now d rest → ⊥)
        (λ json. members_view members.old ≡ member key.now (view json.now) (members_view members.new)) }
{
    match members.next() {
        Some((name, json)) => {
            if name.as_str() == key {
                Some(json)
            } else {
                None
            }
        }
        None => None,
    }
}

/// Whether no member is left.
pub(crate) fn is_done(members: &mut Members<'_>) -> bool
    ensures { IsTrue result ↔ (members_view members.old ≡ no_members) }
{
    members.next().is_none()
}

/// Passes the next member, where it has this word.
pub(crate) fn next_word(members: &mut Members<'_>, key: &str, word: &str) -> Result<(), Misread>
    ensures { ReadsNext (λ u. string word.now) IsAny key.now (members_view members.old) result (members_view members.new) }
{
    match next_data(members, key) {
        Some(json) => word_of(json, word),
        None => Err(Misread::Shape),
    }
}

/// The text of the next member.
pub(crate) fn next_text(
    alloc: Global,
    members: &mut Members<'_>,
    key: &str,
) -> Result<Text, Misread>
    ensures { ReadsNext string IsAny key.now (members_view members.old) result (members_view members.new) }
{
    match next_data(members, key) {
        Some(json) => text_of(alloc, json),
        None => Err(Misread::Shape),
    }
}

/// The number of the next member, within 32 bits.
pub(crate) fn next_u32(members: &mut Members<'_>, key: &str) -> Result<u32, Misread>
    ensures { ReadsNext number_data (λ n. n < 2 ^ 32) key.now (members_view members.old) result (members_view members.new) }
{
    match next_data(members, key) {
        Some(json) => u32_of(json),
        None => Err(Misread::Shape),
    }
}

/// The number of the next member, within 64 bits.
pub(crate) fn next_u64(members: &mut Members<'_>, key: &str) -> Result<u64, Misread>
    ensures { ReadsNext number_data (λ n. n < 2 ^ 64) key.now (members_view members.old) result (members_view members.new) }
{
    match next_data(members, key) {
        Some(json) => u64_of(json),
        None => Err(Misread::Shape),
    }
}

/// The number of the next member, within 64 bits with sign.
pub(crate) fn next_code(members: &mut Members<'_>, key: &str) -> Result<i64, Misread>
    ensures { ReadsNext code_data (FitsSigned w64) key.now (members_view members.old) result (members_view members.new) }
{
    match next_data(members, key) {
        Some(json) => code_of(json),
        None => Err(Misread::Shape),
    }
}

/// The kind of process of the next member.
pub(crate) fn next_kind(members: &mut Members<'_>, key: &str) -> Result<ProcessKind, Misread>
    ensures { ReadsNext kind_data IsAny key.now (members_view members.old) result (members_view members.new) }
{
    match next_data(members, key) {
        Some(json) => process_kind_of(json),
        None => Err(Misread::Shape),
    }
}

/// The state of the next member.
pub(crate) fn next_state(
    alloc: Global,
    members: &mut Members<'_>,
    key: &str,
) -> Result<ProcessState, Misread>
    ensures { ReadsNext state_data IsState key.now (members_view members.old) result (members_view members.new) }
{
    match next_data(members, key) {
        Some(json) => state_of(alloc, json),
        None => Err(Misread::Shape),
    }
}

/// The value of the next member.
pub(crate) fn next_value(
    alloc: Global,
    members: &mut Members<'_>,
    key: &str,
) -> Result<Value, Misread>
    ensures { ReadsNext value_data IsValue key.now (members_view members.old) result (members_view members.new) }
{
    match next_data(members, key) {
        Some(json) => value_of(alloc, json),
        None => Err(Misread::Shape),
    }
}
