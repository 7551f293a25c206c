//! Hashers that have taken up the beginnings of keys, so that a long text of a definition is hashed once. They take memory.

ghost use Rattle.std.specs.Prelude.{◌≡◌, ℕ, List, Some, IfOk, OnOk};
ghost use Rattle.std.specs.BTreeMap.{get};
ghost use Rattle.sha2.specs.Hashers.{Holds256};
ghost use Rattle.wc_keys.specs.SealKeys.{key_start};
ghost use Rattle.wc_fits.specs.World.{Known};
ghost use Rattle.wc_keys.specs.Beginnings.{place_cmp, text_at, AreBegun};

use crate::key_hasher;
use sha2::Sha256;
use std::alloc::{AllocError, Global};
use std::collections::BTreeMap;
use wc_state::ProcessRecord;
use wc_value::Text;

/// The most bytes of a text that is hashed for each process: more take longer than to look up a hasher.
const MOST_BYTES: usize = 256;

/// The number of a library and the name of a definition in it, as its bytes.
pub(crate) type Place = (u32, Vec<u8>);

/// Hashers of the beginnings of keys, each kept for a definition.
pub(crate) type Beginnings = BTreeMap<Place, Sha256>;

/// The hasher that is kept for a definition, if there is one.
fn find(begun: &Beginnings, place: &Place) -> Result<Option<Sha256>, AllocError>
    ensures { IfOk result (λ found. found ≡ get place_cmp begun.now place.now) }
{
    match begun.get(place) {
        Some(hasher) => Ok(Some(hasher.clone()?)),
        None => Ok(None),
    }
}

/// A hasher of the beginning of a key, by the text of the definition at a place. It is made once and kept.
fn begin_once(begun: &mut Beginnings, place: Place, text: &Text) -> Result<Sha256, AllocError>
    ensures holds { IfOk result (λ hasher. (libraries : List Known) → AreBegun libraries begun.old → text_at libraries place.0 place.1.items ≡ Some text.now → Holds256 hasher (key_start text.now)) }
    ensures kept { OnOk result ((libraries : List Known) → AreBegun libraries begun.old → text_at libraries place.0 place.1.items ≡ Some text.now → AreBegun libraries begun.new) }
{
    if let Some(hasher) = find(begun, &place)? {
        return Ok(hasher);
    }
    let hasher = key_hasher(text);
    begun.insert(place, hasher.clone()?)?;
    Ok(hasher)
}

/// A hasher of the beginning of the key of a process, by the text of its definition.
pub(crate) fn begin(
    alloc: Global,
    begun: &mut Beginnings,
    record: &ProcessRecord,
    text: &Text,
) -> Result<Sha256, AllocError>
    ensures holds { IfOk result (λ hasher. (libraries : List Known) → AreBegun libraries begun.old → text_at libraries «record».now.library «record».now.definition ≡ Some text.now → Holds256 hasher (key_start text.now)) }
    ensures kept { OnOk result ((libraries : List Known) → AreBegun libraries begun.old → text_at libraries «record».now.library «record».now.definition ≡ Some text.now → AreBegun libraries begun.new) }
{
    if text.bytes().len() <= MOST_BYTES {
        return Ok(key_hasher(text));
    }
    let name = Vec::from_slice(alloc, record.definition.bytes())?;
    begin_once(begun, (record.library, name), text)
}
