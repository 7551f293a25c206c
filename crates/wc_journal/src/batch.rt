//! A batch, framed for one write.
ghost use Rattle.std.specs.Prelude.{◌≡◌, ◌⊎◌, ◌≤◌, ◌+◌, ◌++◌, length, IfOk, OnOk, IfErr};
ghost use Rattle.wc_journal.specs.Reading.{size_of};
ghost use Rattle.wc_journal.specs.Frame.{prefix, framed, payload_in, most_of};
ghost use Rattle.wc_journal.specs.Refusals.{RefusesBatch};

use crate::error::JournalError;
use std::alloc::{AllocError, Global};

/// The most bytes of a payload in version 1.
const MOST_OF_FIRST: usize = 1 << 30;

/// The most bytes of a payload in version 2.
const MOST_OF_SECOND: usize = 1 << 31;

/// A batch of one version, with the gate that is to stand behind it.
#[derive(Drop)]
pub struct Batch {
    version: u8,
    snapshot: bool,
    bytes: Vec<u8>,
    ghost is_framed: { bytes.items ≡ framed version snapshot (payload_in version bytes.items) },
    ghost is_small: { length (payload_in version bytes.items) ≤ most_of version },
}

impl Batch {
    ghost use Rattle.wc_journal.specs.Batches.{payload_of};

    /// Frames a payload. A snapshot goes at the first place of a generation of at least 2.
    pub fn of(
        alloc: Global,
        version: u8,
        snapshot: bool,
        payload: &[u8],
    ) -> Result<Batch, JournalError>
        requires { (version ≡ 1) ⊎ (version ≡ 2) }
        ensures version { IfOk result (λ batch. batch.version ≡ version) }
        ensures snapshot { IfOk result (λ batch. batch.snapshot ≡ snapshot) }
        ensures payload { IfOk result (λ batch. payload_of batch ≡ payload.now) }
        ensures fits { OnOk result (length payload.now ≤ most_of version) }
        ensures refused { IfErr result (λ error. RefusesBatch version payload.now error) }
    {
        let most = most_bytes(version);
        if payload.len() > most {
            return Err(JournalError::Full(payload.len() as u64, most as u64));
        }
        let bytes = frame(alloc, version, snapshot, payload)?;
        Ok(Batch {
            version,
            snapshot,
            bytes,
        })
    }

    /// The frame, and the gate behind it.
    #[tactic(auto, using(crate::proofs::Appending::framed_size))]
    pub(crate) fn bytes(&self) -> &[u8]
        ensures value { result.now ≡ framed self.now.version self.now.snapshot (payload_of self.now) }
        ensures fits { length (payload_of self.now) ≤ most_of self.now.version }
        ensures size { length result.now ≡ size_of self.now.version + length (payload_of self.now) + 1 }
    {
        &self.bytes
    }
}

/// The most bytes that a payload may have.
fn most_bytes(version: u8) -> usize
    ensures { result ≡ most_of version }
{
    if version == 1 {
        MOST_OF_FIRST
    } else {
        MOST_OF_SECOND
    }
}

/// A batch, and a gate behind it that is not open.
fn frame(alloc: Global, version: u8, snapshot: bool, payload: &[u8]) -> Result<Vec<u8>, AllocError>
    requires { length payload.now ≤ most_of version }
    ensures { IfOk result (λ bytes. bytes.items ≡ framed version snapshot payload.now) }
{
    let mut bytes = Vec::with_capacity(alloc, payload.len() + 10)?;
    put_prefix(&mut bytes, version, snapshot, payload.len())?;
    bytes.extend_from_slice(payload)?;
    bytes.push(0)?;
    Ok(bytes)
}

/// Writes what stands before a payload.
#[tactic(auto, unfolding(crate::specs::Frame::prefix))]
fn put_prefix(
    bytes: &mut Vec<u8>,
    version: u8,
    snapshot: bool,
    len: usize,
) -> Result<(), AllocError>
    requires { len ≤ most_of version }
    ensures { OnOk result (bytes.new.items ≡ bytes.old.items ++ prefix version snapshot len) }
{
    if version == 1 {
        return bytes.extend_from_slice(&(len as u32).to_be_bytes());
    }
    bytes.push(if snapshot { 2 } else { 1 })?;
    bytes.extend_from_slice(&(len as u64).to_be_bytes())
}
