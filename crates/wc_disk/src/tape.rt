//! The bytes of a disk in memory, with all that was done to them.
ghost use Rattle.std.specs.Prelude.{◌≡◌, ◌≤◌, ◌+◌, ◌++◌, [], ◌∷◌, length, vec_len, vec_capacity, take, ℕ, List, IfOk, OnOk, OnErr};
ghost use Rattle.wc_disk.specs.Steps.{overwritten};
ghost use Rattle.wc_disk.specs.Volume.{present, HasRoom, settled, after_calls, IsImage};
ghost use Rattle.wc_disk.specs.Picked.{IsPicked};

use crate::calls::Call;
use crate::edits::overwrite;
use crate::pick::Pick;
use crate::replay::{last_sync, put_noise, replayed};
use std::alloc::{AllocError, Global};
use wc_value::{Bytes, List};

/// What a file held at first, what it holds now, and each call between that changed it.
#[derive(Drop)]
pub struct Tape {
    begun: Bytes,
    current: Option<Vec<u8>>,
    calls: List<Call>,
    ghost replayed: { present begun current ≡ (after_calls calls (settled begun)).seen },
}

impl Tape {
    ghost use Rattle.wc_disk.specs.Tape.{volume_of};

    /// These bytes, all of them on the disk. It takes no memory.
    pub fn new(alloc: Global, begun: Bytes) -> Tape
        // It begins with these bytes.
        ensures begun { result.begun ≡ begun }
        // No call was made.
        ensures calls { result.calls ≡ [] }
    {
        Tape {
            begun,
            current: None,
            calls: List::new(alloc),
        }
    }

    /// What a read gives.
    pub fn bytes(&self) -> &[u8]
        ensures { result.now ≡ (volume_of self.now).seen }
    {
        match &self.current {
            None => self.begun.bytes(),
            Some(bytes) => bytes.as_slice(),
        }
    }

    /// Writes over what is there, and past the end, or changes nothing.
    pub fn write(&mut self, alloc: Global, at: usize, bytes: &[u8]) -> Result<(), AllocError>
        // The write begins within what a read gives, or just behind it.
        requires { at ≤ length (volume_of self.old).seen }
        // The bytes that it began with stay.
        ensures begun { self.new.begun ≡ self.old.begun }
        // Where it is Ok, it adds itself alone to the list of calls.
        ensures ok { OnOk result (self.new.calls ≡ self.old.calls ++ Call.Write at bytes.now ∷ []) }
        // Where it isn't Ok, the list of calls stays.
        ensures err { OnErr result (self.new.calls ≡ self.old.calls) }
    {
        let mut copy: Bytes = List::new(alloc);
        copy.extend(bytes)?;
        make_room(alloc, &self.begun, &mut self.current, bytes.len())?;
        self.calls.push(Call::Write(at as u64, copy))?;
        put(&mut self.current, at, bytes);
        Ok(())
    }

    /// Cuts to a length, or changes nothing.
    pub fn cut(&mut self, alloc: Global, len: usize) -> Result<(), AllocError>
        // The length is at most that of the bytes.
        requires { len ≤ length (volume_of self.old).seen }
        // The bytes that it began with stay.
        ensures begun { self.new.begun ≡ self.old.begun }
        // Where it is Ok, it adds itself alone to the list of calls.
        ensures ok { OnOk result (self.new.calls ≡ self.old.calls ++ Call.Cut len ∷ []) }
        // Where it isn't Ok, the list of calls stays.
        ensures err { OnErr result (self.new.calls ≡ self.old.calls) }
    {
        make_room(alloc, &self.begun, &mut self.current, 0)?;
        self.calls.push(Call::Cut(len as u64))?;
        shorten(&mut self.current, len);
        Ok(())
    }

    /// One image that a crash may leave.
    pub fn image(&self, alloc: Global, pick: Pick) -> Result<Bytes, AllocError>
        // Its bytes are those that the pick names.
        ensures picked { IfOk result (λ image. IsPicked pick self.now.begun self.now.calls image) }
        // Its bytes are an image that a crash may leave.
        ensures left { IfOk result (λ image. IsImage (volume_of self.now) image) }
    {
        let bytes = picked(
            alloc,
            self.begun.bytes(),
            self.bytes(),
            self.calls.as_slice(),
            pick,
        )?;
        let mut image: Bytes = List::new(alloc);
        image.extend(&bytes)?;
        Ok(image)
    }

    /// Brings all to the disk, or changes nothing.
    pub fn sync(&mut self) -> Result<(), AllocError>
        // The bytes that it began with stay.
        ensures begun { self.new.begun ≡ self.old.begun }
        // Where it is Ok, it adds itself alone to the list of calls.
        ensures ok { OnOk result (self.new.calls ≡ self.old.calls ++ Call.Sync ∷ []) }
        // Where it isn't Ok, the list of calls stays.
        ensures err { OnErr result (self.new.calls ≡ self.old.calls) }
    {
        self.calls.push(Call::Sync)?;
        Ok(())
    }
}

/// The picked image.
fn picked(
    alloc: Global,
    begun: &[u8],
    seen: &[u8],
    calls: &[Call],
    pick: Pick,
) -> Result<Vec<u8>, AllocError>
    requires { seen.now ≡ (after_calls calls.now (settled begun.now)).seen }
    ensures { IfOk result (λ image. IsPicked pick begun.now calls.now image.items) }
{
    let (synced, since) = calls.split_at(last_sync(calls));
    match pick {
        Pick::Old => replayed(alloc, begun, synced),
        Pick::New => seen.to_vec(alloc),
        Pick::Noise(seed) => {
            let mut image = seen.to_vec(alloc)?;
            put_noise(alloc, &mut image, seed, since)?;
            Ok(image)
        }
    }
}

/// Makes the bytes ready for a change, with room for so many more.
fn make_room(
    alloc: Global,
    begun: &Bytes,
    current: &mut Option<Vec<u8>>,
    more: usize,
) -> Result<(), AllocError>
    ensures same { present begun.now current.new ≡ present begun.now current.old }
    ensures room { OnOk result (HasRoom current.new more) }
{
    if current.is_none() {
        *current = Some(begun.bytes().to_vec(alloc)?);
    }
    match current {
        None => Ok(()),
        Some(bytes) => bytes.reserve(more),
    }
}

/// Writes over what is there, and past the end.
fn put(current: &mut Option<Vec<u8>>, at: usize, bytes: &[u8])
    requires room { HasRoom current.old (length bytes.now) }
    requires within { at ≤ length (present [] current.old) }
    ensures { (begun : List ℕ) → present begun current.new ≡ overwritten at bytes.now (present begun current.old) }
{
    if let Some(old) = current {
        overwrite(old, at, bytes);
    }
}

/// Drops what stands behind a length.
fn shorten(current: &mut Option<Vec<u8>>, len: usize)
    requires { HasRoom current.old 0 }
    ensures { (begun : List ℕ) → present begun current.new ≡ take len (present begun current.old) }
{
    if let Some(bytes) = current {
        bytes.truncate(len);
    }
}
