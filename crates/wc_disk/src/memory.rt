//! A disk in memory, for tests and the drill.
ghost use Rattle.std.specs.Prelude.{◌≡◌, ◌≤◌, ◌+◌, ◌++◌, [], ◌∷◌, length, take, drop, false, is_err, if◌then◌else◌, IsTrue, IsErr, OnOk, OnErr, IfOk};
ghost use Rattle.wc_io.specs.Counts.{counted, CountsFault};
ghost use Rattle.wc_io.specs.Schedule.{fails_next, Advances};
ghost use Rattle.wc_disk.specs.declared.calls.Call.TheVariants.{Write, Cut, Sync};
ghost use Rattle.wc_disk.specs.Steps.{overwritten, Torn, Cut as CutShort, Follows, IsWithin, Only, Elapses};
ghost use Rattle.wc_disk.specs.Volume.{IsImage};
ghost use Rattle.wc_disk.specs.Replay.{LeftSince};
ghost use Rattle.wc_disk.specs.Fails.{FailsAsListed};
ghost use Rattle.wc_disk.specs.Picked.{IsPicked};

use crate::disk::Disk;
use crate::pick::Pick;
use crate::tape::Tape;
use std::alloc::{AllocError, Global};
use wc_io::{Failed, Failing, Schedule};
use wc_value::{Bytes, List};

/// A disk in memory. It keeps each call that changed it, by which it tells what a crash may have left at any time.
#[derive(Drop)]
pub struct MemoryDisk {
    alloc: Global,
    tape: Tape,
    schedule: Schedule,
    starved: u64,
}

impl MemoryDisk {
    ghost use Rattle.wc_io.specs.Memory.{fresh};
    ghost use Rattle.wc_disk.specs.Tape.{volume_of};

    /// A disk that holds this image, all of it synced, and whose calls with the listed numbers fail.
    pub fn new(alloc: Global, image: Bytes, failing: Failing) -> MemoryDisk
        // It begins with these bytes.
        ensures begun { result.tape.begun ≡ image }
        // No call was made.
        ensures calls { result.tape.calls ≡ [] }
        // These calls will fail, and none was made yet.
        ensures schedule { result.schedule ≡ fresh failing }
        // Memory never ran out in it.
        ensures starved { result.starved ≡ 0 }
    {
        MemoryDisk {
            alloc,
            tape: Tape::new(alloc, image),
            schedule: Schedule::new(failing),
            starved: 0,
        }
    }

    /// After so many further calls each call fails.
    pub fn fuse(&mut self, calls: u64)
        // Behind so many calls each one fails.
        ensures schedule { self.new.schedule ≡ record self.old.schedule { fuse = Some calls } }
        // Nothing else changes.
        ensures kept { self.new ≡ record self.old { schedule = self.new.schedule } }
    {
        self.schedule.set_fuse(calls);
    }

    /// A new disk that holds one image that a crash now may leave, all of it synced.
    pub fn crashed(&self, alloc: Global, pick: Pick) -> Result<MemoryDisk, AllocError>
        // Its bytes are those that the pick names.
        ensures picked { IfOk result (λ disk. IsPicked pick self.now.tape.begun self.now.tape.calls disk.tape.begun) }
        // Its bytes are an image that a crash may leave.
        ensures left { IfOk result (λ disk. IsImage (volume_of self.now.tape) disk.tape.begun) }
        // No call was made of it.
        ensures calls { IfOk result (λ disk. disk.tape.calls ≡ []) }
        // None of its calls will fail.
        ensures schedule { IfOk result (λ disk. disk.schedule ≡ fresh []) }
        // Memory never ran out in it.
        ensures starved { IfOk result (λ disk. disk.starved ≡ 0) }
    {
        let image = self.tape.image(alloc, pick)?;
        Ok(MemoryDisk::new(alloc, image, List::new(alloc)))
    }

    /// The bytes that a read gives.
    pub fn bytes(&self) -> &[u8]
        ensures { result.now ≡ (volume_of self.now.tape).seen }
    {
        self.tape.bytes()
    }

    /// How often a call failed for want of memory.
    pub fn starved(&self) -> u64
        ensures { result ≡ self.now.starved }
    {
        self.starved
    }
}

/// Counts a change for which no memory was left as a fault, in a call that is not to fail by its number.
fn count_starved(
    outcome: Result<(), AllocError>,
    schedule: &mut Schedule,
    starved: &mut u64,
) -> Result<(), Failed>
    requires unlisted { schedule.old.failed ≡ false }
    ensures same { is_err result ≡ is_err outcome }
    ensures cause { CountsFault result schedule.old.faults schedule.new.faults (IsTrue schedule.new.failed) }
    ensures failed { schedule.new.failed ≡ is_err result }
    ensures starved { starved.new ≡ (if is_err outcome then counted starved.old else starved.old) }
    ensures failing { schedule.new.failing ≡ schedule.old.failing }
    ensures fuse { schedule.new.fuse ≡ schedule.old.fuse }
    ensures number { schedule.new.number ≡ schedule.old.number }
{
    if outcome.is_err() {
        schedule.count_fault();
        *starved = starved.saturating_add(1);
        return Err(Failed);
    }
    Ok(())
}

impl Disk for MemoryDisk {
    ghost use Rattle.std.specs.Prelude.{true, length, IsTrue};
    ghost use Rattle.wc_disk.specs.Volume.{IsImage};
    ghost use Rattle.wc_disk.specs.Replay.{LeftSince, reads_as_image, counts_here, only_here};
    ghost use Rattle.wc_disk.specs.Tape.{volume_of};

    ghost tells = { λ _. true };

    ghost seen = { λ d. (volume_of d.tape).seen };

    ghost may_leave = { λ d. IsImage (volume_of d.tape) };

    ghost moment = { λ d. length d.tape.calls };

    ghost left_since = { λ d. LeftSince d.tape.calls d.tape.begun };

    ghost faults = { λ d. d.schedule.faults };

    ghost failed = { λ d. IsTrue d.schedule.failed };

    ghost alike = { λ one two i. true };

    ghost reads_as = { λ d told. reads_as_image d.tape.calls d.tape.begun };

    ghost counts_now = { λ d. counts_here d.tape.calls d.tape.begun };

    ghost only_now = { λ d. only_here d.tape.calls d.tape.begun };

    fn len(&mut self) -> Result<u64, Failed>
        ensures len { IfOk result (λ n. n ≡ length (volume_of self.old.tape).seen) }
        ensures seen { (volume_of self.new.tape).seen ≡ (volume_of self.old.tape).seen }
        ensures crash { IsWithin (IsImage (volume_of self.old.tape)) (IsImage (volume_of self.new.tape)) }
        ensures time { Elapses (length self.old.tape.calls) (length self.new.tape.calls)
            (LeftSince self.old.tape.calls self.old.tape.begun) (LeftSince self.new.tape.calls self.new.tape.begun) (IsImage (volume_of self.new.tape)) }
        ensures cause { CountsFault result self.old.schedule.faults self.new.schedule.faults (IsTrue self.new.schedule.failed) }
        // That the last call failed is known exactly where it did.
        ensures failed { self.new.schedule.failed ≡ is_err result }
        // It fails exactly where it is listed or the fuse is blown.
        ensures fails { is_err result ≡ fails_next self.old.schedule }
        // The count of calls for which no memory was left stays.
        ensures starved { self.new.starved ≡ self.old.starved }
        // The call is counted.
        ensures schedule { Advances self.old.schedule self.new.schedule }
        // The bytes that it began with stay.
        ensures begun { self.new.tape.begun ≡ self.old.tape.begun }
        // It adds nothing to the list of calls.
        ensures calls { self.new.tape.calls ≡ self.old.tape.calls }
    {
        self.schedule.call()?;
        Ok(self.tape.bytes().len() as u64)
    }

    fn read(&mut self, at: u64, into: &mut [u8]) -> Result<(), Failed>
        requires { at + length into.old ≤ length (volume_of self.old.tape).seen }
        ensures bytes { OnOk result (into.new ≡ take (length into.old) (drop at (volume_of self.old.tape).seen)) }
        ensures seen { (volume_of self.new.tape).seen ≡ (volume_of self.old.tape).seen }
        ensures crash { IsWithin (IsImage (volume_of self.old.tape)) (IsImage (volume_of self.new.tape)) }
        ensures time { Elapses (length self.old.tape.calls) (length self.new.tape.calls)
            (LeftSince self.old.tape.calls self.old.tape.begun) (LeftSince self.new.tape.calls self.new.tape.begun) (IsImage (volume_of self.new.tape)) }
        ensures cause { CountsFault result self.old.schedule.faults self.new.schedule.faults (IsTrue self.new.schedule.failed) }
        // That the last call failed is known exactly where it did.
        ensures failed { self.new.schedule.failed ≡ is_err result }
        // It fails exactly where it is listed or the fuse is blown.
        ensures fails { is_err result ≡ fails_next self.old.schedule }
        // The count of calls for which no memory was left stays.
        ensures starved { self.new.starved ≡ self.old.starved }
        // The call is counted.
        ensures schedule { Advances self.old.schedule self.new.schedule }
        // The bytes that it began with stay.
        ensures begun { self.new.tape.begun ≡ self.old.tape.begun }
        // It adds nothing to the list of calls.
        ensures calls { self.new.tape.calls ≡ self.old.tape.calls }
    {
        self.schedule.call()?;
        let at = at as usize;
        into.copy_from_slice(&self.tape.bytes()[at..at + into.len()]);
        Ok(())
    }

    fn write_at(&mut self, at: u64, bytes: &[u8]) -> Result<(), Failed>
        requires { at ≤ length (volume_of self.old.tape).seen }
        ensures written { OnOk result ((volume_of self.new.tape).seen ≡ overwritten at bytes.now (volume_of self.old.tape).seen) }
        ensures crash { Follows (Torn at (length bytes.now) (length (volume_of self.old.tape).seen)) (IsImage (volume_of self.old.tape)) (IsImage (volume_of self.new.tape)) }
        ensures time { Elapses (length self.old.tape.calls) (length self.new.tape.calls)
            (LeftSince self.old.tape.calls self.old.tape.begun) (LeftSince self.new.tape.calls self.new.tape.begun) (IsImage (volume_of self.new.tape)) }
        ensures cause { CountsFault result self.old.schedule.faults self.new.schedule.faults (IsTrue self.new.schedule.failed) }
        // That the last call failed is known exactly where it did.
        ensures failed { self.new.schedule.failed ≡ is_err result }
        // Where it is listed or the fuse is blown it fails; elsewhere it fails only where no memory was left, and that is counted.
        ensures fails { FailsAsListed self.old.schedule self.old.starved self.new.starved result }
        // The call is counted.
        ensures schedule { Advances self.old.schedule self.new.schedule }
        // The bytes that it began with stay.
        ensures begun { self.new.tape.begun ≡ self.old.tape.begun }
        // Where it is Ok, it adds itself alone to the list of calls.
        ensures calls { OnOk result (self.new.tape.calls ≡ self.old.tape.calls ++ Write at bytes.now ∷ []) }
        // Where it isn't Ok, the list of calls stays.
        ensures unchanged { OnErr result (self.new.tape.calls ≡ self.old.tape.calls) }
    {
        self.schedule.call()?;
        let outcome = self.tape.write(self.alloc, at as usize, bytes);
        count_starved(outcome, &mut self.schedule, &mut self.starved)
    }

    fn cut(&mut self, len: u64) -> Result<(), Failed>
        requires { len ≤ length (volume_of self.old.tape).seen }
        ensures shorter { OnOk result ((volume_of self.new.tape).seen ≡ take len (volume_of self.old.tape).seen) }
        ensures crash { Follows (CutShort len) (IsImage (volume_of self.old.tape)) (IsImage (volume_of self.new.tape)) }
        ensures time { Elapses (length self.old.tape.calls) (length self.new.tape.calls)
            (LeftSince self.old.tape.calls self.old.tape.begun) (LeftSince self.new.tape.calls self.new.tape.begun) (IsImage (volume_of self.new.tape)) }
        ensures cause { CountsFault result self.old.schedule.faults self.new.schedule.faults (IsTrue self.new.schedule.failed) }
        // That the last call failed is known exactly where it did.
        ensures failed { self.new.schedule.failed ≡ is_err result }
        // Where it is listed or the fuse is blown it fails; elsewhere it fails only where no memory was left, and that is counted.
        ensures fails { FailsAsListed self.old.schedule self.old.starved self.new.starved result }
        // The call is counted.
        ensures schedule { Advances self.old.schedule self.new.schedule }
        // The bytes that it began with stay.
        ensures begun { self.new.tape.begun ≡ self.old.tape.begun }
        // Where it is Ok, it adds itself alone to the list of calls.
        ensures calls { OnOk result (self.new.tape.calls ≡ self.old.tape.calls ++ Cut len ∷ []) }
        // Where it isn't Ok, the list of calls stays.
        ensures unchanged { OnErr result (self.new.tape.calls ≡ self.old.tape.calls) }
    {
        self.schedule.call()?;
        let outcome = self.tape.cut(self.alloc, len as usize);
        count_starved(outcome, &mut self.schedule, &mut self.starved)
    }

    fn sync(&mut self) -> Result<(), Failed>
        ensures durable { OnOk result (Only (volume_of self.old.tape).seen (IsImage (volume_of self.new.tape))) }
        ensures seen { (volume_of self.new.tape).seen ≡ (volume_of self.old.tape).seen }
        ensures crash { IsWithin (IsImage (volume_of self.old.tape)) (IsImage (volume_of self.new.tape)) }
        ensures time { Elapses (length self.old.tape.calls) (length self.new.tape.calls)
            (LeftSince self.old.tape.calls self.old.tape.begun) (LeftSince self.new.tape.calls self.new.tape.begun) (IsImage (volume_of self.new.tape)) }
        ensures cause { CountsFault result self.old.schedule.faults self.new.schedule.faults (IsTrue self.new.schedule.failed) }
        // That the last call failed is known exactly where it did.
        ensures failed { self.new.schedule.failed ≡ is_err result }
        // Where it is listed or the fuse is blown it fails; elsewhere it fails only where no memory was left, and that is counted.
        ensures fails { FailsAsListed self.old.schedule self.old.starved self.new.starved result }
        // The call is counted.
        ensures schedule { Advances self.old.schedule self.new.schedule }
        // The bytes that it began with stay.
        ensures begun { self.new.tape.begun ≡ self.old.tape.begun }
        // Where it is Ok, it adds itself alone to the list of calls.
        ensures calls { OnOk result (self.new.tape.calls ≡ self.old.tape.calls ++ Sync ∷ []) }
        // Where it isn't Ok, the list of calls stays.
        ensures unchanged { OnErr result (self.new.tape.calls ≡ self.old.tape.calls) }
    {
        self.schedule.call()?;
        let outcome = self.tape.sync();
        count_starved(outcome, &mut self.schedule, &mut self.starved)
    }
}
