//! A disk that may crash at any moment.
ghost use Rattle.std.specs.Prelude.{◌≡◌, ◌≤◌, ◌+◌, ℕ, Bool, List, length, take, drop, IsTrue, IfOk, OnOk};
ghost use Rattle.wc_io.specs.Counts.{CountsFault};
ghost use Rattle.wc_disk.specs.Steps.{overwritten, Torn, Cut, Follows, IsWithin, Only, Elapses};

use wc_io::Failed;

/// A file as a journal sees it: what a read gives now, and what a crash may leave.
///
/// A call outside the file's bounds is ruled out where the disk tells its bytes, and is a fault where it doesn't.
pub trait Disk {
    /// Whether the disk tells its bytes. Where it doesn't, its other meanings say nothing.
    ghost tells: { Self → Bool };

    /// The bytes that a read gives.
    ghost seen: { Self → List ℕ };

    /// What a crash now may leave.
    ghost may_leave: { Self → List ℕ → Type 0 };

    /// The time of the disk's clock, which no call sets back.
    ghost moment: { Self → ℕ };

    /// What a crash at some moment since that time may have left, during a call or between two.
    ghost left_since: { Self → ℕ → List ℕ → Type 0 };

    /// How often a call has failed.
    ghost faults: { Self → ℕ };

    /// The last call failed. Nothing says so after a call that succeeded.
    ghost failed: { Self → Type 0 };

    /// The number of bytes.
    fn len(&mut self) -> Result<u64, Failed>
        ensures len { IfOk result (λ n. IsTrue (tells self.old) → n ≡ length (seen self.old)) }
        ensures seen { seen self.new ≡ seen self.old }
        ensures crash { IsWithin (may_leave self.old) (may_leave self.new) }
        ensures time { Elapses (moment self.old) (moment self.new) (left_since self.old) (left_since self.new) (may_leave self.new) }
        ensures tells { tells self.new ≡ tells self.old }
        ensures cause { CountsFault result (faults self.old) (faults self.new) (failed self.new) };

    /// Fills `into` with the bytes from this offset on.
    fn read(&mut self, at: u64, into: &mut [u8]) -> Result<(), Failed>
        requires { IsTrue (tells self.old) → at + length into.old ≤ length (seen self.old) }
        ensures bytes { OnOk result (IsTrue (tells self.old) → into.new ≡ take (length into.old) (drop at (seen self.old))) }
        ensures seen { seen self.new ≡ seen self.old }
        ensures crash { IsWithin (may_leave self.old) (may_leave self.new) }
        ensures time { Elapses (moment self.old) (moment self.new) (left_since self.old) (left_since self.new) (may_leave self.new) }
        ensures tells { tells self.new ≡ tells self.old }
        ensures cause { CountsFault result (faults self.old) (faults self.new) (failed self.new) };

    /// Writes over what is there, and past the end. Until a sync, a crash may leave any bytes in the range.
    fn write_at(&mut self, at: u64, bytes: &[u8]) -> Result<(), Failed>
        requires { IsTrue (tells self.old) → at ≤ length (seen self.old) }
        ensures written { OnOk result (IsTrue (tells self.old) → seen self.new ≡ overwritten at bytes.now (seen self.old)) }
        ensures crash { Follows (Torn at (length bytes.now) (length (seen self.old))) (may_leave self.old) (may_leave self.new) }
        ensures time { Elapses (moment self.old) (moment self.new) (left_since self.old) (left_since self.new) (may_leave self.new) }
        ensures tells { tells self.new ≡ tells self.old }
        ensures cause { CountsFault result (faults self.old) (faults self.new) (failed self.new) };

    /// Cuts the file to a length that it has.
    fn cut(&mut self, len: u64) -> Result<(), Failed>
        requires { IsTrue (tells self.old) → len ≤ length (seen self.old) }
        ensures shorter { OnOk result (IsTrue (tells self.old) → seen self.new ≡ take len (seen self.old)) }
        ensures crash { Follows (Cut len) (may_leave self.old) (may_leave self.new) }
        ensures time { Elapses (moment self.old) (moment self.new) (left_since self.old) (left_since self.new) (may_leave self.new) }
        ensures tells { tells self.new ≡ tells self.old }
        ensures cause { CountsFault result (faults self.old) (faults self.new) (failed self.new) };

    /// After a sync that succeeds a crash leaves what a read gives.
    fn sync(&mut self) -> Result<(), Failed>
        ensures durable { OnOk result (Only (seen self.old) (may_leave self.new)) }
        ensures seen { seen self.new ≡ seen self.old }
        ensures crash { IsWithin (may_leave self.old) (may_leave self.new) }
        ensures time { Elapses (moment self.old) (moment self.new) (left_since self.old) (left_since self.new) (may_leave self.new) }
        ensures tells { tells self.new ≡ tells self.old }
        ensures cause { CountsFault result (faults self.old) (faults self.new) (failed self.new) };

    /// Either each disk of this kind tells its bytes, or none does.
    ghost alike: { (one two : Self) → tells one ≡ tells two };

    /// A disk reads as one of the images that a crash now may leave.
    ghost reads_as: { (disk : Self) → IsTrue (tells disk) → may_leave disk (seen disk) };

    /// This moment is one of those since an earlier one.
    ghost counts_now: { (disk : Self) (t : ℕ) (image : List ℕ) → t ≤ moment disk → may_leave disk image → left_since disk t image };

    /// Since this moment there is no other.
    ghost only_now: { (disk : Self) (image : List ℕ) → left_since disk (moment disk) image → may_leave disk image };
}
