//! Laws of images. Each is the contract of a function that does nothing.
ghost use Rattle.std.specs.Prelude.{◌≡◌, ℕ, List};
ghost use Rattle.wc_journal.specs.Reading.{Placed, holds, journal_of};
ghost use Rattle.wc_journal.specs.Spelled.{IsBytes, IsSpelled};

/// An image holds these batches exactly where it is their spelling, up to a gate that is not open.
pub fn an_image_holds_what_it_spells()
    // An image that spells batches holds them.
    ensures held { (version generation : ℕ) (batches : Placed) (image : List ℕ)
        → IsSpelled version generation batches image → journal_of image ≡ holds version generation batches }
    // Bytes that hold batches spell them.
    ensures only { (version generation : ℕ) (batches : Placed) (image : List ℕ) → IsBytes image
        → journal_of image ≡ holds version generation batches → IsSpelled version generation batches image }
{}
