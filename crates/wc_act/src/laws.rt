//! Laws of what is held. Each is the contract of a function that does nothing.

ghost use Rattle.std.specs.Prelude.{ℕ, [], List, Option};
ghost use Rattle.wc_store.specs.Held.{IsHeld, nothing};
ghost use Rattle.wc_store.specs.Laws.{HeldIsOne, HeldIsReached};
ghost use Rattle.wc_drill.specs.Runner.Laws.{WorldsContinueThemselves};
ghost use Rattle.wc_plan.specs.declared.deed.Deed.{Deed};
ghost use Rattle.wc_act.specs.Crashes.{BegunBy, HoldsSound, IsOfEachMoment, Kept, MadeBy};
ghost use Rattle.wc_act.specs.Exchanges.{exchange};
ghost use Rattle.wc_act.specs.Laws.{DeedsBeginSound, DeedsKeepSound, ImagesAreBrought, ToldTreesAreMeant};
ghost use Rattle.wc_act.specs.Rows.{row};

use wc_disk::Disk;
use wc_drill::{drills_are_sound, events_keep_sound, worlds_continue_themselves};
use wc_io::Pacer;
use wc_store::{held_worlds_are_reached, images_hold_one_thing};
use wc_transport::Transport;

/// Two empty disks hold nothing, so they meet what the clause `sound` of the top call asks of each pair of images at entry.
pub fn empty_disks_hold_nothing()
    // Two empty images hold nothing.
    ensures nothing { IsHeld [] [] nothing }
    // They meet what `sound` asks.
    ensures meets { HoldsSound [] [] }
{}

/// Where nothing is pending at entry on a disk that is not written, what is promised of each image of the other, beside those that this one may leave at
/// exit, is promised beside each image that it has at any moment: what `act` leaves, what the words of the top call make, and that it is sound.
pub fn pairs_of_any_moments_are_kept<D: Disk, T: Transport, P: Pacer>()
    // So it is of what a deed may leave.
    ensures kept { (d : Deed) (old new : T) (clock clock_new : P) (one two one_new two_new : D) → IsOfEachMoment D.Disk one two one_new two_new
        (Kept D.Disk (row d).begins ((row d).makes (exchange T.Transport P.Pacer old new clock clock_new)) one two) }
    // So it is of what words may leave.
    ensures made { (told : Option (List ℕ → Option (List ℕ))) (words : List (List ℕ)) (old new : T) (clock clock_new : P) (one two one_new two_new : D)
        → IsOfEachMoment D.Disk one two one_new two_new
        (Kept D.Disk (BegunBy told words) (MadeBy told words (exchange T.Transport P.Pacer old new clock clock_new)) one two) }
    // So it is of sound worlds.
    ensures sound { (one two one_new two_new : D) → IsOfEachMoment D.Disk one two one_new two_new HoldsSound }
{}

/// What is known of the worlds that a store holds.
pub fn worlds_are_kept()
    ensures one { HeldIsOne }
    ensures reached { HeldIsReached }
    ensures same { WorldsContinueThemselves }
{
    images_hold_one_thing();
    held_worlds_are_reached();
    worlds_continue_themselves();
}

/// What a deed may make of a sound world is sound and continues it, and what it may begin a store with is sound.
pub fn deeds_keep_worlds_sound<T: Transport, P: Pacer>()
    ensures keep { DeedsKeepSound T.Transport P.Pacer }
    ensures begin { DeedsBeginSound }
{
    events_keep_sound();
    drills_are_sound();
    worlds_continue_themselves();
}

/// What an image of a run keeps beside what was there, comes from the transport and the clock: exit codes, and where no call failed, no mark and no failure.
pub fn images_of_runs_are_brought<T: Transport, P: Pacer>()
    ensures { ImagesAreBrought T.Transport P.Pacer }
{}

/// What `tree` tells of a process of a sound world that has ended is the tree that its definition means.
pub fn told_trees_are_meant()
    ensures { ToldTreesAreMeant }
{}
