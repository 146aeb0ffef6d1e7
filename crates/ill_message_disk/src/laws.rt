//! The laws of message files on a disk are the contracts of functions that do nothing.

ghost use Rattle.std.specs.Prelude.{◌≡◌, ℕ, List, true, slice_get, Some, Result};
ghost use Rattle.ill_disk.specs.Disk.{File, Disk, Crash, bytes_of};
ghost use Rattle.ill_disk.specs.Calls.{DiskState};
ghost use Rattle.ill_disk.specs.declared.disk.DiskFault.{DiskFault};
ghost use Rattle.ill_message_disk.specs.Touches.{TouchesOnly};
ghost use Rattle.ill_message_disk.specs.Spots.{SpotOf, Place, GivesMessageFileBack, Survives};
ghost use Rattle.ill_message_disk.specs.Runs.{RunState, MovesInRun};
ghost use Rattle.ill_message_disk.specs.Whole.{PutsWhole};
ghost use Rattle.ill_message_disk.specs.BadMessageFiles.{IsBadGivingBack, IsBadMove, IsBadPut, LosesMessageFile};

/// No loss of power at any moment of a call leaves the file of a message file that survives the call without a name.
pub fn no_loss_of_power_loses_a_message_file()
    ensures { (spot : SpotOf) (old new : DiskState) → Survives spot old new → LosesMessageFile spot old new → ⊥ }
{}

/// A loss of power leaves the bytes of a file that was flushed before the call, whatever names are touched.
pub fn a_flushed_message_file_keeps_its_bytes()
    ensures { (paths : List (List ℕ)) (old moment after : Disk) (file : ℕ) (f : File) → TouchesOnly paths old moment →
        slice_get old.files file ≡ Some f → f.is_flushed ≡ true → Crash moment after →
        bytes_of after.files (Some file) ≡ Some f.bytes }
{}

/// A call that is to move `number` to the place `to` moves no other message file, and `number` to no third
/// place. If it is done, `number` is no longer claimed, unless `to` is `Claimed`. It moves no message file that
/// is not claimed, and changes no messages that ask.
#[tactic(auto, using(crate::proofs::BadMessageFiles::no_bad_move))]
pub fn no_move_is_bad()
    ensures { (to : Place) (number : ℕ) (old new : RunState) (answer : Result (Unit {0}) DiskFault) →
        MovesInRun to number old answer new → IsBadMove to number old answer new → ⊥ }
{}

/// No message file is given back over another file that has come under its name.
#[tactic(auto, using(crate::proofs::BadMessageFiles::none_over_another))]
pub fn no_message_file_is_given_back_over_another()
    ensures { (spot : SpotOf) (old new : DiskState) → GivesMessageFileBack spot old new → IsBadGivingBack spot old new → ⊥ }
{}

/// No loss of power at any moment of a put leaves a torn file at the path. It leaves what it might have left before, or
/// all bytes. A put that is done has put them. No name is changed but the path and the temporary one.
pub fn no_put_is_bad()
    ensures { (temporary path bytes : List ℕ) (old new : DiskState) (answer : Result (Unit {0}) DiskFault) →
        PutsWhole temporary path bytes old answer new → IsBadPut temporary path bytes old answer new → ⊥ }
{}
