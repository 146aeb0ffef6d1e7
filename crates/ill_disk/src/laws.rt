//! The laws of a disk that may lose its power are the contracts of functions that do nothing.

ghost use Rattle.std.specs.Prelude.{◌≡◌, ◌⊎◌, ℕ, length, false, slice_get, List, Option, Some, None, Result};
ghost use Rattle.ill_disk.specs.Disk.{In, File, Name, Disk, Crash, Leaves, IsWhole, IsOldOr, content, found_at, with_rename, with_name, without, after_create, after_remove, after_rename, after_flush, after_flush_names, empty_disk, after_save, on_the_way};
ghost use Rattle.ill_disk.specs.Calls.{DiskState, Reads, Changes, Answers, IsLargeOnlyIf, Throughout, IsMoment, WantsFile};
ghost use Rattle.ill_disk.specs.BadCalls.{IsBadAnswer, IsBadFinding, IsBadRead, IsBadSize};
ghost use Rattle.ill_disk.specs.declared.disk.DiskFault.{DiskFault};
ghost use Rattle.ill_disk.specs.BadDisk.{IsBadCrash, IsHalfRenamed, LosesNames};

/// A new file gives its bytes, and a removed path gives nothing. After a rename of a file the new path gives what the
/// old path gave. The old path, if it is another, then gives nothing. On a whole disk no other path changes. A flush
/// changes nothing that is read.
#[tactic(auto, using(crate::proofs::Saves::create_is_read, crate::proofs::Saves::create_elsewhere, crate::proofs::Saves::remove_is_read, crate::proofs::Saves::remove_elsewhere, crate::proofs::Saves::rename_is_read, crate::proofs::Saves::rename_is_gone, crate::proofs::Saves::rename_elsewhere, crate::proofs::Crashes::flush_is_not_read))]
pub fn reads_follow_calls()
    ensures created { (path bytes : List ℕ) (d : Disk) → content path (after_create path bytes d) ≡ Some bytes }
    ensures removed { (path : List ℕ) (d : Disk) → content path (after_remove path d) ≡ None }
    ensures renamed { (from to : List ℕ) (d : Disk) (file : ℕ) → found_at from d.names ≡ Some file →
        content to (after_rename from to d) ≡ content from d }
    ensures gone { (from to : List ℕ) (d : Disk) (file : ℕ) → found_at from d.names ≡ Some file →
        (from ≡ to → ⊥) → content from (after_rename from to d) ≡ None }
    ensures create_elsewhere { (path other bytes : List ℕ) (d : Disk) → IsWhole d → (path ≡ other → ⊥) →
        content other (after_create path bytes d) ≡ content other d }
    ensures remove_elsewhere { (path other : List ℕ) (d : Disk) → (path ≡ other → ⊥) →
        content other (after_remove path d) ≡ content other d }
    ensures rename_elsewhere { (from to other : List ℕ) (d : Disk) → (from ≡ other → ⊥) → (to ≡ other → ⊥) →
        content other (after_rename from to d) ≡ content other d }
    ensures flushed { (path flushed : List ℕ) (d : Disk) → content path (after_flush flushed d) ≡ content path d }
    ensures names_flushed { (path : List ℕ) (d : Disk) → content path (after_flush_names d) ≡ content path d }
{}

/// The empty disk is whole. Each call keeps a whole disk whole, and so does each crash.
#[tactic(auto, using(crate::proofs::Wholes::empty_whole, crate::proofs::Wholes::remove_whole, crate::proofs::Wholes::rename_whole, crate::proofs::Wholes::flush_names_whole, crate::proofs::Wholes::crash_whole))]
pub fn disks_stay_whole()
    ensures empty { IsWhole empty_disk }
    ensures created { (path bytes : List ℕ) (d : Disk) → IsWhole d → IsWhole (after_create path bytes d) }
    ensures removed { (path : List ℕ) (d : Disk) → IsWhole d → IsWhole (after_remove path d) }
    ensures renamed { (from to : List ℕ) (d : Disk) → IsWhole d → IsWhole (after_rename from to d) }
    ensures flushed { (path : List ℕ) (d : Disk) → IsWhole d → IsWhole (after_flush path d) }
    ensures names_flushed { (d : Disk) → IsWhole d → IsWhole (after_flush_names d) }
    ensures crashed { (d after : Disk) → Crash d after → IsWhole d → IsWhole after }
{}

/// Each crash after a flush of names leaves exactly these names. If a file was flushed before the names, the crash
/// leaves its bytes, too.
#[tactic(auto, using(crate::proofs::Crashes::names_left))]
pub fn what_is_flushed_lasts()
    ensures names { (d after : Disk) → Crash (after_flush_names d) after → after.names ≡ d.names }
    ensures bytes { (path : List ℕ) (d : Disk) (found : Option (List ℕ)) →
        Leaves (after_flush_names (after_flush path d)) path found → found ≡ content path d }
{}

/// A crash may leave any bytes in a file that is not flushed. Each list of names that may stand is left by some crash.
#[tactic(auto, using(crate::proofs::Crashes::each_may_stand))]
pub fn what_is_not_flushed_may_be_lost()
    ensures bytes { (path : List ℕ) (d : Disk) (file : ℕ) (f : File) (bytes : List ℕ) → In d.may_stand d.names →
        found_at path d.names ≡ Some file → slice_get d.files file ≡ Some f → f.is_flushed ≡ false →
        Leaves d path (Some bytes) }
    ensures names { (d : Disk) (names : List Name) → In d.may_stand names →
        (after : Disk) × Crash d after × (after.names ≡ names) }
{}

/// A crash after a rename leaves names that could stand before, with the whole rename or without it. A rename is never
/// half done.
#[tactic(auto, using(crate::proofs::Crashes::change_left))]
pub fn a_rename_is_done_or_not()
    ensures either { (from to : List ℕ) (d after : Disk) → Crash (after_rename from to d) after →
        In d.may_stand after.names ⊎ ((names : List Name) × In d.may_stand names ×
        (after.names ≡ with_rename from to (found_at from d.names) names)) }
    ensures never_half { (from to : List ℕ) (file : ℕ) (names : List Name) → (from ≡ to → ⊥) →
        IsHalfRenamed from to file (with_rename from to (Some file) names) → ⊥ }
{}

/// After a change each list of names that might stand before may stand, with the change and without it.
pub fn no_change_loses_what_may_stand()
    ensures created { (path bytes : List ℕ) (d : Disk) →
        LosesNames (with_name path (length d.files)) d (after_create path bytes d) → ⊥ }
    ensures removed { (path : List ℕ) (d : Disk) → LosesNames (without path) d (after_remove path d) → ⊥ }
    ensures renamed { (from to : List ℕ) (d : Disk) →
        LosesNames (with_rename from to (found_at from d.names)) d (after_rename from to d) → ⊥ }
{}

/// No crash leaves other names, other bytes of a flushed file, more or fewer files, or an unflushed file.
pub fn no_crash_is_bad()
    ensures { (before after : Disk) → Crash before after → IsBadCrash before after → ⊥ }
{}

/// A crash during a save leaves what a crash before the save might have left, or the new record whole. Each crash after
/// the save leaves the new record, and a read gives it.
#[tactic(auto, using(crate::proofs::Saves::save_is_read))]
pub fn a_save_is_old_or_new()
    ensures moments { (temporary path bytes : List ℕ) (d moment : Disk) (found : Option (List ℕ)) → IsWhole d →
        (temporary ≡ path → ⊥) → In (on_the_way temporary path bytes d) moment → Leaves moment path found →
        IsOldOr path d bytes found }
    ensures lasts { (temporary path bytes : List ℕ) (d : Disk) (found : Option (List ℕ)) → IsWhole d →
        (temporary ≡ path → ⊥) → Leaves (after_save temporary path bytes d) path found → found ≡ Some bytes }
    ensures is_read { (temporary path bytes : List ℕ) (d : Disk) → IsWhole d → (temporary ≡ path → ⊥) →
        content path (after_save temporary path bytes d) ≡ Some bytes }
    ensures ends { (temporary path bytes : List ℕ) (d : Disk) →
        In (on_the_way temporary path bytes d) (after_save temporary path bytes d) }
{}

/// Both flushes of a save count. Without the flush of the new file a crash may leave any bytes in the record. Without
/// the flush of names it may leave each record that it might have left before the save.
#[tactic(auto, using(crate::proofs::Saves::unflushed_tears))]
pub fn each_flush_of_a_save_counts()
    ensures bytes { (temporary path bytes other : List ℕ) (d : Disk) →
        Leaves (after_flush_names (after_rename temporary path (after_create temporary bytes d))) path (Some other) }
    ensures names { (temporary path bytes : List ℕ) (d : Disk) (found : Option (List ℕ)) → IsWhole d →
        Leaves d path found →
        Leaves (after_rename temporary path (after_flush temporary (after_create temporary bytes d))) path found }
{}

/// On the empty disk there is no old record. So a record that is old or new (`IsOldOr`) is the new one, and no third.
#[tactic(auto, using(crate::proofs::Saves::empty_is_new))]
pub fn no_third_record_is_old_or_new()
    ensures { (path bytes other : List ℕ) → IsOldOr path empty_disk bytes (Some other) → other ≡ bytes }
{}

/// A correct disk that is done with a change has made it. If the call failed, the disk has made the change, or none. A
/// correct disk is whole, and keeps its past. A read gives the bytes at the path, and changes nothing. No call makes a
/// disk correct, or incorrect.
#[tactic(auto, using(crate::proofs::Moments::no_bad_answer, crate::proofs::Moments::no_bad_read))]
pub fn no_answer_is_bad()
    ensures changes { (change : Disk → Disk) (old : DiskState) (answer : Result (Unit {0}) DiskFault) (new : DiskState) →
        Answers (Changes change) old answer new → IsBadAnswer change old answer new → ⊥ }
    ensures reads { (path : List ℕ) (old : DiskState) (answer : Result (Option (List ℕ)) DiskFault) (new : DiskState) →
        Answers (Reads (λ b. b) path) old answer new → IsBadRead (λ b. b) path old answer new → ⊥ }
{}

/// A correct disk is done with a call on a file only if a file stands at the path. It answers `NotFound` only if none
/// stands there. A read answers `TooLarge` only if the file is longer than the limit.
#[tactic(auto, using(crate::proofs::Moments::no_bad_finding, crate::proofs::Moments::no_bad_size))]
pub fn no_fault_is_false()
    ensures finding { (path : List ℕ) (old : DiskState) (answer : Result (Unit {0}) DiskFault) →
        WantsFile path old answer → IsBadFinding path old answer → ⊥ }
    ensures size { (limit : ℕ) (path : List ℕ) (old : DiskState) (answer : Result (Option (List ℕ)) DiskFault) →
        IsLargeOnlyIf limit path old answer → IsBadSize limit path old answer → ⊥ }
{}

/// A claim on each disk from one state to another leaves out no disk that the past has gained, and not the last one.
pub fn no_moment_is_left_out()
    ensures { (old new : DiskState) (d : Disk) → Throughout (λ e. e ≡ d → ⊥) old new → IsMoment old new d → ⊥ }
{}

/// A crash while a new file is written leaves only what a crash after it was written may leave. So a moment within this
/// call needs no case of its own.
pub fn a_torn_file_is_no_further_case()
    ensures { (path some bytes : List ℕ) (d after : Disk) → Crash (after_create path some d) after →
        Crash (after_create path bytes d) after }
{}
