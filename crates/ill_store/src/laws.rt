//! The laws of stores are the contracts of functions that do nothing.

ghost use Rattle.std.specs.Prelude.{◌≡◌, ◌⊎◌, ℕ, true, List, Option, Some, Result, Ok};
ghost use Rattle.ill_disk.specs.Disk.{Disk, Crash};
ghost use Rattle.ill_disk.specs.Calls.{DiskState, IsMoment};
ghost use Rattle.ill_store.specs.declared.store.StoreFault.{StoreFault};
ghost use Rattle.ill_store.specs.DiskStore.{Lasts, DiskLoads, DiskSaves};
ghost use Rattle.ill_store.specs.Store.{LoadLasts, SaveLasts};
ghost use Rattle.ill_store.specs.BadStore.{IsBadLoad, IsBadSave, LosesLoaded, LosesSaved};

use crate::store::Store;

/// Let the power go at any moment of a load, done or failed. The next load that is done gives the record that lasted
/// before.
pub fn a_load_that_is_cut_keeps_the_record()
    ensures { (path : List ℕ) (old new later last : DiskState) (moment : Disk) (lasted read : Option (List ℕ))
        (answer again : Result (Option (List ℕ)) StoreFault) → old.is_correct ≡ true → Lasts path old.now lasted →
        DiskLoads (λ b. b) path old answer new → IsMoment old new moment → Crash moment later.now →
        later.is_correct ≡ true → DiskLoads (λ b. b) path later again last → again ≡ Ok read → read ≡ lasted }
{}

/// Let the power go at any moment of a save, done or failed. The next load that is done gives the record that lasted
/// before, or the new one whole.
pub fn a_save_that_is_cut_leaves_one_record_whole()
    ensures { (path bytes : List ℕ) (old new later last : DiskState) (moment : Disk) (lasted read : Option (List ℕ))
        (answer : Result (Unit {0}) StoreFault) (again : Result (Option (List ℕ)) StoreFault) → old.is_correct ≡ true →
        Lasts path old.now lasted → DiskSaves path bytes old answer new → IsMoment old new moment →
        Crash moment later.now → later.is_correct ≡ true → DiskLoads (λ b. b) path later again last → again ≡ Ok read →
        (read ≡ lasted) ⊎ (read ≡ Some bytes) }
{}

/// On a correct disk no load gives another record than a read of its path. None loses the record, later or meanwhile.
pub fn no_load_is_bad()
    ensures { (path : List ℕ) (old new : DiskState) (answer : Result (Option (List ℕ)) StoreFault) →
        DiskLoads (λ b. b) path old answer new → IsBadLoad path old answer new → ⊥ }
{}

/// On a correct disk no save that is done is lost, and none leaves a third record at any moment.
pub fn no_save_is_bad()
    ensures { (path bytes : List ℕ) (old new : DiskState) (answer : Result (Unit {0}) StoreFault) →
        DiskSaves path bytes old answer new → IsBadSave path bytes old answer new → ⊥ }
{}

/// After a load that is done, a loss of power leaves the committed record. After a load that failed, it leaves what it
/// might have left before. After a save that is done, it leaves the saved bytes. After a save that failed, it leaves
/// these or what it might have left before. This binds each correct store.
#[tactic(auto, using(crate::proofs::Moments::none_loses_loaded, crate::proofs::Moments::none_loses_saved))]
pub fn no_store_loses_its_record<S: Store>(before: &S, after: &S)
    ensures loads { (answer : Result (Option (List ℕ)) StoreFault) →
        LoadLasts (S.state before.now).committed (S.leaves before.now) answer (S.leaves after.now) →
        LosesLoaded (S.state before.now).committed (S.leaves before.now) answer (S.leaves after.now) → ⊥ }
    ensures saves { (bytes : List ℕ) (answer : Result (Unit {0}) StoreFault) →
        SaveLasts bytes (S.leaves before.now) answer (S.leaves after.now) →
        LosesSaved bytes (S.leaves before.now) answer (S.leaves after.now) → ⊥ }
{}
