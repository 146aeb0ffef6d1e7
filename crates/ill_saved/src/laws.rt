//! Laws of desks, and with them those of saved records: contracts of functions that do nothing.

ghost use Rattle.std.specs.Prelude.{◌≡◌, ◌⊎◌, ℕ, ◌≤◌, ◌<◌, List, Bool, true, Option, Some, Result, Err};
ghost use Rattle.ill_values.specs.TxnId.{Qualifiers};
ghost use Rattle.ill_der.specs.declared.fault.DerFault.{DerFault};
ghost use Rattle.ill_values.specs.declared.apdu.Apdu.{Apdu};
ghost use Rattle.ill_saved.specs.declared.fault.DeskFault.{DeskFault};
ghost use Rattle.ill_saved.specs.declared.fault.DeskFault.TheVariants.{Store, OutOfMemory};
ghost use Rattle.ill_store.specs.declared.store.StoreFault.TheVariants.{Failed};
ghost use Rattle.ill_store.specs.declared.store.NextCall.{NextCall};
ghost use Rattle.ill_saved.specs.BadAnswers.{CannotSave, CannotCreate, CannotLoad, CannotRead, CommitsWrong, PlansWrong};
ghost use Rattle.ill_store.specs.Store.{StoreState, most_failures};
ghost use Rattle.ill_saved.specs.Holdings.{DeskEntry, IsBacked, IsBackedInSave, IsReadFault, MaySend, ReadHas, committed_live};
ghost use Rattle.ill_saved.specs.OneSide.{OneBacks, one_side};
ghost use Rattle.ill_saved.specs.ManySides.{DeskContents, ManyBack, many_sides};
ghost use Rattle.ill_saved.specs.Desk.{DeskFailsCounted, DeskLoads, DeskSaves, DeskTakes, IsCreateAnswer, IsLoadFault, IsSaveFault, LeavesBeforeOr, LeavesCommitted, PlanAfter, RestartLeaves, SaveCommits};

use crate::desk::Desk;
pub use ill_record::laws::{
    encoded, follows_issues, one_side, one_sides, read_again, record_is_short, refusals_stay,
    rows_begin, rows_grow, rows_keep_request, sides_encoded, sides_read_again,
    sides_record_is_short,
};
use ill_store::Store;

/// Message `number` that a desk may send is message `number` of its committed record: of the record of the same
/// transaction, and the same APDU. So no message leaves a desk that its store does not have.
pub fn what_may_be_sent_is_committed()
    ensures one { (committed : Option (List ℕ)) (live : DeskEntry) (number : ℕ) (a : Apdu) →
        IsBacked one_side OneBacks committed live → MaySend one_side live tt number a →
        ReadHas one_side (committed_live one_side committed live) tt number a }
    ensures many { (committed : Option (List ℕ)) (live : DeskContents) (txn : Qualifiers) (number : ℕ) (a : Apdu) →
        IsBacked many_sides ManyBack committed live → MaySend many_sides live txn number a →
        ReadHas many_sides (committed_live many_sides committed live) txn number a }
{
    follows_issues();
}

/// Message `number` that a desk may send is message `number` of each record that a loss of power may leave. This holds
/// during a save, too, by the clause `meanwhile` of `save`. So a desk that starts after a loss of power has each
/// message that has ever left.
pub fn what_may_be_sent_outlasts_the_power<S: Store>(desk: &Desk<S>)
    ensures left { (S.state desk.now.store).is_correct ≡ true →
        (left : Option (List ℕ)) (txn : Qualifiers) (number : ℕ) (a : Apdu) → S.leaves desk.now.store left →
        MaySend many_sides desk.now.live txn number a →
        ReadHas many_sides (committed_live many_sides left desk.now.live) txn number a }
    ensures left_in_save { IsBackedInSave many_sides ManyBack (S.leaves desk.now.store) desk.now.live →
        (left : Option (List ℕ)) (txn : Qualifiers) (number : ℕ) (a : Apdu) →
        S.leaves desk.now.store left ⊎ (left ≡ Some (many_sides.encoding desk.now.live)) →
        MaySend many_sides desk.now.live txn number a →
        ReadHas many_sides (committed_live many_sides left desk.now.live) txn number a }
{
    follows_issues();
    let _ = desk.sides();
}

/// No call of a desk has a fault of another call. A save fails only by its store or by memory. Creating a desk also
/// fails over a record, and loading by a record that is damaged.
#[tactic(auto, using(crate::proofs::BadAnswers::none_saves, crate::proofs::BadAnswers::none_creates, crate::proofs::BadAnswers::none_loads, crate::proofs::BadAnswers::none_reads))]
pub fn no_call_has_the_fault_of_another()
    ensures saves { (fault : DeskFault) → CannotSave fault → IsSaveFault (Err fault) → ⊥ }
    ensures creates { (fault : DeskFault) → CannotCreate fault → IsCreateAnswer (Err fault) → ⊥ }
    ensures loads { (has_digest : Bool) (fault : DeskFault) →
        CannotLoad has_digest fault → IsLoadFault has_digest fault → ⊥ }
    ensures reads { (has_digest : Bool) (fault : DeskFault) →
        CannotRead has_digest fault → IsReadFault has_digest fault → ⊥ }
{}

/// A save commits its bytes or leaves the old ones, as it answers. A load, a restart that fails and a message for
/// which memory runs out change nothing. No load and no save moves the record to another path. A failure is counted.
#[tactic(auto, using(crate::proofs::BadAnswers::none_commits, crate::proofs::BadAnswers::none_plans))]
pub fn no_call_changes_too_much()
    ensures commits { (plan : Option NextCall) (bytes : List ℕ) (answer : Result (Unit {0}) DeskFault)
        (old new : Option (List ℕ)) → CommitsWrong bytes old new answer → SaveCommits plan bytes answer old new → ⊥ }
    ensures plans { (old new : Option NextCall) → PlansWrong old new →
        PlanAfter (Err OutOfMemory) old new → ⊥ }
    ensures loads { (old new : StoreState) (answer : Result (Option (List ℕ)) DeskFault) →
        (new.committed ≡ old.committed → ⊥) → old.is_correct ≡ true → DeskLoads old answer new → ⊥ }
    ensures load_paths { (old new : StoreState) (answer : Result (Option (List ℕ)) DeskFault) →
        (new.path ≡ old.path → ⊥) → DeskLoads old answer new → ⊥ }
    ensures save_paths { (bytes : List ℕ) (old new : StoreState) (answer : Result (Unit {0}) DeskFault) →
        (new.path ≡ old.path → ⊥) → DeskSaves bytes old answer new → ⊥ }
    ensures restarts { (old new : DeskContents) (fault : DeskFault) →
        (new ≡ old → ⊥) → RestartLeaves many_sides (Err fault) old new → ⊥ }
    ensures takes { (found : Result (Apdu × List ℕ) DerFault) (old new : DeskContents) →
        (new ≡ old → ⊥) → DeskTakes many_sides old found (Err OutOfMemory) new → ⊥ }
    ensures counts { (old new : ℕ) → new ≤ old → new < most_failures →
        DeskFailsCounted {X = Unit {0}} (Err (Store Failed)) old new → ⊥ }
{}

/// No loss of power leaves a record that the clauses of a desk's calls exclude. After a call that is done it leaves the
/// committed one. After any answer it leaves one of those before the call, or the one that the call names.
#[tactic(auto, using(crate::proofs::BadAnswers::none_outlasts, crate::proofs::BadAnswers::none_outlasts_either))]
pub fn no_call_leaves_another_record<S: Store>(before: &S, after: &S)
    ensures done { (left : Option (List ℕ)) → LeavesCommitted (S.state after.now).committed (S.leaves after.now) →
        S.leaves after.now left → (left ≡ (S.state after.now).committed → ⊥) → ⊥ }
    ensures any { (other left : Option (List ℕ)) →
        LeavesBeforeOr other (S.leaves before.now) (S.leaves after.now) → S.leaves after.now left →
        (S.leaves before.now left → ⊥) → (left ≡ other → ⊥) → ⊥ }
{}
