//! The laws of a loss of power: at a desk it is a save that failed and a restart, and to two libraries nothing new.

ghost use Rattle.std.specs.Prelude.{◌≡◌, ◌⊎◌, ℕ, Bool, true, List, [], ◌∷◌, Option, None, Some, Result, Ok, OnOk};
ghost use Rattle.ill_values.specs.TxnId.{Qualifiers};
ghost use Rattle.ill_values.specs.declared.apdu.Apdu.{Apdu};
ghost use Rattle.ill_record.specs.declared.role.Role.{Role};
ghost use Rattle.ill_saved.specs.declared.fault.DeskFault.{DeskFault};
ghost use Rattle.ill_saved.specs.Desk.{DeskSaves, LeavesBeforeOr, LeavesCommitted};
ghost use Rattle.ill_saved.specs.Holdings.{IsReadAgain};
ghost use Rattle.ill_saved.specs.ManySides.{many_sides, no_sides, sides_held};
ghost use Rattle.ill_record.specs.Sides.{SidesOf};
ghost use Rattle.ill_desk.specs.Performing.{view_of};
ghost use Rattle.ill_world.specs.declared.event.DeskEvent.{DeskEvent};
ghost use Rattle.ill_world.specs.declared.event.DeskEvent.TheVariants.{Save, SaveFault, Restart};
ghost use Rattle.ill_world.specs.Safety.{Safe};
ghost use Rattle.ill_world.specs.World.{party};
ghost use Rattle.ill_world.specs.Desks.{DeskParty, Sending, desks_run, first_desk, first_desks, project};
ghost use Rattle.ill_runs.specs.Events.{IsDesk};
ghost use Rattle.ill_runs.specs.Libraries.{AreSafe, Commands, HasAllThatLeft, IsHistory, Libraries, Library, first_libraries, libraries_after};
ghost use Rattle.ill_runs.specs.Power.{AllMayHappen, AreLeft, EndsInStart, IsAmong, IsFaultAndRestart, IsPoweredDesk, PowerEvent, PoweredDesk, StartsAs, desks_of, first_powered_desks, leaves_after, on_record, power_run, powered_after, save_event, started_from};
ghost use Rattle.ill_runs.specs.CutOff.{IsCutInSave, IsPoweredHistory, IsPoweredShelfHistory, LosesPower};
ghost use Rattle.ill_runs.specs.ShelfLibraries.{GroupVisit, IsShelfHistory, ShelfLibraries};
ghost use Rattle.ill_runs.specs.BadLibraries.{HasForgotten};
ghost use Rattle.ill_runs.specs.BadPower.{ForgetsSent, IsBadCut, IsBadStart};

use crate::laws;
use ill_saved::{Desk, Store};

/// A loss of power at a desk is a restart of the model's desk. In a save, and after one with any answer, a save that
/// failed goes before the restart. The save committed its record if the power left the new one. After a save that
/// is done, this save goes before the restart.
///
/// `desk` is the desk before the save, and `after` its store after it. The calls of a desk give each premise. `create`,
/// `start`, `save` and `restart` say that a loss leaves only what is committed, and `save` what it leaves. In the first
/// save of a new desk a loss leaves no record, or that of the model's first desk.
pub fn a_loss_of_power_is_a_failed_save_and_a_restart<S: Store>(desk: &Desk<S>, after: &S)
    ensures between { (who : Role) (sent : List Sending) (p : DeskParty) (left : Option (List ℕ)) →
        IsDesk (view_of S.state desk.now) p →
        LeavesCommitted (S.state desk.now.store).committed (S.leaves desk.now.store) → S.leaves desk.now.store left →
        EndsInStart who sent p (Restart who ∷ []) left }
    ensures in_save { (who : Role) (sent : List Sending) (p : DeskParty) (left : Option (List ℕ)) →
        IsDesk (view_of S.state desk.now) p →
        LeavesCommitted (S.state desk.now.store).committed (S.leaves desk.now.store) →
        IsReadAgain many_sides desk.now.live →
        S.leaves desk.now.store left ⊎ (left ≡ Some (many_sides.encoding desk.now.live)) →
        IsFaultAndRestart who sent p left }
    ensures after_save { (who : Role) (sent : List Sending) (p : DeskParty) (left : Option (List ℕ)) →
        IsDesk (view_of S.state desk.now) p →
        LeavesCommitted (S.state desk.now.store).committed (S.leaves desk.now.store) →
        IsReadAgain many_sides desk.now.live →
        LeavesBeforeOr (Some (many_sides.encoding desk.now.live)) (S.leaves desk.now.store) (S.leaves after.now) →
        S.leaves after.now left → IsFaultAndRestart who sent p left }
    ensures saved { (who : Role) (sent : List Sending) (p : DeskParty) (left : Option (List ℕ)) →
        IsDesk (view_of S.state desk.now) p → IsReadAgain many_sides desk.now.live →
        DeskSaves (many_sides.encoding desk.now.live) (S.state desk.now.store) (Ok tt) (S.state after.now) →
        LeavesCommitted (S.state after.now).committed (S.leaves after.now) → S.leaves after.now left →
        EndsInStart who sent p (Save who ∷ Restart who ∷ []) left }
    ensures first { (role : Role) (left : Option (List ℕ)) → desk.now.live ≡ no_sides role →
        LeavesCommitted None (S.leaves desk.now.store) → IsReadAgain many_sides desk.now.live →
        S.leaves desk.now.store left ⊎ (left ≡ Some (many_sides.encoding desk.now.live)) →
        (left ≡ None) ⊎ StartsAs left (first_desk role) }
{}

/// A desk of the program is a desk of the model whose power may go, after any saves, done or failed. Each record that a
/// loss of power may leave has sides that the model knows (`leaves_after`), in a save too. The desk that starts from it
/// is the model's desk after this loss.
pub fn a_desk_may_lose_its_power_as_in_the_model<S: Store>(desk: &Desk<S>, after: &S)
    ensures loaded { (p : DeskParty) → IsDesk (view_of S.state desk.now) p →
        LeavesCommitted (S.state desk.now.store).committed (S.leaves desk.now.store) →
        IsPoweredDesk (view_of S.state desk.now) (S.leaves desk.now.store) (on_record p) }
    ensures in_save { (who : Role) (committed : Bool) (p : PoweredDesk) →
        IsPoweredDesk (view_of S.state desk.now) (S.leaves desk.now.store) p → IsReadAgain many_sides desk.now.live →
        AreLeft (λ left. S.leaves desk.now.store left ⊎ (left ≡ Some (many_sides.encoding desk.now.live)))
        (leaves_after p.desk p.leaves (SaveFault who committed)) }
    ensures after_save { (who : Role) (committed : Bool) (p : PoweredDesk) (answer : Result (Unit {0}) DeskFault) →
        IsPoweredDesk (view_of S.state desk.now) (S.leaves desk.now.store) p → IsReadAgain many_sides desk.now.live →
        DeskSaves (many_sides.encoding desk.now.live) (S.state desk.now.store) answer (S.state after.now) →
        OnOk answer (LeavesCommitted (S.state after.now).committed (S.leaves after.now)) →
        LeavesBeforeOr (Some (many_sides.encoding desk.now.live)) (S.leaves desk.now.store) (S.leaves after.now) →
        AreLeft (S.leaves after.now) (leaves_after p.desk p.leaves (save_event who committed answer)) }
    ensures lost { (p : PoweredDesk) (left : Option (List ℕ)) →
        IsPoweredDesk (view_of S.state desk.now) (S.leaves desk.now.store) p → S.leaves desk.now.store left →
        (sides : SidesOf) × IsAmong sides p.leaves × StartsAs left (started_from p.desk sides).desk }
{}

/// A loss of power adds nothing to the model. After any events and losses of power at the first two desks, some events
/// alone lead to both desks too.
pub fn each_run_through_losses_of_power_is_a_run()
    ensures { (events : List PowerEvent) → AllMayHappen first_powered_desks events →
        (alone : List DeskEvent) × (desks_run first_desks alone ≡ desks_of (power_run first_powered_desks events)) }
{}

/// Two desks are safe in each transaction after any events and losses of power.
pub fn each_run_through_losses_of_power_is_safe()
    ensures { (events : List PowerEvent) → AllMayHappen first_powered_desks events → (txn : Qualifiers) →
        Safe (project txn (desks_of (power_run first_powered_desks events))) }
{
    each_run_through_losses_of_power_is_a_run();
    ill_world::desk_laws::every_desk_run_is_safe();
}

/// A command in which a library loses its power is a command of `Commands`: a shorter one, or one whose save failed. It
/// may lose its power at any moment: in a save or after one that failed, between two saves, or when its messages leave.
pub fn a_command_that_loses_power_is_a_command()
    ensures { (others : List Apdu) (before after : Library) → LosesPower others before after →
        Commands others before after }
{
    ill_der::laws::longest();
}

/// A history in which libraries lose their power is a history, of shelves too. So its libraries are safe, and each file
/// has what has left.
pub fn each_history_through_losses_of_power_is_a_history()
    ensures history { (now : Libraries) (later : List Libraries) → IsPoweredHistory now later → IsHistory now later }
    ensures shelves { (w : ShelfLibraries) (visits : List GroupVisit) →
        IsPoweredShelfHistory w visits → IsShelfHistory w visits }
    ensures safe { (later : List Libraries) → IsPoweredHistory first_libraries later →
        AreSafe (libraries_after first_libraries later) }
    ensures left { (later : List Libraries) → IsPoweredHistory first_libraries later → (who : Role) →
        HasAllThatLeft (party (libraries_after first_libraries later) who) }
{
    a_command_that_loses_power_is_a_command();
    laws::each_history_is_safe();
    laws::what_has_left_is_in_the_file();
}

/// No loss of power leaves a third record, a record that cannot be read, or a desk that has forgotten what it has sent.
pub fn no_bad_loss_of_power_passes()
    ensures starts { (left : Option (List ℕ)) (q : DeskParty) → IsBadStart left q → StartsAs left q → ⊥ }
    ensures cuts { (others : List Apdu) (before after : Library) (cut : IsCutInSave others before after) →
        IsBadCut cut → ⊥ }
    ensures sent { (events : List PowerEvent) → AllMayHappen first_powered_desks events →
        ForgetsSent (desks_of (power_run first_powered_desks events)) → ⊥ }
    ensures left { (later : List Libraries) (who : Role) → IsPoweredHistory first_libraries later →
        HasForgotten (party (libraries_after first_libraries later) who) → ⊥ }
{
    each_run_through_losses_of_power_is_a_run();
    each_history_through_losses_of_power_is_a_history();
    ill_world::desk_laws::desks_stand();
}

/// A loss of power may leave each record that it might have left before a save that failed, and the new one. After a
/// save that is done it may leave the saved record, and after a restart the committed one.
#[tactic(auto, unfolding(crate::specs::Power::IsAmong))]
pub fn each_record_may_be_left()
    ensures old { (who : Role) (committed : Bool) (sent : List Sending) (p : PoweredDesk) (sides : SidesOf) →
        IsAmong sides p.leaves → IsAmong sides (powered_after p sent (SaveFault who committed)).leaves }
    ensures new { (who : Role) (committed : Bool) (sent : List Sending) (p : PoweredDesk) →
        IsAmong (sides_held p.desk.live) (powered_after p sent (SaveFault who committed)).leaves }
    ensures saved { (who : Role) (sent : List Sending) (p : PoweredDesk) →
        IsAmong (sides_held p.desk.live) (powered_after p sent (Save who)).leaves }
    ensures restarted { (who : Role) (sent : List Sending) (p : PoweredDesk) →
        IsAmong p.desk.committed (powered_after p sent (Restart who)).leaves }
{}
