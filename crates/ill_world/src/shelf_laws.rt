//! The laws of two shelves are the contracts of functions that do nothing. A law calls the laws on which its proof
//! relies. A shelf is a folder of desks of one library.

ghost use Rattle.std.specs.Prelude.{◌≡◌, ◌++◌, ℕ, List, [], ◌∷◌, None};
ghost use Rattle.ill_values.specs.TxnId.{Qualifiers};
ghost use Rattle.ill_record.specs.declared.role.Role.{Role};
ghost use Rattle.ill_saved.specs.ManySides.{found_by, txn_held};
ghost use Rattle.ill_world.specs.World.{party, first_world};
ghost use Rattle.ill_world.specs.Desks.{first_desks, desks_happen, desks_run, project};
ghost use Rattle.ill_world.specs.BadDesks.{Names};
ghost use Rattle.ill_world.specs.Safety.{Safe};
ghost use Rattle.ill_world.specs.Agreement.{Agrees};
ghost use Rattle.ill_world.specs.Round.{CanAnswer};
ghost use Rattle.ill_world.specs.Night.{AreConvergedOrAtRest};
ghost use Rattle.ill_world.specs.DeskNight.{desk_night_of};
ghost use Rattle.ill_world.specs.Shelves.{Shelves, ShelfEvent, first_shelves, home, shelves_happen, shelves_run, in_group, events_at, IsSafeShelfRun, IsAgreeingShelfRun};

use crate::desk_laws;

/// An event happens to the desks at its home, and leaves those of each other group unchanged. Its home is the group of
/// the transaction that it names, or else the group that is given with it. The desks of a group have each event with
/// this home, in order, and no other.
#[tactic(auto, using(crate::proofs::Shelves::whole_home, crate::proofs::Shelves::group_in_order))]
pub fn groups_stay_apart()
    ensures at_home { (w : Shelves) (e : ShelfEvent) → let after = desks_happen (w (home e)) e.event in
        ((shelves_happen w e).0 ≡ after.0) × ((shelves_happen w e).1 (home e) ≡ after.1) }
    ensures apart { (w : Shelves) (e : ShelfEvent) (group : List ℕ) → (group ≡ home e → ⊥) →
        (shelves_happen w e).1 group ≡ w group }
    ensures named { (e : ShelfEvent) (txn : Qualifiers) → Names txn e.event → home e ≡ txn.group }
    ensures whole { (e : ShelfEvent) → ((txn : Qualifiers) → Names txn e.event → ⊥) → home e ≡ e.group }
    ensures order { (group : List ℕ) (before after : List ShelfEvent) →
        events_at group (before ++ after) ≡ events_at group before ++ events_at group after }
    ensures own { (e : ShelfEvent) → events_at (home e) (e ∷ []) ≡ e.event ∷ [] }
    ensures others { (group : List ℕ) (e : ShelfEvent) → (group ≡ home e → ⊥) → events_at group (e ∷ []) ≡ [] }
{}

/// The desks of a group after any events are two desks after the events of this group.
#[tactic(auto, using(crate::proofs::Shelves::shelves_run_at))]
pub fn shelf_runs_are_desk_runs()
    ensures each { (w : Shelves) (group : List ℕ) (events : List ShelfEvent) →
        shelves_run w events group ≡ desks_run (w group) (events_at group events) }
    ensures first { (group : List ℕ) (events : List ShelfEvent) →
        shelves_run first_shelves events group ≡ desks_run first_desks (events_at group events) }
{}

/// Every world of every run of two shelves is safe in each transaction.
pub fn every_shelf_run_is_safe()
    ensures { (events : List ShelfEvent) → IsSafeShelfRun first_shelves events }
{
    shelf_runs_are_desk_runs();
    desk_laws::every_desk_run_is_safe();
    desk_laws::desk_runs_have_each_world();
}

/// Both sides of each transaction agree in every world of every run of two shelves.
pub fn every_shelf_run_agrees()
    ensures { (events : List ShelfEvent) → IsAgreeingShelfRun first_shelves events }
{
    shelf_runs_are_desk_runs();
    desk_laws::every_desk_run_agrees();
    desk_laws::desk_runs_have_each_world();
}

/// If a run of two shelves is safe, each world after a prefix of its events is safe. If both sides agree in it, they
/// agree in each of these worlds.
pub fn shelf_runs_have_each_world()
    ensures safe { (w : Shelves) (before after : List ShelfEvent) (txn : Qualifiers) →
        IsSafeShelfRun w (before ++ after) → Safe (project txn (shelves_run w before txn.group)) }
    ensures agrees { (w : Shelves) (before after : List ShelfEvent) (txn : Qualifiers) →
        IsAgreeingShelfRun w (before ++ after) → Agrees (project txn (shelves_run w before txn.group)) }
{}

/// After any events the desks of a group hold no transaction of another group. They show two idle sides of it, and no
/// sent message.
#[tactic(auto, using(crate::proofs::Shelves::none_elsewhere, crate::proofs::Shelves::idle_elsewhere))]
pub fn no_transaction_has_two_homes()
    ensures held { (txn : Qualifiers) (group : List ℕ) (events : List ShelfEvent) (who : Role) →
        (txn.group ≡ group → ⊥) →
        found_by txn_held txn (party (shelves_run first_shelves events group) who).live.held ≡ None }
    ensures shown { (txn : Qualifiers) (group : List ℕ) (events : List ShelfEvent) → (txn.group ≡ group → ⊥) →
        project txn (shelves_run first_shelves events group) ≡ first_world txn }
{
    ill_saved::laws::rows_grow();
    desk_laws::desks_stand();
    desk_laws::desk_events_are_events();
    shelf_runs_are_desk_runs();
}

/// All events of a night of the desks of a group have their home at this group. The night brings both sides of each
/// transaction of the group to convergence or to rest. For this the responder must be able to answer a
/// Conditional-Reply no.
pub fn a_night_of_a_group_is_enough()
    ensures home { (group : List ℕ) (events : List ShelfEvent) →
        let night = desk_night_of (shelves_run first_shelves events group) in
        events_at group (in_group group night) ≡ night }
    ensures run { (txn : Qualifiers) (events : List ShelfEvent) → let w = shelves_run first_shelves events in
        CanAnswer (project txn (w txn.group)).responder.live →
        let night = in_group txn.group (desk_night_of (w txn.group)) in
        AreConvergedOrAtRest (project txn (shelves_run w night txn.group)) }
{
    ill_saved::laws::rows_grow();
    desk_laws::desks_stand();
    shelf_runs_are_desk_runs();
    desk_laws::one_desk_night_is_enough();
}
