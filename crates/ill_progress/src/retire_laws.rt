//! The laws of groups that a library retires are the contracts of functions that do nothing.

ghost use Rattle.std.specs.Prelude.{◌≡◌, ◌++◌, ℕ, List, false, length, map, Some, true};
ghost use Rattle.ill_values.specs.TxnId.{Qualifiers};
ghost use Rattle.ill_record.specs.declared.role.Role.{Role};
ghost use Rattle.ill_record.specs.declared.role.Role.TheVariants.{Requester, Responder};
ghost use Rattle.ill_record.specs.Side.{issued_of};
ghost use Rattle.ill_saved.specs.Holdings.{DeskEntry};
ghost use Rattle.ill_saved.specs.ManySides.{found_by, held_for, txn_held};
ghost use Rattle.ill_words.specs.Sending.{is_over};
ghost use Rattle.ill_world.specs.World.{party, sent_message};
ghost use Rattle.ill_world.specs.Desks.{desks_run, project, sent_for};
ghost use Rattle.ill_world.specs.Safety.{Safe};
ghost use Rattle.ill_world.specs.Agreement.{Agrees};
ghost use Rattle.ill_world.specs.Round.{CanAnswer};
ghost use Rattle.ill_world.specs.Night.{AreAtRest, AreConvergedOrAtRest};
ghost use Rattle.ill_world.specs.DeskNight.{desk_night_of};
ghost use Rattle.ill_world.specs.Shelves.{events_at, in_group, shelves_run};
ghost use Rattle.ill_progress.specs.Retirement.{MarkedShelves, RetiringEvent, on_shelf, first_marked_shelves, has_mark, last_word_of, retiring_happens, retiring_run, shelf_events_of, events_named, IsKeptByBoth, IsSafeRetiringRun, IsAgreeingRetiringRun};
ghost use Rattle.ill_progress.specs.BadRetirement.{IsMishandled};

/// A mark stays for good. A desk that is retired keeps its sides, in memory and committed. A requester's keeps all, and
/// sends nothing more. A responder's sends only last words: no other message joins what it has sent.
#[tactic(auto, using(crate::proofs::Retirement::mark_stays, crate::proofs::Retirement::sides_stay, crate::proofs::Retirement::requester_stays, crate::proofs::Retirement::responder_stays_silent))]
pub fn a_retired_desk_stays()
    ensures mark { (w : MarkedShelves) (events : List RetiringEvent) (who : Role) (group : List ℕ) →
        has_mark w who group ≡ true → has_mark (retiring_run w events) who group ≡ true }
    ensures sides { (w : MarkedShelves) (events : List RetiringEvent) (who : Role) (group : List ℕ) →
        has_mark w who group ≡ true → let old = party (w.shelves group) who in
        let new = party ((retiring_run w events).shelves group) who in
        (new.live ≡ old.live) × (new.committed ≡ old.committed) }
    ensures requester { (w : MarkedShelves) (events : List RetiringEvent) (group : List ℕ) →
        has_mark w Requester group ≡ true →
        ((retiring_run w events).shelves group).requester ≡ (w.shelves group).requester }
    ensures responder { (w : MarkedShelves) (events : List RetiringEvent) (group : List ℕ) (txn : Qualifiers)
        (n : ℕ) →
        has_mark w Responder group ≡ true → let old = (w.shelves group).responder in
        let new = ((retiring_run w events).shelves group).responder in
        (n ≡ length (issued_of (held_for txn old.live).side) → ⊥) →
        sent_message (sent_for txn new.sent) n ≡ sent_message (sent_for txn old.sent) n }
{}

/// A run with retirements is a run of shelves, with the events that happen. If neither library has retired a group in
/// the end, each event happens there that is named.
#[tactic(auto, using(crate::proofs::Retirement::run_shelves, crate::proofs::Retirement::kept_run))]
pub fn retiring_runs_are_shelf_runs()
    ensures shelves { (w : MarkedShelves) (events : List RetiringEvent) →
        (retiring_run w events).shelves ≡ shelves_run w.shelves (shelf_events_of w events) }
    ensures kept { (w : MarkedShelves) (events : List RetiringEvent) (group : List ℕ) →
        IsKeptByBoth (retiring_run w events) group →
        (retiring_run w events).shelves group ≡ desks_run (w.shelves group) (events_at group (events_named events)) }
{}

/// Every world of every run with retirements is safe in each transaction.
pub fn every_retiring_run_is_safe()
    ensures { (events : List RetiringEvent) → IsSafeRetiringRun first_marked_shelves events }
{
    retiring_runs_are_shelf_runs();
    ill_world::shelf_laws::every_shelf_run_is_safe();
    ill_world::shelf_laws::shelf_runs_have_each_world();
}

/// Both sides of each transaction agree in every world of every run with retirements.
pub fn every_retiring_run_agrees()
    ensures { (events : List RetiringEvent) → IsAgreeingRetiringRun first_marked_shelves events }
{
    retiring_runs_are_shelf_runs();
    ill_world::shelf_laws::every_shelf_run_agrees();
    ill_world::shelf_laws::shelf_runs_have_each_world();
}

/// If a run with retirements is safe, each world after a prefix of its events is safe. If both sides agree in it, they
/// agree in each of these worlds.
pub fn retiring_runs_have_each_world()
    ensures safe { (w : MarkedShelves) (before after : List RetiringEvent) (txn : Qualifiers) →
        IsSafeRetiringRun w (before ++ after) → Safe (project txn ((retiring_run w before).shelves txn.group)) }
    ensures agrees { (w : MarkedShelves) (before after : List RetiringEvent) (txn : Qualifiers) →
        IsAgreeingRetiringRun w (before ++ after) → Agrees (project txn ((retiring_run w before).shelves txn.group)) }
{}

/// A night of a group that neither library has retired brings both sides of each transaction to convergence, or to
/// rest. It does so if the responder can answer a Conditional-Reply no.
pub fn a_night_of_a_kept_group_is_enough()
    ensures { (txn : Qualifiers) (events : List RetiringEvent) → let w = retiring_run first_marked_shelves events in
        IsKeptByBoth w txn.group → CanAnswer (project txn (w.shelves txn.group)).responder.live →
        let night = map on_shelf (in_group txn.group (desk_night_of (w.shelves txn.group))) in
        AreConvergedOrAtRest (project txn ((retiring_run w night).shelves txn.group)) }
{
    ill_world::shelf_laws::a_night_of_a_group_is_enough();
}

/// After any events each loan at a desk that is retired is over. If the requester's desk is, both sides are at rest.
pub fn what_is_retired_is_over()
    ensures over { (events : List RetiringEvent) (who : Role) (group : List ℕ) (txn : Qualifiers) (held : DeskEntry) →
        let w = retiring_run first_marked_shelves events in has_mark w who group ≡ true →
        found_by txn_held txn (party (w.shelves group) who).live.held ≡ Some held → is_over held.side ≡ true }
    ensures rest { (events : List RetiringEvent) (group : List ℕ) (txn : Qualifiers) (held : DeskEntry) →
        let w = retiring_run first_marked_shelves events in has_mark w Requester group ≡ true →
        found_by txn_held txn (w.shelves group).requester.live.held ≡ Some held →
        AreAtRest (project txn (w.shelves group)) }
{
    ill_world::desk_laws::desks_stand();
    ill_world::laws::requester_is_over_last();
}

/// If the responder's library alone has retired a group, the last word of a loan is enough. Once it is sent and
/// delivered, both sides are at rest.
pub fn a_last_word_is_enough()
    ensures { (events : List RetiringEvent) (txn : Qualifiers) (held : DeskEntry) →
        let w = retiring_run first_marked_shelves events in
        has_mark w Responder txn.group ≡ true → has_mark w Requester txn.group ≡ false →
        found_by txn_held txn (w.shelves txn.group).responder.live.held ≡ Some held →
        let word = last_word_of txn (w.shelves txn.group) in
        AreAtRest (project txn ((retiring_run w word).shelves txn.group)) }
{
    ill_saved::laws::rows_grow();
    ill_world::desk_laws::desks_stand();
    ill_world::desk_laws::desk_events_are_events();
    ill_world::desk_laws::desks_reach_what_they_hold();
    ill_world::laws::world_stands();
    ill_world::laws::one_arrival_is_enough();
    ill_world::laws::sides_agree();
    ill_world::laws::requester_is_over_last();
}

/// No event changes what a mark keeps, and none is lost at a desk without one. A retirement changes only its own desk,
/// and is done if, and only if, all loans that are committed there are over.
#[tactic(auto, using(crate::proofs::BadRetirement::none_mishandled))]
pub fn no_bad_retirement_passes()
    ensures { (w : MarkedShelves) (event : RetiringEvent) →
        IsMishandled w (retiring_happens w event).0 (retiring_happens w event).1 event → ⊥ }
{}
