//! The laws of nights by commands: what a night sends and takes, and that a good one is enough.

ghost use Rattle.std.specs.Prelude.{◌≡◌, ℕ, List, Ok};
ghost use Rattle.ill_values.specs.TxnId.{Qualifiers};
ghost use Rattle.ill_values.specs.declared.apdu.Apdu.{Apdu};
ghost use Rattle.ill_record.specs.declared.role.Role.{Role};
ghost use Rattle.ill_record.specs.RecordsV2.{records_at};
ghost use Rattle.ill_record.specs.Side.{other};
ghost use Rattle.ill_record.specs.Sides.{SidesOf};
ghost use Rattle.ill_night.specs.declared.verdict.MessageFile.{MessageFile};
ghost use Rattle.ill_night.specs.declared.verdict.Verdict.{Verdict};
ghost use Rattle.ill_world.specs.World.{party};
ghost use Rattle.ill_runs.specs.Libraries.{Commands, IsHistory, Libraries, Library, first_libraries, libraries_after};
ghost use Rattle.ill_runs.specs.ShelfLibraries.{GroupVisit, IsShelfHistory, first_shelf_libraries, shelves_after};
ghost use Rattle.ill_nights.specs.BadNights.{AreApartIn, HoldsBack, IsLeftUndone, IsLost};
ghost use Rattle.ill_nights.specs.Nights.{AreAtWork, AreDone, AreConvergedIn, CanAnswerIn, IsCarried, IsGoodNight, IsNight, LeftOf, TakesAll, TookOf, messages_of_all};

/// If the file of the library `before` can be read, a whole night leads from `before` to some library `after`.
pub fn a_night_can_be_whole()
    ensures { (others : List Apdu) (before : Library) (held : SidesOf) → records_at before.file ≡ Ok held →
        (after : Library) × IsNight others before after }
{}

/// After any history, a whole night of a library sends all messages of a loan, in order, or none. It sends none only if
/// the loan is over, and a responder only if no message of it asks.
pub fn a_night_sends_all_or_none()
    ensures { (txn : Qualifiers) (who : Role) (later : List Libraries) (after : Library) →
        let now = libraries_after first_libraries later in
        (night : IsNight (party now (other who)).left (party now who) after) → IsHistory first_libraries later →
        LeftOf txn after night.asking night.command.leaving }
{
    ill_runs::laws::each_history_is_a_run();
    ill_world::desk_laws::desks_stand();
    ill_world::desk_laws::desk_events_are_events();
    ill_world::desk_laws::desks_reach_what_they_hold();
    ill_world::desk_laws::few_desk_outcomes_change();
    ill_der::laws::prefix_or_fault();
    ill_der::laws::read_again();
}

/// After any history, a library that takes all its message files takes each message of a loan that came, in order.
/// After that it does deeds alone.
pub fn a_library_takes_what_comes()
    ensures { (txn : Qualifiers) (who : Role) (later : List Libraries) (after : Library) →
        let now = libraries_after first_libraries later in
        (takes : TakesAll (party now (other who)).left (party now who) after) → IsHistory first_libraries later →
        TookOf txn (party now who) after (messages_of_all takes) }
{
    ill_runs::laws::each_history_is_a_run();
    ill_world::desk_laws::desks_stand();
    ill_world::desk_laws::desk_events_are_events();
    ill_world::desk_laws::desks_reach_what_they_hold();
    ill_world::desk_laws::few_desk_outcomes_change();
    ill_der::laws::prefix_or_fault();
    ill_der::laws::read_again();
}

/// People at the responder's library may do nothing in a good night. They may perform each command of the program, and
/// then any further one.
pub fn each_command_of_the_responder_is_work()
    ensures none { (libraries : Libraries) → AreAtWork libraries libraries }
    ensures further { (asked met : Libraries) (after : Library) → AreAtWork asked met →
        Commands met.requester.left met.responder after →
        AreAtWork asked (record { requester = met.requester; responder = after }) }
{}

/// After any history of two libraries, a good night of a transaction brings its sides to convergence or to rest, in the
/// files of both. People may work at the responder's library before its run. The responder must have ended the request,
/// or have a number left to answer a Conditional-Reply no.
pub fn a_good_night_is_enough()
    ensures { (txn : Qualifiers) (later : List Libraries) (after : Libraries) → IsHistory first_libraries later →
        IsGoodNight txn (libraries_after first_libraries later) after → CanAnswerIn txn after.responder →
        AreConvergedIn txn after }
{
    ill_runs::laws::each_command_is_events();
    ill_runs::laws::each_history_is_a_run();
    ill_runs::laws::each_history_leads_on();
    ill_progress::night_laws::a_night_with_people_is_enough();
    ill_world::laws::world_stands();
    ill_world::desk_laws::desks_stand();
    ill_world::desk_laws::desk_events_are_events();
    ill_world::desk_laws::desks_reach_what_they_hold();
    ill_world::desk_laws::few_desk_outcomes_change();
    ill_der::laws::prefix_or_fault();
    ill_der::laws::read_again();
}

/// After any commands on two shelves a good night brings both sides of a transaction to convergence or to rest. It does
/// so in the files of `group`. The responder must have ended the request, or have a number left to answer a
/// Conditional-Reply no.
pub fn a_good_night_of_a_group_is_enough()
    ensures { (group : List ℕ) (txn : Qualifiers) (visits : List GroupVisit) (after : Libraries) →
        IsShelfHistory first_shelf_libraries visits →
        IsGoodNight txn (shelves_after first_shelf_libraries visits group) after → CanAnswerIn txn after.responder →
        AreConvergedIn txn after }
{
    ill_runs::shelf_laws::each_group_has_its_history();
    a_good_night_is_enough();
}

/// No message is held back that a side sends, and none leaves a silent one. Mail of which a message is lost, repeated,
/// added or out of order is not carried. No message file is done with that was quarantined or left. Files are not
/// converged if one cannot be read, or if the states of the two sides do not face each other.
#[tactic(auto, using(crate::proofs::BadNights::none_held_back, crate::proofs::BadNights::none_lost, crate::proofs::BadNights::none_apart))]
pub fn no_bad_night_passes()
    ensures left { (txn : Qualifiers) (after : Library) (asking left : List Apdu) →
        HoldsBack txn after asking left → LeftOf txn after asking left → ⊥ }
    ensures carried { (txn : Qualifiers) (left came : List Apdu) → IsLost txn left came → IsCarried txn left came → ⊥ }
    ensures done { (txn : Qualifiers) (message_files : List MessageFile) (verdicts : List Verdict) →
        IsLeftUndone txn message_files verdicts → AreDone txn message_files verdicts → ⊥ }
    ensures converged { (txn : Qualifiers) (libraries : Libraries) →
        AreApartIn txn libraries → AreConvergedIn txn libraries → ⊥ }
{}
