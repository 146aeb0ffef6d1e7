//! The laws of two desks of many transactions are the contracts of functions that do nothing. A law calls the laws on
//! which its proof relies.

ghost use Rattle.std.specs.Prelude.{◌≡◌, ◌++◌, ℕ, Bool, List, [], ◌∷◌, Option, Some, None, Result, Err};
ghost use Rattle.ill_values.specs.TxnId.{Qualifiers};
ghost use Rattle.ill_record.specs.Side.{IsPrefix};
ghost use Rattle.ill_record.specs.declared.role.Role.{Role};
ghost use Rattle.ill_record.specs.declared.role.Role.TheVariants.{Requester};
ghost use Rattle.ill_saved.specs.ManySides.{found_by, txn_held, side_for};
ghost use Rattle.ill_record.specs.Sides.{SidesOf};
ghost use Rattle.ill_world.specs.declared.event.DeskEvent.{DeskEvent};
ghost use Rattle.ill_world.specs.declared.event.DeskEvent.TheVariants.{Save, SaveFault, Deliver, Restart, Noise};
ghost use Rattle.ill_words.specs.declared.outcome.DeskOutcome.{DeskOutcome};
ghost use Rattle.ill_words.specs.declared.outcome.DeskOutcome.TheVariants.{Plain, DeskFull};
ghost use Rattle.ill_world.specs.declared.event.Event.{Event};
ghost use Rattle.ill_world.specs.declared.event.Event.TheVariants as events;
ghost use Rattle.ill_words.specs.declared.outcome.Outcome.{Outcome};
ghost use Rattle.ill_words.specs.declared.outcome.Outcome.TheVariants.{NotSent};
ghost use Rattle.ill_script.specs.declared.fault.SimFault.{SimFault};
ghost use Rattle.ill_script.specs.declared.fault.SimFault.TheVariants.{Write, OutOfMemory};
ghost use Rattle.ill_script.specs.declared.script_line.ScriptLine.{ScriptLine};
ghost use Rattle.ill_script.specs.declared.script_line.ScriptLine.TheVariants as lines;
ghost use Rattle.ill_world.specs.declared.desk_script.DeskLine.TheVariants as desk_lines;
ghost use Rattle.ill_world.specs.Desks.{DeskParty, DeskParties, plain, first_desks, desks_happen, desks_run, project, events_for, Projects};
ghost use Rattle.ill_world.specs.DeskScript.{EventIn, in_txn, says_in, IsInTxn};
ghost use Rattle.ill_world.specs.DeskSimulation.{desk_script, desk_script_read, desk_trace_of, desk_line_after, SimulatesDesks};
ghost use Rattle.ill_world.specs.World.{Party, Parties, party, run_of};
ghost use Rattle.ill_world.specs.Safety.{Safe};
ghost use Rattle.ill_world.specs.Agreement.{Agrees, KeepsDates};
ghost use Rattle.ill_world.specs.BadDesks.{Names, IsNotReached, MissesHeld, MissesNew, ChangesUnreached, Hides, IsMisseen, ArrivesInVainAt};
ghost use Rattle.ill_world.specs.BadChanges.{ChangesTooMuch};
ghost use Rattle.ill_script.specs.BadTraces.{Leaves, IsOfNoPrefix, Misreports};
ghost use Rattle.ill_world.specs.Changes.{KeepsSent};
ghost use Rattle.ill_world.specs.Copies.{puts_back, desk_puts_back, HasAllSent};
ghost use Rattle.ill_world.specs.DeskChanges.{DeskMayChange, ReachesSide, ProjectsTo};
ghost use Rattle.ill_world.specs.Round.{round_of, CanAnswer, AreConverged};
ghost use Rattle.ill_world.specs.DeskRound.{desk_round_of};
ghost use Rattle.ill_world.specs.Night.{night_of, AreConvergedOrAtRest};
ghost use Rattle.ill_world.specs.DeskNight.{desk_night_of};
ghost use Rattle.ill_world.specs.DeskSafety.{ArrivesAt, DesksInvariant, IsRunOfEach, IsSafeDeskRun, IsAgreeingDeskRun};

use crate::laws;

/// The projection of two desks to a transaction has all that they hold, are committed and have sent in it.
pub fn desks_show_what_they_hold()
    ensures { (txn : Qualifiers) (w : DeskParties) → ProjectsTo w.requester txn (project txn w).requester
        × ProjectsTo w.responder txn (project txn w).responder }
{}

/// If two desks satisfy `DesksInvariant`, an event is for each transaction one of its events, or leaves the projection
/// unchanged.
pub fn desk_events_are_events()
    ensures { (txn : Qualifiers) (w : DeskParties) (event : DeskEvent) → DesksInvariant w →
        Projects txn w event }
{
    ill_saved::laws::rows_grow();
    ill_core::laws::requester_is_quiet();
    ill_core::laws::responder_is_quiet();
}

/// Two desks that hold nothing satisfy `DesksInvariant`, and every event keeps it.
pub fn desks_stand()
    ensures first { DesksInvariant first_desks }
    ensures after { (w : DeskParties) (event : DeskEvent) → DesksInvariant w →
        DesksInvariant (desks_happen w event).1 }
{
    laws::world_stands();
    ill_saved::laws::rows_grow();
    ill_core::laws::requester_is_quiet();
    ill_core::laws::responder_is_quiet();
}

/// The projection of two desks to a transaction, after any events, is the world after the events of this transaction.
pub fn desk_runs_are_runs()
    ensures { (events : List DeskEvent) → IsRunOfEach events }
{
    desk_events_are_events();
    desks_stand();
}

/// Every world of every run of two desks is safe in each transaction.
pub fn every_desk_run_is_safe()
    ensures { (events : List DeskEvent) → IsSafeDeskRun first_desks events }
{
    desk_runs_are_runs();
    laws::every_world_is_safe();
}

/// Both sides of each transaction agree in every world of every run of two desks.
pub fn every_desk_run_agrees()
    ensures { (events : List DeskEvent) → IsAgreeingDeskRun first_desks events }
{
    desk_runs_are_runs();
    laws::every_world_agrees();
}

/// If two desks satisfy `DesksInvariant`, an event keeps or raises the requester's due date in each transaction.
pub fn due_dates_stay_at_desks()
    ensures { (txn : Qualifiers) (w : DeskParties) (event : DeskEvent) → DesksInvariant w →
        KeepsDates (project txn w) (plain event) (project txn (desks_happen w event).1) }
{
    desk_events_are_events();
    laws::due_dates_stay();
}

/// If two desks satisfy `DesksInvariant`, an event that names a transaction reaches the held side, or a new one. A
/// Request begins a new side at the requester, and an ILL-Request at the responder. Either needs a desk that holds
/// fewer than 1,000 sides.
pub fn desks_reach_what_they_hold()
    ensures { (w : DeskParties) (event : DeskEvent) → DesksInvariant w → ReachesSide w event }
{}

/// If two desks satisfy `DesksInvariant`, one delivery of each message is enough (`ArrivesAt`). A message that ends the
/// request brings the requester's side to the states of this end. A Returned brings the responder's side to RETURNED or
/// CHECKED-IN. Either is Taken or a Repeat.
pub fn one_arrival_at_a_desk_is_enough()
    ensures { (w : DeskParties) (event : DeskEvent) → DesksInvariant w → ArrivesAt w event }
{
    desk_events_are_events();
    desks_reach_what_they_hold();
    laws::one_arrival_is_enough();
}

/// If two desks satisfy `DesksInvariant`, few outcomes change the projection to a transaction. They are `Done`,
/// `Saved`, `Sent`, `Restarted`, `Answered(Taken)` and `Faulted`. `Faulted` changes only the committed side.
pub fn few_desk_outcomes_change()
    ensures { (txn : Qualifiers) (w : DeskParties) (event : DeskEvent) → DesksInvariant w →
        let after = desks_happen w event in
        DeskMayChange after.0 (project txn w) (project txn after.1) }
{
    desk_events_are_events();
    laws::few_outcomes_change();
}

/// If two desks satisfy `DesksInvariant`, each message that was sent in a transaction stays sent, under its number.
pub fn sent_stays_sent_at_desks()
    ensures { (txn : Qualifiers) (w : DeskParties) (event : DeskEvent) → DesksInvariant w →
        KeepsSent (project txn w) (project txn (desks_happen w event).1) }
{
    desk_events_are_events();
    laws::sent_stays_sent();
}

/// If a run of two desks is safe, each world after a prefix of its events is safe. If both sides of each transaction
/// agree in it, they agree in each of these worlds. One more event leads a transaction on by its own events.
pub fn desk_runs_have_each_world()
    ensures safe { (w : DeskParties) (before after : List DeskEvent) (txn : Qualifiers) →
        IsSafeDeskRun w (before ++ after) → Safe (project txn (desks_run w before)) }
    ensures agrees { (w : DeskParties) (before after : List DeskEvent) (txn : Qualifiers) →
        IsAgreeingDeskRun w (before ++ after) → Agrees (project txn (desks_run w before)) }
    ensures next { (events : List DeskEvent) (event : DeskEvent) (txn : Qualifiers) →
        IsRunOfEach events → IsRunOfEach (events ++ event ∷ []) →
        let w = desks_run first_desks events in
        project txn (desks_happen w event).1 ≡ run_of (project txn w) (events_for txn w (event ∷ [])) }
{}

/// A transaction has events of the desks, in their order. It has each event of a whole desk, and each that names it and
/// reaches it. It has no event that names another transaction, none that is not reached, and no noise.
pub fn transactions_have_their_events()
    ensures order { (txn : Qualifiers) (w : DeskParties) (before after : List DeskEvent) →
        events_for txn w (before ++ after)
        ≡ events_for txn w before ++ events_for txn (desks_run w before) after }
    ensures whole { (txn : Qualifiers) (w : DeskParties) (who : Role) (committed : Bool) →
        events_for txn w (Save who ∷ SaveFault who committed ∷ Restart who ∷ [])
        ≡ events.Save who ∷ events.SaveFault who committed ∷ events.Restart who ∷ [] }
    ensures named { (txn : Qualifiers) (w : DeskParties) (event : DeskEvent) (outcome : Outcome) →
        Names txn event → (desks_happen w event).0 ≡ Plain outcome →
        events_for txn w (event ∷ []) ≡ plain event ∷ [] }
    ensures others { (txn another : Qualifiers) (w : DeskParties) (event : DeskEvent) →
        Names another event → (txn ≡ another → ⊥) → events_for txn w (event ∷ []) ≡ [] }
    ensures unreached { (txn : Qualifiers) (w : DeskParties) (event : DeskEvent) →
        IsNotReached (desks_happen w event).0 → events_for txn w (event ∷ []) ≡ [] }
    ensures noise { (txn : Qualifiers) (w : DeskParties) (who : Role) (bytes : List ℕ) →
        events_for txn w (Noise who bytes ∷ []) ≡ [] }
{}

/// No event of two desks misses a transaction that its desk holds, or one that it begins. None changes a transaction
/// that it does not reach, or changes one too much. If `ArrivesAt` holds of it, neither an end of a request nor a
/// Returned arrives in vain.
pub fn no_bad_desk_event_passes()
    ensures reaches { (w : DeskParties) (event : DeskEvent) → MissesHeld w event → ReachesSide w event → ⊥ }
    ensures begins { (w : DeskParties) (event : DeskEvent) → MissesNew w event → ReachesSide w event → ⊥ }
    ensures changes { (outcome : DeskOutcome) (old new : Parties) →
        ChangesUnreached outcome old new → DeskMayChange outcome old new → ⊥ }
    ensures plain { (outcome : Outcome) (old new : Parties) →
        ChangesTooMuch old new outcome → DeskMayChange (Plain outcome) old new → ⊥ }
    ensures arrives { (w : DeskParties) (event : DeskEvent) →
        ArrivesInVainAt w event → ArrivesAt w event → ⊥ }
{}

/// Two desks show a copy that is put back as a copy in each transaction. If two desks satisfy `DesksInvariant`, a copy
/// of what is committed may be put back later. Then each transaction is safe in which the copy has every message that
/// was sent.
pub fn a_copy_of_a_desk_may_be_put_back()
    ensures each { (txn : Qualifiers) (w : DeskParties) (who : Role) (copy : SidesOf) →
        project txn (desk_puts_back who copy w) ≡ puts_back who (side_for txn copy) (project txn w) }
    ensures safe { (txn : Qualifiers) (w : DeskParties) (more : List DeskEvent) (who : Role) → DesksInvariant w →
        let copy = (party w who).committed in let now = desks_run w more in
        HasAllSent (side_for txn copy) (party (project txn now) who) →
        Safe (project txn (desk_puts_back who copy now)) }
{
    desks_stand();
    desk_events_are_events();
    laws::world_stands();
    laws::ends_alike();
    laws::was_shipped();
    laws::was_granted();
}

/// A party to which a desk projects hides nothing that the desk holds, is committed or has sent. If `Projects` holds,
/// an event of a transaction is seen in it with its outcome and its world. Any other event changes nothing in it.
#[tactic(auto, using(crate::proofs::BadDesks::none_hidden, crate::proofs::BadDesks::none_misseen))]
pub fn no_bad_projection_passes()
    ensures shows { (p : DeskParty) (txn : Qualifiers) (shown : Party) →
        Hides p txn shown → ProjectsTo p txn shown → ⊥ }
    ensures events { (txn : Qualifiers) (w : DeskParties) (event : DeskEvent) →
        IsMisseen txn w event → Projects txn w event → ⊥ }
{}

/// If the writer fails, the bytes that a simulation of two desks has written are a prefix of the trace. If memory runs
/// out, they are the trace of a prefix of the events. Any other result is right: `Misreports` does not hold of it.
pub fn no_bad_desk_trace_is_written()
    ensures write { (text left written : List ℕ) →
        Leaves written (desk_trace_of (desk_script text).events) →
        SimulatesDesks (Some text) (Some left) (Some []) (Some written) (Err Write) → ⊥ }
    ensures memory { (text left written : List ℕ) →
        IsOfNoPrefix desk_trace_of (desk_script text).events written →
        SimulatesDesks (Some text) (Some left) (Some []) (Some written) (Err OutOfMemory) → ⊥ }
    ensures result { (text left written : List ℕ) (result : Result ℕ SimFault) →
        Misreports desk_trace_of desk_script desk_script_read text (left, written) result →
        SimulatesDesks (Some text) (Some left) (Some []) (Some written) result → ⊥ }
{}

/// If two desks satisfy `DesksInvariant`, the delivery of a message is never `DeskFull`, and so in no run. A delivery
/// to the requester's desk is `NotSent` in each transaction that it does not hold.
pub fn deliveries_find_room()
    ensures room { (w : DeskParties) (who : Role) (txn : Qualifiers) (n : ℕ) → DesksInvariant w →
        (desks_happen w (Deliver who txn n)).0 ≡ DeskFull → ⊥ }
    ensures run { (events : List DeskEvent) (who : Role) (txn : Qualifiers) (n : ℕ) →
        (desks_happen (desks_run first_desks events) (Deliver who txn n)).0 ≡ DeskFull → ⊥ }
    ensures unheld { (w : DeskParties) (txn : Qualifiers) (n : ℕ) → DesksInvariant w →
        found_by txn_held txn w.requester.live.held ≡ None →
        (desks_happen w (Deliver Requester txn n)).0 ≡ Plain NotSent }
{
    desks_stand();
    desks_reach_what_they_hold();
}

/// A round of two desks is a round of both sides in each transaction. After it both sides are converged, if the
/// responder can answer a Conditional-Reply no. This holds if the desks satisfy `DesksInvariant`, and so after any
/// events of a run.
pub fn one_desk_round_is_enough()
    ensures each { (txn : Qualifiers) (w : DeskParties) → DesksInvariant w →
        project txn (desks_run w (desk_round_of w)) ≡ run_of (project txn w) (round_of (project txn w)) }
    ensures converged { (txn : Qualifiers) (w : DeskParties) → DesksInvariant w →
        CanAnswer (project txn w).responder.live → AreConverged (project txn (desks_run w (desk_round_of w))) }
    ensures run { (txn : Qualifiers) (events : List DeskEvent) → let w = desks_run first_desks events in
        CanAnswer (project txn w).responder.live → AreConverged (project txn (desks_run w (desk_round_of w))) }
{
    desks_stand();
    desk_events_are_events();
    desks_reach_what_they_hold();
    laws::one_round_is_enough();
}

/// A night of two desks is a night of both sides in each transaction. After it both sides are converged or at rest, if
/// the responder can answer a Conditional-Reply no. This holds if the desks satisfy `DesksInvariant`, and so after any
/// events of a run.
pub fn one_desk_night_is_enough()
    ensures each { (txn : Qualifiers) (w : DeskParties) → DesksInvariant w →
        project txn (desks_run w (desk_night_of w)) ≡ run_of (project txn w) (night_of (project txn w)) }
    ensures converged { (txn : Qualifiers) (w : DeskParties) → DesksInvariant w →
        CanAnswer (project txn w).responder.live → AreConvergedOrAtRest (project txn (desks_run w (desk_night_of w))) }
    ensures run { (txn : Qualifiers) (events : List DeskEvent) → let w = desks_run first_desks events in
        CanAnswer (project txn w).responder.live → AreConvergedOrAtRest (project txn (desks_run w (desk_night_of w))) }
{
    desks_stand();
    desk_events_are_events();
    desks_reach_what_they_hold();
    laws::one_night_is_enough();
}

/// In a script of two desks a line other than `use` leaves the transaction in use unchanged. The line has the event
/// that it has in a script of two sides. An event of one transaction names the one in use, and no other. Before the
/// first `use` there is no event.
#[tactic(auto, using(crate::proofs::BadDesks::none_elsewhere))]
pub fn events_are_in_the_transaction_in_use()
    ensures stays { (in_use : Option Qualifiers) (line : ScriptLine Event) →
        (says_in in_use (desk_lines.Plain line)).1 ≡ in_use }
    ensures plain { (txn : Qualifiers) (event : Event) → plain (in_txn txn event) ≡ event }
    ensures named { (txn : Qualifiers) (event : Event) → IsInTxn txn (in_txn txn event) }
    ensures others { (txn another : Qualifiers) (event : DeskEvent) →
        Names another event → (txn ≡ another → ⊥) → IsInTxn txn event → ⊥ }
    ensures none { (event : Event) → (says_in None (desk_lines.Plain (lines.Event event))).0 ≡ lines.Bad }
{}

/// A trace of two desks is empty at first. Each event adds a line: its number, its outcome, and both sides of its
/// transaction after it. No later event changes the trace so far. So line n shows the desks after the first n events.
pub fn desk_traces_show_runs()
    ensures first { desk_trace_of [] ≡ [] }
    ensures next { (events : List EventIn) (event : EventIn) →
        desk_trace_of (events ++ event ∷ []) ≡ desk_trace_of events ++ desk_line_after events event }
    ensures prefix { (events more : List EventIn) →
        IsPrefix (desk_trace_of events) (desk_trace_of (events ++ more)) }
{}
