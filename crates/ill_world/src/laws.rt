//! The laws of every world are the contracts of functions that do nothing. A law calls the laws on which its proof
//! relies.

ghost use Rattle.std.specs.Prelude.{◌≡◌, ◌↔◌, ◌⊎◌, ◌++◌, ◌∷◌, ◌<◌, ℕ, Bool, List, [], length, IsOk, Option, Some, Result, Ok, Err, true, false};
ghost use Rattle.std.specs.declared.alloc.AllocError.{AllocError};
ghost use Rattle.ill_values.specs.Day.{Date};
ghost use Rattle.ill_values.specs.TxnId.{Qualifiers};
ghost use Rattle.ill_values.specs.declared.apdu.Apdu.{Apdu};
ghost use Rattle.ill_core.specs.declared.requester.Wish.{Wish};
ghost use Rattle.ill_core.specs.declared.responder.Deed.{Deed};
ghost use Rattle.ill_core.specs.declared.state.State.TheVariants as states;
ghost use Rattle.ill_core.specs.declared.turn.Turn.TheVariants.{Over, Mine};
ghost use Rattle.ill_values.specs.Bodies.{is_end};
ghost use Rattle.ill_core.specs.Issued.{has_message_with};
ghost use Rattle.ill_core.specs.Requester.{RequesterRecord};
ghost use Rattle.ill_core.specs.RequesterActions as requester_actions;
ghost use Rattle.ill_core.specs.RequesterDeliveries as requester_deliveries;
ghost use Rattle.ill_core.specs.Responder.{ResponderRecord};
ghost use Rattle.ill_core.specs.ResponderActions as responder_actions;
ghost use Rattle.ill_core.specs.ResponderDeliveries as responder_deliveries;
ghost use Rattle.ill_core.specs.Verbs.{requester_turn, responder_turn, requester_verbs, responder_verbs};
ghost use Rattle.ill_record.specs.Side.{IsPrefix, issued_of};
ghost use Rattle.ill_record.specs.declared.role.Role.{Role};
ghost use Rattle.ill_record.specs.declared.role.Role.TheVariants.{Requester, Responder};
ghost use Rattle.ill_record.specs.declared.side.Side.{Side};
ghost use Rattle.ill_world.specs.declared.event.Event.{Event};
ghost use Rattle.ill_world.specs.declared.event.Event.TheVariants.{Save};
ghost use Rattle.ill_script.specs.declared.fault.SimFault.{SimFault};
ghost use Rattle.ill_script.specs.declared.fault.SimFault.TheVariants.{Write, OutOfMemory};
ghost use Rattle.ill_words.specs.declared.outcome.Outcome.{Outcome};
ghost use Rattle.ill_world.specs.World.{Parties, party, first_world, happens, run_of};
ghost use Rattle.ill_world.specs.Simulation.{script, script_read, trace_of, line_after, Simulates};
ghost use Rattle.ill_world.specs.Safety.{OfBoth, EndsAlike, WasShipped, WasGranted, Safe, IsSafeRun};
ghost use Rattle.ill_world.specs.Agreement.{Agrees, IsAgreeingRun, KeepsDates, Arrives};
ghost use Rattle.ill_world.specs.BadWorlds.{IsUnsafe, Disagrees, TakesBack, ArrivesInVain};
ghost use Rattle.ill_script.specs.BadTraces.{Leaves, IsOfNoPrefix, Misreports};
ghost use Rattle.ill_world.specs.BadRounds.{IsAmiss, cut_round, last_unheard, late_round, two_unheard};
ghost use Rattle.ill_world.specs.BadChanges.{ChangesTooMuch, LosesSent, IsUnseen};
ghost use Rattle.ill_world.specs.Copies.{puts_back, HasAllSent, older_copy_back};
ghost use Rattle.ill_world.specs.Changes.{MayChange, OnlyCommittedChanges, KeepsSent, can_be_seen};
ghost use Rattle.ill_world.specs.Round.{round_of, Performs, CanAnswer, AreConverged, HaveConverged, HaveDiverged};
ghost use Rattle.ill_words.specs.Sending.{is_over, wants_sending};
ghost use Rattle.ill_world.specs.Night.{asks, night_of, AreAtRest, AreConvergedOrAtRest, AtRest};
ghost use Rattle.ill_words.specs.BadSending.{MisjudgesEnd, MisjudgesSending};
ghost use Rattle.ill_world.specs.BadNights.{MisjudgesAsking, Restless};
ghost use Rattle.ill_world.specs.Invariant.{WasSent, RequesterInvariant, ResponderInvariant, Invariant};

/// Every wish of a requester keeps `RequesterInvariant`, and so does every delivery of a message that the responder has
/// sent.
pub fn requester_stands()
    ensures acts { (txn : Qualifiers) (x new : RequesterRecord) (wish : Wish)
        (sent : List (Option Apdu)) → requester_actions.acts x wish ≡ Ok new →
        RequesterInvariant txn x sent → RequesterInvariant txn new sent }
    ensures takes { (txn : Qualifiers) (x : RequesterRecord) (a : Apdu)
        (sent : List (Option Apdu)) → WasSent sent a →
        RequesterInvariant txn x sent → RequesterInvariant txn (requester_deliveries.takes x a).1 sent }
{
    ill_core::laws::requester_keeps_txn();
    ill_core::laws::requester_keeps_rules();
    ill_core::laws::requester_rules();
    ill_core::laws::requester_answers_once();
    ill_core::laws::requester_shows();
    ill_core::laws::requester_reflects();
    ill_core::laws::requester_issues();
}

/// Every deed of a responder keeps `ResponderInvariant`, and so does every delivery of a message that the requester has
/// sent.
pub fn responder_stands()
    ensures acts { (txn : Qualifiers) (y new : ResponderRecord) (deed : Deed) (today : Date)
        (sent : List (Option Apdu)) → responder_actions.acts y deed today ≡ Ok new →
        ResponderInvariant txn y sent → ResponderInvariant txn new sent }
    ensures takes { (txn : Qualifiers) (y : ResponderRecord) (a : Apdu)
        (sent : List (Option Apdu)) → WasSent sent a →
        ResponderInvariant txn y sent → ResponderInvariant txn (responder_deliveries.takes y a).1 sent }
{
    ill_core::laws::responder_keeps_txn();
    ill_core::laws::responder_keeps_rules();
    ill_core::laws::responder_rules();
    ill_core::laws::responder_ends_once();
    ill_core::laws::responder_answers_once();
    ill_core::laws::responder_shows();
    ill_core::laws::responder_was_asked();
    ill_core::laws::responder_has_answered_last();
    ill_core::laws::responder_recalls();
    ill_core::laws::responder_grants_rise();
    ill_core::laws::responder_is_overdue();
    ill_core::laws::responder_issues();
}

/// The world of two idle sides satisfies the invariant, and every event keeps it.
pub fn world_stands()
    ensures first { (txn : Qualifiers) → Invariant txn (first_world txn) }
    ensures after { (txn : Qualifiers) (w : Parties) (event : Event) → Invariant txn w →
        Invariant txn (happens w event).1 }
{
    requester_stands();
    responder_stands();
    ill_saved::laws::rows_grow();
    ill_core::laws::requester_keeps_due();
}

/// If a world satisfies the invariant, a requester in CANCELLED or NOT-SUPPLIED faces a responder in this state.
pub fn ends_alike()
    ensures { (txn : Qualifiers) (w : Parties) → Invariant txn w → OfBoth EndsAlike w }
{}

/// If a world satisfies the invariant, a requester in SHIPPED or later faces a responder that has shipped.
pub fn was_shipped()
    ensures { (txn : Qualifiers) (w : Parties) → Invariant txn w → OfBoth WasShipped w }
{}

/// If a world satisfies the invariant, a requester's due date is one that the responder has granted.
pub fn was_granted()
    ensures { (txn : Qualifiers) (w : Parties) → Invariant txn w → OfBoth WasGranted w }
{}

/// If a world satisfies the invariant, both sides agree.
pub fn sides_agree()
    ensures { (txn : Qualifiers) (w : Parties) → Invariant txn w → Agrees w }
{}

/// The world after any events is safe.
pub fn every_world_is_safe()
    ensures { (txn : Qualifiers) (events : List Event) → Safe (run_of (first_world txn) events) }
{
    world_stands();
    ends_alike();
    was_shipped();
    was_granted();
}

/// After any events both sides agree.
pub fn every_world_agrees()
    ensures { (txn : Qualifiers) (events : List Event) → Agrees (run_of (first_world txn) events) }
{
    world_stands();
    sides_agree();
}

/// Every world of every run is safe.
pub fn every_run_is_safe()
    ensures { (txn : Qualifiers) (events : List Event) → IsSafeRun (first_world txn) events }
{
    every_world_is_safe();
}

/// Both sides agree in every world of every run.
pub fn every_run_agrees()
    ensures { (txn : Qualifiers) (events : List Event) → IsAgreeingRun (first_world txn) events }
{
    every_world_agrees();
}

/// If a world satisfies the invariant, one delivery of each message is enough (`Arrives`). A message that ends the
/// request brings the requester to the states of this end. A Returned brings the responder to RETURNED or CHECKED-IN.
/// Either is Taken or a Repeat.
pub fn one_arrival_is_enough()
    ensures { (txn : Qualifiers) (w : Parties) (event : Event) → Invariant txn w → Arrives w event }
{
    ill_core::laws::requester_follows();
    ill_core::laws::responder_follows();
}

/// After a round both sides are converged, if the responder can answer a Conditional-Reply no. This holds if the world
/// satisfies the invariant, and so after any events of a run.
pub fn one_round_is_enough()
    ensures stands { (txn : Qualifiers) (w : Parties) → Invariant txn w → CanAnswer w.responder.live →
        AreConverged (run_of w (round_of w)) }
    ensures run { (txn : Qualifiers) (events : List Event) →
        CanAnswer (run_of (first_world txn) events).responder.live →
        AreConverged (run_of (run_of (first_world txn) events) (round_of (run_of (first_world txn) events))) }
{
    world_stands();
    ill_core::laws::requester_keeps_txn();
    ill_core::laws::requester_issues();
    ill_core::laws::requester_has_heard();
    ill_core::laws::responder_keeps_txn();
    ill_core::laws::responder_issues();
    ill_core::laws::responder_ends();
    ill_core::laws::responder_is_final();
    ill_core::laws::responder_has_heard();
}

/// A round without the last message of a side does not always bring both sides to convergence. For either side a run
/// leads to a world in which such a round leaves the sides diverged. A whole round brings both sides of this world to
/// convergence.
#[tactic(auto, using(crate::proofs::BadRounds::cut_leaves_apart, crate::proofs::BadRounds::whole_converges))]
pub fn no_round_may_be_cut_short()
    ensures cut { (who : Role) →
        AreConverged (run_of (last_unheard who) (cut_round who (last_unheard who))) → ⊥ }
    ensures whole { (who : Role) →
        AreConverged (run_of (last_unheard who) (round_of (last_unheard who))) }
{}

/// A round without the first message of a side does not always bring both sides to convergence. Later messages do
/// arrive. For either side a run leads to a world in which such a round leaves the sides diverged. A whole round brings
/// both sides of this world to convergence.
#[tactic(auto, using(crate::proofs::BadRounds::late_leaves_apart, crate::proofs::BadRounds::whole_converges_both))]
pub fn no_round_may_begin_late()
    ensures late { (who : Role) →
        AreConverged (run_of (two_unheard who) (late_round who (two_unheard who))) → ⊥ }
    ensures whole { (who : Role) →
        AreConverged (run_of (two_unheard who) (round_of (two_unheard who))) }
{}

/// Two records of which `HaveDiverged` holds are not converged. Their states do not face each other, or the requester
/// has declined conditions. Or a mark of receipt or check-in is wrong, or the due dates differ.
pub fn no_diverged_pair_is_converged()
    ensures { (x : RequesterRecord) (y : ResponderRecord) → HaveDiverged x y → HaveConverged x y → ⊥ }
{}

/// Sides whose records are diverged are not converged. Sides whose records are restless are not at rest. If the records
/// are both, the sides are neither converged nor at rest. Nor are they if one has the role of the other.
#[tactic(auto, using(crate::proofs::BadRounds::none_diverged, crate::proofs::BadRounds::none_restless, crate::proofs::BadRounds::none_of_both))]
pub fn no_world_amiss_is_converged_or_at_rest()
    ensures step { (w : Parties) → IsAmiss HaveDiverged w → AreConverged w → ⊥ }
    ensures rest { (w : Parties) → IsAmiss Restless w → AreAtRest w → ⊥ }
    ensures neither { (w : Parties) → IsAmiss HaveDiverged w → IsAmiss Restless w → AreConvergedOrAtRest w → ⊥ }
{}

/// A side can answer if it has issued fewer than 255 messages, or one that ends the request.
pub fn most_sides_can_answer()
    ensures left { (side : Side) → length (issued_of side) < 255 → CanAnswer side }
    ensures ended { (side : Side) → has_message_with is_end (issued_of side) ≡ true → CanAnswer side }
{}

/// Events that were performed lead to the world after them, and to no other. If memory ran out, a prefix of them leads
/// to the world.
#[tactic(auto, using(crate::proofs::BadRounds::none_misled))]
pub fn no_other_world_is_performed()
    ensures done { (events : List Event) (old new : Parties) →
        (new ≡ run_of old events → ⊥) → Performs {M = AllocError} run_of events old (Ok tt) new → ⊥ }
    ensures memory { (events : List Event) (old new : Parties) (memory : AllocError) →
        IsOfNoPrefix (run_of old) events new → Performs run_of events old (Err memory) new → ⊥ }
{}

/// If two records are converged, the loan is over for both, or for neither. If for neither, one has the turn and a
/// verb. Both have the turn only if a requester in CONDITIONAL faces a responder in IN-PROCESS.
pub fn one_of_two_converged_sides_acts()
    ensures over { (x : RequesterRecord) (y : ResponderRecord) → HaveConverged x y →
        (requester_turn x ≡ Over) ↔ (responder_turn y ≡ Over) }
    ensures acts { (x : RequesterRecord) (y : ResponderRecord) → HaveConverged x y →
        (requester_turn x ≡ Over → ⊥) →
        ((requester_turn x ≡ Mine) × (requester_verbs x ≡ [] → ⊥))
        ⊎ ((responder_turn y ≡ Mine) × (responder_verbs y ≡ [] → ⊥)) }
    ensures both { (x : RequesterRecord) (y : ResponderRecord) → HaveConverged x y →
        requester_turn x ≡ Mine → responder_turn y ≡ Mine →
        (x.state ≡ states.Conditional) × (y.state ≡ states.InProcess) }
{
    ill_core::laws::turns_have_verbs();
}

/// The library that has the turn can act if it has a number left: the requester by a wish, and the responder by a deed
/// that each day allows. So if two records are converged, the loan is not over, and both have numbers left, one library
/// can act.
pub fn who_has_the_turn_can_act()
    ensures asks { (x : RequesterRecord) → requester_turn x ≡ Mine → length x.issued < 255 →
        (wish : Wish) × IsOk (requester_actions.acts x wish) }
    ensures lends { (y : ResponderRecord) → responder_turn y ≡ Mine → length y.issued < 255 →
        (deed : Deed) × ((today : Date) → IsOk (responder_actions.acts y deed today)) }
    ensures converged { (x : RequesterRecord) (y : ResponderRecord) → HaveConverged x y → (requester_turn x ≡ Over → ⊥) →
        length x.issued < 255 → length y.issued < 255 →
        ((wish : Wish) × IsOk (requester_actions.acts x wish))
        ⊎ ((deed : Deed) × ((today : Date) → IsOk (responder_actions.acts y deed today))) }
{
    one_of_two_converged_sides_acts();
}

/// If a world satisfies the invariant, and the loan is over for the requester, both sides are at rest. The loan is over
/// for the responder too, and their states face each other.
pub fn requester_is_over_last()
    ensures { (txn : Qualifiers) (w : Parties) → Invariant txn w → is_over w.requester.live ≡ true →
        AreAtRest w }
{}

/// If a world satisfies the invariant, and the loan is open for the requester, a night is a round. Otherwise both sides
/// save, and nothing is sent.
pub fn nights_are_rounds()
    ensures open { (txn : Qualifiers) (w : Parties) → Invariant txn w → is_over w.requester.live ≡ false →
        night_of w ≡ round_of w }
    ensures over { (txn : Qualifiers) (w : Parties) → Invariant txn w → is_over w.requester.live ≡ true →
        night_of w ≡ Save Requester ∷ Save Responder ∷ [] }
{
    world_stands();
    requester_is_over_last();
}

/// After a night both sides are converged or at rest, if the responder can answer a Conditional-Reply no. This holds if
/// the world satisfies the invariant, and so after any events of a run.
pub fn one_night_is_enough()
    ensures stands { (txn : Qualifiers) (w : Parties) → Invariant txn w → CanAnswer w.responder.live →
        AreConvergedOrAtRest (run_of w (night_of w)) }
    ensures run { (txn : Qualifiers) (events : List Event) → let w = run_of (first_world txn) events in
        CanAnswer w.responder.live → AreConvergedOrAtRest (run_of w (night_of w)) }
{
    world_stands();
    one_round_is_enough();
    requester_is_over_last();
    nights_are_rounds();
}

/// The answers of `is_over`, `wants_sending` and `asks` are right. Records are not at rest if the loan is open for one,
/// or their states do not face each other.
pub fn no_bad_night_passes()
    ensures over { (side : Side) → MisjudgesEnd side (is_over side) → ⊥ }
    ensures sends { (was_asked : Bool) (side : Side) →
        MisjudgesSending was_asked side (wants_sending was_asked side) → ⊥ }
    ensures asks { (side : Side) → MisjudgesAsking side (asks side) → ⊥ }
    ensures rest { (x : RequesterRecord) (y : ResponderRecord) → Restless x y → AtRest x y → ⊥ }
{}

/// If a world satisfies the invariant, an event keeps or raises the requester's due date.
pub fn due_dates_stay()
    ensures { (txn : Qualifiers) (w : Parties) (event : Event) → Invariant txn w →
        KeepsDates w event (happens w event).1 }
{
    ill_core::laws::requester_keeps_due();
}

/// A world is not safe if a record of the responder contradicts one of the requester.
pub fn no_unsafe_world_is_safe()
    ensures { (w : Parties) → IsUnsafe w → Safe w → ⊥ }
{}

/// The sides do not agree in a world with two answers to a question, or two ends of the request. They do not agree if
/// accepted conditions have no yes, or a record's claim on the other side is wrong.
pub fn no_disagreeing_world_agrees()
    ensures { (w : Parties) → Disagrees w → Agrees w → ⊥ }
{}

/// An event that takes the requester's due date back does not keep it. If `Arrives` holds of an event, neither an end
/// of the request nor a Returned arrives in vain.
pub fn no_bad_event_passes()
    ensures dates { (old new : Parties) (event : Event) →
        TakesBack old event new → KeepsDates old event new → ⊥ }
    ensures arrives { (w : Parties) (event : Event) → ArrivesInVain w event → Arrives w event → ⊥ }
{}

/// If a run is safe, the world after each prefix of its events is safe. If both sides agree in a run, they agree in
/// each of these worlds.
pub fn runs_have_each_world()
    ensures safe { (w : Parties) (before after : List Event) →
        IsSafeRun w (before ++ after) → Safe (run_of w before) }
    ensures agrees { (w : Parties) (before after : List Event) →
        IsAgreeingRun w (before ++ after) → Agrees (run_of w before) }
{}

/// A trace is empty at first. Each event adds a line: its number, its outcome, and the world after it. No later event
/// changes the trace so far. So line n shows the world after the first n events.
pub fn traces_show_runs()
    ensures first { (txn : Qualifiers) → trace_of txn [] ≡ [] }
    ensures next { (txn : Qualifiers) (events : List Event) (event : Event) →
        trace_of txn (events ++ event ∷ []) ≡ trace_of txn events ++ line_after txn events event }
    ensures prefix { (txn : Qualifiers) (events more : List Event) →
        IsPrefix (trace_of txn events) (trace_of txn (events ++ more)) }
{}

/// If the writer fails, the bytes that a simulation has written are a prefix of the trace of the script. If memory runs
/// out, they are the trace of a prefix of the events. Any other result is right: `Misreports` does not hold of it.
pub fn no_bad_trace_is_written()
    ensures write { (txn : Qualifiers) (text left written : List ℕ) →
        Leaves written (trace_of txn (script text).events) →
        Simulates txn (Some text) (Some left) (Some []) (Some written) (Err Write) → ⊥ }
    ensures memory { (txn : Qualifiers) (text left written : List ℕ) →
        IsOfNoPrefix (trace_of txn) (script text).events written →
        Simulates txn (Some text) (Some left) (Some []) (Some written) (Err OutOfMemory) → ⊥ }
    ensures result { (txn : Qualifiers) (text left written : List ℕ) (result : Result ℕ SimFault) →
        Misreports (trace_of txn) script script_read text (left, written) result →
        Simulates txn (Some text) (Some left) (Some []) (Some written) result → ⊥ }
{}

/// Only `Done`, `Saved`, `Sent`, `Restarted`, `Answered(Taken)` and `Faulted` change the world. `Faulted` changes
/// only the committed side.
pub fn few_outcomes_change()
    ensures { (w : Parties) (event : Event) →
        MayChange OnlyCommittedChanges (happens w event).0 w (happens w event).1 }
{
    ill_core::laws::requester_is_quiet();
    ill_core::laws::responder_is_quiet();
}

/// A message that was sent stays sent, under its number, at every event. This holds if the world satisfies the
/// invariant, and so throughout a run.
pub fn sent_stays_sent()
    ensures event { (txn : Qualifiers) (w : Parties) (event : Event) → Invariant txn w →
        KeepsSent w (happens w event).1 }
    ensures run { (txn : Qualifiers) (events more : List Event) →
        KeepsSent (run_of (first_world txn) events) (run_of (first_world txn) (events ++ more)) }
{
    world_stands();
}

/// An event that did nothing has not changed the world. A save that failed has changed no more than a committed side.
/// No sent message is lost. No event is refused for a wrong role, or for a lack of memory.
#[tactic(auto, using(crate::proofs::BadChanges::none_too_much, crate::proofs::BadChanges::none_lost, crate::proofs::BadChanges::none_unseen))]
pub fn no_bad_change_is_allowed()
    ensures changes { (outcome : Outcome) (old new : Parties) →
        ChangesTooMuch old new outcome → MayChange OnlyCommittedChanges outcome old new → ⊥ }
    ensures sent { (old new : Parties) → LosesSent old new → KeepsSent old new → ⊥ }
    ensures seen { (outcome : Outcome) → IsUnseen outcome → can_be_seen outcome ≡ true → ⊥ }
{}

/// If a world satisfies the invariant, the record that was committed last has every message that was sent.
pub fn what_was_committed_last_has_all_that_was_sent()
    ensures { (txn : Qualifiers) (w : Parties) (who : Role) → Invariant txn w →
        HasAllSent (party w who).committed (party w who) }
{}

/// A copy of a record that is committed may be put back later, if it has every message that was sent. The invariant
/// holds then, and so the world is safe after any further events.
pub fn a_copy_with_all_that_was_sent_may_be_put_back()
    ensures stands { (txn : Qualifiers) (w : Parties) (more : List Event) (who : Role) → Invariant txn w →
        HasAllSent (party w who).committed (party (run_of w more) who) →
        Invariant txn (puts_back who (party w who).committed (run_of w more)) }
    ensures run { (txn : Qualifiers) (events more further : List Event) (who : Role) →
        let copied = run_of (first_world txn) events in let now = run_of copied more in
        HasAllSent (party copied who).committed (party now who) →
        IsSafeRun (puts_back who (party copied who).committed now) further }
{
    world_stands();
    ends_alike();
    was_shipped();
    was_granted();
}

/// An older copy, which lacks a sent message, may not be put back. A run leads to a world that is not safe after such a
/// copy was put back.
#[tactic(auto, using(crate::proofs::Copies::older_is_unsafe))]
pub fn no_older_copy_may_be_put_back()
    ensures { Safe older_copy_back → ⊥ }
{}

/// In a run no outcome is the refusal of a wrong role, or of a lack of memory.
pub fn few_outcomes_are_seen()
    ensures { (txn : Qualifiers) (events : List Event) (event : Event) →
        can_be_seen (happens (run_of (first_world txn) events) event).0 ≡ true }
{
    world_stands();
}
