//! The laws of nights in which people act, and of nights that the responder begins.

ghost use Rattle.std.specs.Prelude.{◌≡◌, ◌++◌, ◌∷◌, Bool, true, List};
ghost use Rattle.std.specs.List.{list_all};
ghost use Rattle.ill_values.specs.Day.{Date};
ghost use Rattle.ill_values.specs.TxnId.{Qualifiers};
ghost use Rattle.ill_core.specs.declared.responder.Deed.{Deed};
ghost use Rattle.ill_core.specs.Requester.{RequesterRecord};
ghost use Rattle.ill_core.specs.Responder.{ResponderRecord};
ghost use Rattle.ill_record.specs.declared.role.Role.TheVariants.{Requester, Responder};
ghost use Rattle.ill_world.specs.declared.event.Event.{Event};
ghost use Rattle.ill_world.specs.declared.event.Event.TheVariants.{Save};
ghost use Rattle.ill_world.specs.declared.event.DeskEvent.{DeskEvent};
ghost use Rattle.ill_world.specs.declared.event.Event.TheVariants as events;
ghost use Rattle.ill_world.specs.World.{Parties, run_of, who_of};
ghost use Rattle.ill_world.specs.Desks.{DeskParties, desks_run, events_for, project};
ghost use Rattle.ill_world.specs.DeskSafety.{DesksInvariant};
ghost use Rattle.ill_world.specs.Invariant.{Invariant};
ghost use Rattle.ill_world.specs.Round.{half_of, CanAnswer};
ghost use Rattle.ill_world.specs.Night.{AreConvergedOrAtRest, asking_half, asks};
ghost use Rattle.ill_progress.specs.BadNightWithPeople.{HasNotHeard, IsNotCommitted};
ghost use Rattle.ill_progress.specs.NightFacts.{NightFacts};
ghost use Rattle.ill_progress.specs.NightWithPeople.{HasHeard, AreCommitted, ResponderHasHeard, answering_half, asked_and_worked, is_by_responder, two_late_nights_of, worked_night_of};

/// The laws of the tables and of worlds on which the laws of nights rest, in one record.
fn night_facts()
    ensures { (txn : Qualifiers) → NightFacts txn }
{
    ill_world::laws::world_stands();
    ill_core::laws::requester_issues();
    ill_core::laws::responder_keeps_txn();
    ill_core::laws::responder_has_heard();
    ill_core::laws::what_is_over_stays();
    ill_world::laws::one_round_is_enough();
    ill_world::laws::requester_is_over_last();
    ill_world::laws::nights_are_rounds();
    ill_world::laws::one_night_is_enough();
}

/// After the requester's half of a round the responder has heard all messages of the requester. If the responder saves
/// then, further events at its library, without deliveries, change nothing of this.
pub fn the_responder_has_heard_all()
    ensures { (txn : Qualifiers) (w : Parties) (people : List Event) → Invariant txn w →
        list_all is_by_responder people ≡ true →
        ResponderHasHeard (run_of w (half_of Requester w ++ Save Responder ∷ people)) }
{
    night_facts();
}

/// If the responder has heard all messages of the requester, the requester's half of a round changes neither live side.
pub fn a_half_without_news_changes_nothing()
    ensures { (txn : Qualifiers) (w : Parties) → Invariant txn w → ResponderHasHeard w →
        let new = run_of w (half_of Requester w) in
        (new.requester.live ≡ w.requester.live) × (new.responder.live ≡ w.responder.live) }
{
    night_facts();
}

/// After a night in which the responder's library acts between the halves both sides are converged or at rest, if the
/// responder can then answer a Conditional-Reply no. Both live sides are committed.
pub fn a_night_with_people_is_enough()
    ensures converged { (txn : Qualifiers) (w : Parties) (people : List Event) → Invariant txn w →
        list_all is_by_responder people ≡ true → CanAnswer (run_of w (asked_and_worked people w)).responder.live →
        AreConvergedOrAtRest (run_of w (worked_night_of people w)) }
    ensures committed { (txn : Qualifiers) (w : Parties) (people : List Event) → Invariant txn w →
        list_all is_by_responder people ≡ true → AreCommitted (run_of w (worked_night_of people w)) }
{
    night_facts();
}

/// If the events of a transaction, among those of two desks, are a night in which people act, its sides are converged
/// or at rest after them, in memory and committed. The events of other transactions may stand anywhere between them.
pub fn a_night_with_people_is_enough_at_desks()
    ensures converged { (txn : Qualifiers) (w : DeskParties) (events : List DeskEvent) (people : List Event) →
        DesksInvariant w → events_for txn w events ≡ worked_night_of people (project txn w) →
        list_all is_by_responder people ≡ true →
        CanAnswer (run_of (project txn w) (asked_and_worked people (project txn w))).responder.live →
        AreConvergedOrAtRest (project txn (desks_run w events)) }
    ensures committed { (txn : Qualifiers) (w : DeskParties) (events : List DeskEvent) (people : List Event) →
        DesksInvariant w → events_for txn w events ≡ worked_night_of people (project txn w) →
        list_all is_by_responder people ≡ true → AreCommitted (project txn (desks_run w events)) }
{
    a_night_with_people_is_enough();
    ill_world::desk_laws::desk_events_are_events();
    ill_world::desk_laws::desks_stand();
}

/// After two nights that the responder begins both sides are converged or at rest, if the responder can answer a
/// Conditional-Reply no at first. So two nights are enough, whichever library begins.
pub fn two_nights_are_enough()
    ensures { (txn : Qualifiers) (asked : Bool) (w : Parties) → Invariant txn w → CanAnswer w.responder.live →
        AreConvergedOrAtRest (run_of w (two_late_nights_of asked w)) }
{
    night_facts();
}

/// A responder that a message would change has not heard all. Parties of which one has not committed have not both
/// committed. Each deed, save and restart of the responder may stand in a night with people, and no event of the
/// requester may. Such a night is the requester's half, a save of the responder, what people do, and the responder's
/// half.
#[tactic(auto, using(crate::proofs::BadNightWithPeople::none_unheard, crate::proofs::BadNightWithPeople::none_uncommitted, crate::proofs::BadNightWithPeople::by_responder))]
pub fn no_bad_night_with_people_passes()
    ensures heard { (x : RequesterRecord) (y : ResponderRecord) → HasNotHeard x y → HasHeard x y → ⊥ }
    ensures committed { (w : Parties) → IsNotCommitted w → AreCommitted w → ⊥ }
    ensures deeds { (deed : Deed) (today : Date) → is_by_responder (events.Deed deed today) ≡ true }
    ensures saves { is_by_responder (Save Responder) ≡ true }
    ensures faults { (committed : Bool) → is_by_responder (events.SaveFault Responder committed) ≡ true }
    ensures restarts { is_by_responder (events.Restart Responder) ≡ true }
    ensures others { (event : Event) → is_by_responder event ≡ true → who_of event ≡ Responder }
    ensures parts { (people : List Event) (w : Parties) → let before = asking_half w ++ Save Responder ∷ people in
        worked_night_of people w ≡ before ++ answering_half (asks w.requester.live) (run_of w before) }
{}
