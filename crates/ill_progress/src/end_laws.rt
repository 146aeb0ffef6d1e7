//! The laws of the end of a loan. Its numbers are few, each act towards its end counts, and some library can act.

ghost use Rattle.std.specs.Prelude.{◌≡◌, ◌↔◌, ◌⊎◌, ◌+◌, ◌<◌, ◌≤◌, ℕ, List, length, IsOk, Ok, Err, true};
ghost use Rattle.ill_values.specs.Day.{Date};
ghost use Rattle.ill_values.specs.TxnId.{Qualifiers};
ghost use Rattle.ill_core.specs.declared.requester.Wish.{Wish};
ghost use Rattle.ill_core.specs.declared.responder.Deed.{Deed};
ghost use Rattle.ill_core.specs.declared.refusal.Refusal.TheVariants.{NotNow};
ghost use Rattle.ill_core.specs.declared.state.State.TheVariants as states;
ghost use Rattle.ill_core.specs.declared.turn.Turn.TheVariants.{Mine, Over};
ghost use Rattle.ill_core.specs.Requester.{RequesterRecord, IsRequester};
ghost use Rattle.ill_core.specs.RequesterActions as requester_actions;
ghost use Rattle.ill_core.specs.Responder.{ResponderRecord, IsResponder};
ghost use Rattle.ill_core.specs.ResponderActions as responder_actions;
ghost use Rattle.ill_core.specs.Verbs.{requester_turn, responder_turn};
ghost use Rattle.ill_record.specs.declared.role.Role.{Role};
ghost use Rattle.ill_record.specs.declared.side.Side.{Side};
ghost use Rattle.ill_record.specs.Side.{issued_of};
ghost use Rattle.ill_words.specs.declared.outcome.Outcome.TheVariants.{Done};
ghost use Rattle.ill_world.specs.declared.event.Event.{Event};
ghost use Rattle.ill_world.specs.World.{Parties, first_world, happens, party, run_of};
ghost use Rattle.ill_world.specs.Invariant.{Invariant};
ghost use Rattle.ill_world.specs.Round.{AreConverged, CanAnswer, HaveConverged};
ghost use Rattle.ill_world.specs.Night.{AreAtRest, AreConvergedOrAtRest, night_of};
ghost use Rattle.ill_progress.specs.BadEnds.{MisjudgesAct};
ghost use Rattle.ill_progress.specs.LastNumbers.{last_requester, last_responder};
ghost use Rattle.ill_progress.specs.Ends.{acts_left, acts_to_end, after_day, CanEnd, HasNumbers, is_act_to_end, is_deed_to_end, is_wish_to_end, last_refusal};

/// After any events each side has issued at most 255 messages, so both have issued at most 510. Each action that is
/// done issues one.
pub fn numbers_are_few()
    ensures each { (txn : Qualifiers) (events : List Event) (who : Role) →
        length (issued_of (party (run_of (first_world txn) events) who).live) ≤ 255 }
    ensures both { (txn : Qualifiers) (events : List Event) → let w = run_of (first_world txn) events in
        length (issued_of w.requester.live) + length (issued_of w.responder.live) ≤ 510 }
    ensures asks { (x new : RequesterRecord) (wish : Wish) → requester_actions.acts x wish ≡ Ok new →
        length new.issued ≡ length x.issued + 1 }
    ensures lends { (y new : ResponderRecord) (deed : Deed) (today : Date) →
        responder_actions.acts y deed today ≡ Ok new → length new.issued ≡ length y.issued + 1 }
{
    ill_world::laws::world_stands();
    ill_core::laws::requester_issues();
    ill_core::laws::responder_issues();
}

/// A side that has issued 255 messages refuses each action. The refusal is that of the table, or else `NumbersUsed`.
#[tactic(auto, using(crate::proofs::EndsNumbers::wish_refused, crate::proofs::EndsNumbers::deed_refused))]
pub fn no_action_lacks_a_number()
    ensures asks { (x : RequesterRecord) (wish : Wish) → length x.issued ≡ 255 →
        requester_actions.acts x wish ≡ Err (last_refusal (requester_actions.transition_of x wish)) }
    ensures lends { (y : ResponderRecord) (deed : Deed) (today : Date) → length y.issued ≡ 255 →
        responder_actions.acts y deed today
        ≡ Err (last_refusal (responder_actions.transition_of y deed today)) }
{}

/// At most five acts towards the end are left of a loan. None is left if, and only if, the loan is over for the
/// requester.
#[tactic(auto, using(crate::proofs::EndsRecords::acts_are_few, crate::proofs::EndsRecords::none_left_at_the_end))]
pub fn five_acts_end_a_loan()
    ensures few { (x : RequesterRecord) → acts_to_end x ≤ 5 }
    ensures none { (x : RequesterRecord) → (acts_to_end x ≡ 0) ↔ (requester_turn x ≡ Over) }
{}

/// The library that has the turn can act towards the end if it has a number left. The requester can by a wish, and the
/// responder by a deed that each day allows. So if two records are converged, and the loan is not over, one library
/// can.
pub fn who_has_the_turn_can_act_towards_the_end()
    ensures asks { (x : RequesterRecord) → requester_turn x ≡ Mine → length x.issued < 255 →
        (wish : Wish) × (is_wish_to_end wish ≡ true) × IsOk (requester_actions.acts x wish) }
    ensures lends { (y : ResponderRecord) → responder_turn y ≡ Mine → length y.issued < 255 →
        (deed : Deed) × (is_deed_to_end deed ≡ true)
        × ((today : Date) → IsOk (responder_actions.acts y deed today)) }
    ensures converged { (x : RequesterRecord) (y : ResponderRecord) → HaveConverged x y → (requester_turn x ≡ Over → ⊥) →
        length x.issued < 255 → length y.issued < 255 →
        ((wish : Wish) × (is_wish_to_end wish ≡ true) × IsOk (requester_actions.acts x wish))
        ⊎ ((deed : Deed) × (is_deed_to_end deed ≡ true)
        × ((today : Date) → IsOk (responder_actions.acts y deed today))) }
{
    ill_world::laws::one_of_two_converged_sides_acts();
}

/// If both sides are converged, each act towards the end leaves fewer acts, once a night has passed. Both sides are
/// then converged again, or at rest. The world satisfies the invariant, and the responder can answer a
/// Conditional-Reply no.
pub fn each_act_towards_the_end_counts()
    ensures { (txn : Qualifiers) (w : Parties) (act : Event) → Invariant txn w → AreConverged w →
        CanAnswer w.responder.live → is_act_to_end act ≡ true → (happens w act).0 ≡ Done →
        AreConvergedOrAtRest (after_day w act) × (acts_left (after_day w act) < acts_left w) }
{
    ill_world::laws::world_stands();
    ill_world::laws::one_night_is_enough();
    ill_world::laws::nights_are_rounds();
    ill_core::laws::requester_issues();
    ill_core::laws::requester_has_begun();
    ill_core::laws::requester_is_final();
    ill_core::laws::responder_issues();
    ill_core::laws::responder_ends();
    ill_core::laws::responder_is_final();
    ill_core::laws::responder_stays_later();
    numbers_are_few();
}

/// A loan whose sides are converged or at rest can be ended in as many days as acts are left. The world must satisfy
/// the invariant, and each side must have as many numbers left. So a loan with these numbers can be ended after any
/// events and a night. Before the night the responder must be able to answer a Conditional-Reply no.
pub fn every_loan_can_end()
    ensures stands { (txn : Qualifiers) (w : Parties) → Invariant txn w → AreConvergedOrAtRest w →
        HasNumbers (acts_left w) w.requester.live → HasNumbers (acts_left w) w.responder.live →
        CanEnd (acts_left w) w }
    ensures run { (txn : Qualifiers) (events : List Event) → let before = run_of (first_world txn) events in
        CanAnswer before.responder.live → let w = run_of before (night_of before) in
        HasNumbers (acts_left w) w.requester.live → HasNumbers (acts_left w) w.responder.live →
        CanEnd (acts_left w) w }
{
    ill_world::laws::world_stands();
    ill_world::laws::one_night_is_enough();
    ill_world::laws::nights_are_rounds();
    ill_world::laws::requester_is_over_last();
    ill_core::laws::requester_issues();
    ill_core::laws::requester_has_begun();
    ill_core::laws::requester_is_final();
    ill_core::laws::responder_issues();
    ill_core::laws::responder_ends();
    ill_core::laws::responder_is_final();
    ill_core::laws::responder_stays_later();
    numbers_are_few();
    who_has_the_turn_can_act_towards_the_end();
}

/// A loan that was recalled may have no end. If two converged records are in RECALL, and the requester has issued 255
/// messages, each wish and each deed is refused. There are such records, and each satisfies its rules.
pub fn the_last_number_may_leave_a_recall()
    ensures refused { (x : RequesterRecord) (y : ResponderRecord) → HaveConverged x y → x.state ≡ states.Recall →
        length x.issued ≡ 255 →
        ((wish : Wish) → requester_actions.acts x wish
        ≡ Err (last_refusal (requester_actions.transition_of x wish)))
        × ((deed : Deed) (today : Date) → responder_actions.acts y deed today ≡ Err (NotNow y.state)) }
    ensures worked { IsRequester last_requester × IsResponder last_responder × HaveConverged last_requester last_responder
        × (last_requester.state ≡ states.Recall) × (length last_requester.issued ≡ 255) }
{
    no_action_lacks_a_number();
}

/// The answer of `is_act_to_end` is right for each event. If a loan can be ended, some events bring both sides to rest.
/// A side that has issued at most 250 messages has numbers for five acts.
pub fn no_bad_end_passes()
    ensures acts { (event : Event) → MisjudgesAct event (is_act_to_end event) → ⊥ }
    ensures ends { (days : ℕ) (w : Parties) (today : Date) → CanEnd days w →
        (events : List Event) × AreAtRest (run_of w events) }
    ensures numbers { (side : Side) → length (issued_of side) ≤ 250 → HasNumbers 5 side }
{}
