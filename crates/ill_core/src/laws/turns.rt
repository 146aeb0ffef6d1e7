//! States the laws of the verbs and the turns of both roles.

ghost use Rattle.std.specs.Prelude.{◌≡◌, true, []};
ghost use Rattle.std.specs.List.{list_all};
ghost use Rattle.ill_values.specs.Day.{Date};
ghost use Rattle.ill_values.specs.declared.apdu.Apdu.{Apdu};
ghost use Rattle.ill_core.specs.declared.requester.Wish.{Wish};
ghost use Rattle.ill_core.specs.declared.responder.Deed.{Deed};
ghost use Rattle.ill_core.specs.declared.turn.Turn.TheVariants.{Over, Mine, Theirs};
ghost use Rattle.ill_core.specs.Requester.{RequesterRecord};
ghost use Rattle.ill_core.specs.RequesterActions as requester_actions;
ghost use Rattle.ill_core.specs.RequesterDeliveries as requester_deliveries;
ghost use Rattle.ill_core.specs.Responder.{ResponderRecord};
ghost use Rattle.ill_core.specs.ResponderActions as responder_actions;
ghost use Rattle.ill_core.specs.ResponderDeliveries as responder_deliveries;
ghost use Rattle.ill_core.specs.Verbs.{wish_verb, deed_verb, is_verb_among, is_now, requester_verbs, responder_verbs, may_be_early, requester_turn, responder_turn};

/// The verbs of a requester are the verbs of the wishes that are not refused as `NotNow`.
pub fn requester_verbs_are_exact()
    ensures { (x : RequesterRecord) (wish : Wish) →
        is_verb_among (requester_verbs x) (wish_verb wish) ≡ is_now (requester_actions.acts x wish) }
{}

/// The verbs of a responder are the verbs of the deeds that are not refused as `NotNow`. A date may still forbid them.
pub fn responder_verbs_are_exact()
    ensures { (y : ResponderRecord) (deed : Deed) (today : Date) →
        is_verb_among (responder_verbs y) (deed_verb deed)
        ≡ is_now (responder_actions.acts y deed today) }
{}

/// A side has a verb in its own turn. A side for which the loan is over has none.
pub fn turns_have_verbs()
    ensures requester_acts { (x : RequesterRecord) → requester_turn x ≡ Mine →
        requester_verbs x ≡ [] → ⊥ }
    ensures requester_is_done { (x : RequesterRecord) → requester_turn x ≡ Over →
        requester_verbs x ≡ [] }
    ensures responder_acts { (y : ResponderRecord) → responder_turn y ≡ Mine →
        responder_verbs y ≡ [] → ⊥ }
    ensures responder_is_done { (y : ResponderRecord) → responder_turn y ≡ Over →
        responder_verbs y ≡ [] }
{}

/// A side that waits for the other has only verbs that may be early: cancel, return, expire, overdue and recall. So a
/// side with a request, an answer or a receipt to give does not wait.
pub fn who_waits_has_early_verbs()
    ensures requester { (x : RequesterRecord) → requester_turn x ≡ Theirs →
        list_all may_be_early (requester_verbs x) ≡ true }
    ensures responder { (y : ResponderRecord) → responder_turn y ≡ Theirs →
        list_all may_be_early (responder_verbs y) ≡ true }
{}

/// If the loan is over for a requester, no message changes its record. If it is over for a responder, no message
/// changes its state.
pub fn what_is_over_stays()
    ensures requester { (x : RequesterRecord) (a : Apdu) → requester_turn x ≡ Over →
        (requester_deliveries.takes x a).1 ≡ x }
    ensures responder { (y : ResponderRecord) (a : Apdu) → responder_turn y ≡ Over →
        (responder_deliveries.takes y a).1.state ≡ y.state }
{}
