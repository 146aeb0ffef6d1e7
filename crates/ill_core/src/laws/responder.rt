//! States the laws of the responder's rows.

ghost use Rattle.std.specs.Prelude.{◌≡◌, ◌↔◌, ◌⊎◌, ◌≤◌, ℕ, [], ◌∷◌, length, is_some, true, false, Ok};
ghost use Rattle.ill_values.specs.Day.{Date};
ghost use Rattle.ill_values.specs.declared.apdu.Apdu.{Apdu};
ghost use Rattle.ill_values.specs.declared.apdu.BodyWith.TheVariants as types;
ghost use Rattle.ill_core.specs.declared.responder.Deed.{Deed};
ghost use Rattle.ill_core.specs.declared.state.State.TheVariants as states;
ghost use Rattle.ill_core.specs.declared.taking.Taking.TheVariants.{Taken};
ghost use Rattle.ill_core.specs.State.{is_among};
ghost use Rattle.ill_core.specs.Rules.{implies};
ghost use Rattle.ill_values.specs.Bodies.{is_ill_request, is_requesters};
ghost use Rattle.ill_core.specs.Issued.{is_same_txn, IssuesNext};
ghost use Rattle.ill_core.specs.Responder.{ResponderRecord, IsResponder, later};
ghost use Rattle.ill_core.specs.ResponderRules.{ResponderRules};
ghost use Rattle.ill_core.specs.ResponderActions.{acts};
ghost use Rattle.ill_core.specs.ResponderDeliveries.{takes};
ghost use Rattle.ill_values.specs.Body.{Body};
ghost use Rattle.ill_core.specs.ResponderNotices.{WasAsked, HasAnsweredLast, RecallFits, ShipsBeforeRecall, GrantsRise, OverdueFits, GrantsBeforeOverdue, has_heard, reopens};
ghost use Rattle.ill_core.specs.ResponderEvidence.{Fact, Claims, IsEvidence, KeepsRequest, IssuesUnfilled, StaysLater, Ends, EntersByEnd, EndsOnce, Question, MayCancel, MayRenew, asks, is_question_open, last_asked, AnswersLast, KeepsLast, TakesNew, AnswersOnce, LeadsTo};

/// A deed issues exactly one APDU, with the next number. A message issues none, or, if it is a Conditional-Reply no,
/// one ILL-Answer unfilled. A responder issues at most 255 APDUs.
pub fn responder_issues()
    ensures acts { (y new : ResponderRecord) (deed : Deed) (today : Date) →
        acts y deed today ≡ Ok new → IssuesNext y.txn y.issued new.issued }
    ensures takes { (y : ResponderRecord) (a : Apdu) → IssuesUnfilled y a.body (takes y a).1 }
    ensures few { (y new : ResponderRecord) (deed : Deed) (today : Date) → acts y deed today ≡ Ok new →
        length new.issued ≤ 255 }
    ensures few_taken { (y : ResponderRecord) (a : Apdu) → length y.issued ≤ 255 →
        length (takes y a).1.issued ≤ 255 }
{}

/// No deed and no message changes the transaction.
pub fn responder_keeps_txn()
    ensures acts { (y new : ResponderRecord) (deed : Deed) (today : Date) →
        acts y deed today ≡ Ok new → new.txn ≡ y.txn }
    ensures takes { (y : ResponderRecord) (a : Apdu) → (takes y a).1.txn ≡ y.txn }
{}

/// Outside IDLE no deed and no message changes the request or leads back to IDLE.
pub fn responder_keeps_request()
    ensures acts { (y new : ResponderRecord) (deed : Deed) (today : Date) →
        acts y deed today ≡ Ok new → KeepsRequest y new }
    ensures takes { (y : ResponderRecord) (a : Apdu) → KeepsRequest y (takes y a).1 }
{}

/// The record after a deed is not in IDLE, nor is the record after an ILL-Request that is taken.
pub fn responder_has_begun()
    ensures acts { (y new : ResponderRecord) (deed : Deed) (today : Date) →
        acts y deed today ≡ Ok new → is_among (states.Idle ∷ []) new.state ≡ false }
    ensures takes { (y : ResponderRecord) (a : Apdu) → is_ill_request a.body ≡ true →
        (takes y a).0 ≡ Ok Taken → is_among (states.Idle ∷ []) (takes y a).1.state ≡ false }
{}

/// If a record satisfies the rules of a responder, so does the record after a deed or a message.
pub fn responder_keeps_rules()
    ensures acts { (y new : ResponderRecord) (deed : Deed) (today : Date) →
        acts y deed today ≡ Ok new → IsResponder y → IsResponder new }
    ensures takes { (y : ResponderRecord) (a : Apdu) → IsResponder y → IsResponder (takes y a).1 }
{}

/// A record satisfies `IsResponder` if, and only if, it satisfies each rule in `ResponderRules`.
pub fn responder_rules()
    ensures { (y : ResponderRecord) → IsResponder y ↔ ResponderRules y }
{}

/// A message that is not `Taken` changes nothing.
pub fn responder_is_quiet()
    ensures { (y : ResponderRecord) (a : Apdu) → ((takes y a).0 ≡ Ok Taken) ⊎ ((takes y a).1 ≡ y) }
{}

/// No deed and no message leads out of NOT-SUPPLIED, CANCELLED or CHECKED-IN.
pub fn responder_is_final()
    ensures acts { (y new : ResponderRecord) (deed : Deed) (today : Date) →
        acts y deed today ≡ Ok new →
        is_among (states.NotSupplied ∷ states.Cancelled ∷ states.CheckedIn ∷ []) y.state ≡ true →
        new.state ≡ y.state }
    ensures takes { (y : ResponderRecord) (a : Apdu) →
        is_among (states.NotSupplied ∷ states.Cancelled ∷ states.CheckedIn ∷ []) y.state ≡ true →
        (takes y a).1.state ≡ y.state }
{}

/// A responder in SHIPPED or later stays in SHIPPED or later. One in RETURNED stays there or goes to CHECKED-IN.
pub fn responder_stays_later()
    ensures acts { (y new : ResponderRecord) (deed : Deed) (today : Date) →
        acts y deed today ≡ Ok new → StaysLater y new }
    ensures takes { (y : ResponderRecord) (a : Apdu) → StaysLater y (takes y a).1 }
{}

/// An APDU that ends the request is issued only while the request is open. It leads to the state of this end.
pub fn responder_ends()
    ensures acts { (y new : ResponderRecord) (deed : Deed) (today : Date) →
        acts y deed today ≡ Ok new → Ends y new }
    ensures takes { (y : ResponderRecord) (a : Apdu) → Ends y (takes y a).1 }
{}

/// NOT-SUPPLIED, CANCELLED, and SHIPPED or later are entered only with the APDU that leads there as the end.
pub fn responder_enters_by_end()
    ensures acts { (y new : ResponderRecord) (deed : Deed) (today : Date) →
        acts y deed today ≡ Ok new → EntersByEnd y new }
    ensures takes { (y : ResponderRecord) (a : Apdu) → EntersByEnd y (takes y a).1 }
{}

/// A deed or a message preserves this: at most one APDU ends the request, and the state agrees with it.
pub fn responder_ends_once()
    ensures acts { (y new : ResponderRecord) (deed : Deed) (today : Date) →
        acts y deed today ≡ Ok new → EndsOnce y → EndsOnce new }
    ensures takes { (y : ResponderRecord) (a : Apdu) → EndsOnce y → EndsOnce (takes y a).1 }
{}

/// A Cancel or a Renew is answered only while it waits for its answer. The answer has the number of the last one taken.
pub fn responder_answers_last()
    ensures acts { (question : Question) (y new : ResponderRecord) (deed : Deed) (today : Date) →
        acts y deed today ≡ Ok new → AnswersLast question y new }
    ensures takes { (question : Question) (y : ResponderRecord) (a : Apdu) →
        AnswersLast question y (takes y a).1 }
{}

/// A deed does not change the last Cancel and the last Renew, and lets no further one wait. A message does either only
/// if it is a Cancel or Renew with a higher number.
pub fn responder_keeps_last()
    ensures acts { (question : Question) (y new : ResponderRecord) (deed : Deed) (today : Date) →
        acts y deed today ≡ Ok new → KeepsLast question y new }
    ensures takes { (question : Question) (y : ResponderRecord) (a : Apdu) →
        KeepsLast question y (takes y a).1 ⊎ TakesNew question a.number a.body y (takes y a).1 }
{}

/// A deed or a message preserves this: no Cancel and no Renew is answered twice. Before a deed, a Cancel or Renew that
/// waits has a number.
pub fn responder_answers_once()
    ensures acts { (question : Question) (y new : ResponderRecord) (deed : Deed) (today : Date) →
        acts y deed today ≡ Ok new →
        implies (is_question_open question y.state) (is_some (last_asked question y)) ≡ true →
        AnswersOnce question y → AnswersOnce question new }
    ensures takes { (question : Question) (y : ResponderRecord) (a : Apdu) →
        AnswersOnce question y → AnswersOnce question (takes y a).1 }
{}

/// Each fact that a record claims after a message was claimed before, or the message is evidence of it. A deed adds no
/// claim, if a Cancel that waits has a number.
pub fn responder_shows()
    ensures acts { (y new : ResponderRecord) (deed : Deed) (today : Date) (fact : Fact) →
        acts y deed today ≡ Ok new →
        implies (is_question_open MayCancel y.state) (is_some y.last_cancel) ≡ true →
        Claims new fact → Claims y fact }
    ensures takes { (y : ResponderRecord) (a : Apdu) (fact : Fact) →
        Claims (takes y a).1 fact → Claims y fact ⊎ IsEvidence a.number a.body fact }
{}

/// If the item was shipped, a Returned of the transaction leads to RETURNED, unless the state is CHECKED-IN already.
pub fn responder_follows()
    ensures { (y : ResponderRecord) (a : Apdu) → is_same_txn a.txn y.txn ≡ true →
        a.body ≡ types.Returned → is_among later y.state ≡ true →
        LeadsTo (states.Returned ∷ states.CheckedIn ∷ []) (takes y a) }
{}

/// Each Cancel or Renew that a record has after a message was there before, or is this message. A deed adds none, if a
/// Cancel or Renew that waits has a number.
pub fn responder_was_asked()
    ensures acts { (question : Question) (y new : ResponderRecord) (deed : Deed) (today : Date) (number : ℕ) →
        acts y deed today ≡ Ok new →
        implies (is_question_open question y.state) (is_some (last_asked question y)) ≡ true →
        WasAsked question new number → WasAsked question y number }
    ensures takes { (question : Question) (y : ResponderRecord) (a : Apdu) (number : ℕ) →
        WasAsked question (takes y a).1 number →
        WasAsked question y number ⊎ ((asks question a.body ≡ true) × (a.number ≡ number)) }
{}

/// A deed or a message preserves this: the last Cancel and the last Renew were answered. They may also wait, or the
/// item came back. Before a deed, a Cancel or Renew that waits has a number.
pub fn responder_has_answered_last()
    ensures acts { (question : Question) (y new : ResponderRecord) (deed : Deed) (today : Date) →
        acts y deed today ≡ Ok new →
        implies (is_question_open question y.state) (is_some (last_asked question y)) ≡ true →
        HasAnsweredLast question y → HasAnsweredLast question new }
    ensures takes { (question : Question) (y : ResponderRecord) (a : Apdu) →
        HasAnsweredLast question y → HasAnsweredLast question (takes y a).1 }
{}

/// A deed or a message preserves this: each Recall is issued after the Shipped. A record with a Recall is in RECALL,
/// RETURNED or CHECKED-IN.
pub fn responder_recalls()
    ensures acts { (y new : ResponderRecord) (deed : Deed) (today : Date) → acts y deed today ≡ Ok new →
        RecallFits y → ShipsBeforeRecall y.issued → RecallFits new × ShipsBeforeRecall new.issued }
    ensures takes { (y : ResponderRecord) (a : Apdu) → RecallFits y → ShipsBeforeRecall y.issued →
        RecallFits (takes y a).1 × ShipsBeforeRecall (takes y a).1.issued }
{}

/// A deed or a message preserves this: each Overdue is issued after the APDU that grants its date. A record with an
/// Overdue for the due date is in OVERDUE, RENEW/OVERDUE, RECALL, RETURNED or CHECKED-IN. Before a deed, the record
/// satisfies the rules of a responder.
pub fn responder_is_overdue()
    ensures acts { (y new : ResponderRecord) (deed : Deed) (today : Date) → acts y deed today ≡ Ok new →
        IsResponder y → OverdueFits y → GrantsBeforeOverdue y.issued →
        OverdueFits new × GrantsBeforeOverdue new.issued }
    ensures takes { (y : ResponderRecord) (a : Apdu) → OverdueFits y → GrantsBeforeOverdue y.issued →
        OverdueFits (takes y a).1 × GrantsBeforeOverdue (takes y a).1.issued }
{}

/// A deed or a message preserves this: the granted dates rise with the numbers of the Renews that they answer. Before a
/// deed, the record satisfies the rules of a responder, and no Renew was answered twice.
pub fn responder_grants_rise()
    ensures acts { (y new : ResponderRecord) (deed : Deed) (today : Date) → acts y deed today ≡ Ok new →
        IsResponder y → AnswersOnce MayRenew y → GrantsRise y.issued → GrantsRise new.issued }
    ensures takes { (y : ResponderRecord) (a : Apdu) → GrantsRise y.issued → GrantsRise (takes y a).1.issued }
{}

/// A message of the transaction that was just delivered would change nothing if it came again. This stays so until a
/// message comes that reopens it.
pub fn responder_has_heard()
    ensures takes { (y : ResponderRecord) (a : Apdu) → is_same_txn a.txn y.txn ≡ true →
        is_requesters a.body ≡ true → has_heard (takes y a).1 a.number a.body ≡ true }
    ensures stays { (y : ResponderRecord) (a : Apdu) (number : ℕ) (body : Body) →
        reopens a.body body ≡ false → has_heard y number body ≡ true →
        has_heard (takes y a).1 number body ≡ true }
{}
