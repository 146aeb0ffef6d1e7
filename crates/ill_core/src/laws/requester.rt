//! States the laws of the requester's rows.

ghost use Rattle.std.specs.Prelude.{◌≡◌, ◌↔◌, ◌⊎◌, ◌+◌, ◌≤◌, ◌&&◌, ℕ, List, [], ◌∷◌, ◌++◌, length, Option, Some, is_some, true, false, Ok};
ghost use Rattle.ill_values.specs.Day.{Date};
ghost use Rattle.ill_values.specs.declared.apdu.Apdu.{Apdu};
ghost use Rattle.ill_values.specs.Body.{Body};
ghost use Rattle.ill_values.specs.declared.apdu.BodyWith.TheVariants as types;
ghost use Rattle.ill_core.specs.declared.requester.Wish.{Wish};
ghost use Rattle.ill_core.specs.declared.state.State.TheVariants as states;
ghost use Rattle.ill_core.specs.declared.taking.Taking.TheVariants.{Taken};
ghost use Rattle.ill_core.specs.State.{is_among};
ghost use Rattle.ill_core.specs.Numbers.{is_equal_number};
ghost use Rattle.ill_values.specs.Bodies.{is_requesters};
ghost use Rattle.ill_core.specs.Issued.{is_same_txn, IssuesNext};
ghost use Rattle.ill_core.specs.Requester.{RequesterRecord, IsRequester, later, last_cancel};
ghost use Rattle.ill_core.specs.RequesterRules.{RequesterRules};
ghost use Rattle.ill_core.specs.RequesterActions.{acts};
ghost use Rattle.ill_core.specs.RequesterDeliveries.{takes};
ghost use Rattle.ill_core.specs.RequesterEvidence.{Fact, Claims, IsEvidence, KeepsDue, Holds, Replies, LeadsTo, AnswersOnce};
ghost use Rattle.ill_core.specs.RequesterEvidence as evidence;
ghost use Rattle.ill_core.specs.RequesterNotices.{Notice, Reflects, Attests, has_heard, reopens};

/// A wish issues exactly one APDU, with the next number. A message issues none. A requester issues at most 255 APDUs.
pub fn requester_issues()
    ensures acts { (x new : RequesterRecord) (wish : Wish) → acts x wish ≡ Ok new →
        IssuesNext x.txn x.issued new.issued }
    ensures takes { (x : RequesterRecord) (a : Apdu) → (takes x a).1.issued ≡ x.issued }
    ensures few { (x new : RequesterRecord) (wish : Wish) → acts x wish ≡ Ok new →
        length new.issued ≤ 255 }
{}

/// No wish and no message changes the transaction.
pub fn requester_keeps_txn()
    ensures acts { (x new : RequesterRecord) (wish : Wish) → acts x wish ≡ Ok new →
        new.txn ≡ x.txn }
    ensures takes { (x : RequesterRecord) (a : Apdu) → (takes x a).1.txn ≡ x.txn }
{}

/// If a record satisfies the rules of a requester, so does the record after a wish or a message.
pub fn requester_keeps_rules()
    ensures acts { (x new : RequesterRecord) (wish : Wish) → acts x wish ≡ Ok new →
        IsRequester x → IsRequester new }
    ensures takes { (x : RequesterRecord) (a : Apdu) → IsRequester x → IsRequester (takes x a).1 }
{}

/// A record satisfies `IsRequester` if, and only if, it satisfies each rule in `RequesterRules`.
pub fn requester_rules()
    ensures { (x : RequesterRecord) → IsRequester x ↔ RequesterRules x }
{}

/// A wish leads out of IDLE, and no message leads back there.
pub fn requester_has_begun()
    ensures acts { (x new : RequesterRecord) (wish : Wish) → acts x wish ≡ Ok new →
        is_among (states.Idle ∷ []) new.state ≡ false }
    ensures takes { (x : RequesterRecord) (a : Apdu) → is_among (states.Idle ∷ []) x.state ≡ false →
        is_among (states.Idle ∷ []) (takes x a).1.state ≡ false }
{}

/// A message that is not `Taken` changes nothing.
pub fn requester_is_quiet()
    ensures { (x : RequesterRecord) (a : Apdu) → ((takes x a).0 ≡ Ok Taken) ⊎ ((takes x a).1 ≡ x) }
{}

/// No wish and no message leads out of CANCELLED, NOT-SUPPLIED or RETURNED.
pub fn requester_is_final()
    ensures acts { (x new : RequesterRecord) (wish : Wish) → acts x wish ≡ Ok new →
        is_among (states.Cancelled ∷ states.NotSupplied ∷ states.Returned ∷ []) x.state ≡ true →
        new.state ≡ x.state }
    ensures takes { (x : RequesterRecord) (a : Apdu) →
        is_among (states.Cancelled ∷ states.NotSupplied ∷ states.Returned ∷ []) x.state ≡ true →
        (takes x a).1.state ≡ x.state }
{}

/// A requester in SHIPPED or later stays in SHIPPED or later.
pub fn requester_stays_later()
    ensures acts { (x new : RequesterRecord) (wish : Wish) → acts x wish ≡ Ok new →
        is_among later x.state ≡ true → is_among later new.state ≡ true }
    ensures takes { (x : RequesterRecord) (a : Apdu) →
        is_among later x.state ≡ true → is_among later (takes x a).1.state ≡ true }
{}

/// A wish does not change the due date. A message keeps or raises it, if it is there exactly in SHIPPED or later.
pub fn requester_keeps_due()
    ensures acts { (x new : RequesterRecord) (wish : Wish) → acts x wish ≡ Ok new →
        new.due ≡ x.due }
    ensures takes { (x : RequesterRecord) (a : Apdu) →
        is_some x.due ≡ is_among later x.state → KeepsDue x.due (takes x a).1.due }
{}

/// Each fact that a record claims after a message was claimed before, or the message is evidence of it. A wish adds no
/// claim.
pub fn requester_shows()
    ensures acts { (x new : RequesterRecord) (wish : Wish) (fact : Fact) → acts x wish ≡ Ok new →
        Claims new fact → Claims x fact }
    ensures takes { (x : RequesterRecord) (a : Apdu) (fact : Fact) →
        Claims (takes x a).1 fact → Claims x fact ⊎ IsEvidence a.body fact }
{}

/// A Conditional-Reply is issued only in CONDITIONAL. It answers the conditions held, which were not declined.
pub fn requester_replies()
    ensures { (x new : RequesterRecord) (wish : Wish) → acts x wish ≡ Ok new → Replies x new }
{}

/// A message does not change the held conditions, or removes them, or brings new ones in PENDING. New ones have a
/// number above the accepted one.
pub fn requester_holds()
    ensures { (x : RequesterRecord) (a : Apdu) → Holds x a.number (takes x a).1 }
{}

/// A wish or a message preserves this: no conditions are answered twice. Before a wish, conditions are held exactly in
/// CONDITIONAL.
pub fn requester_answers_once()
    ensures acts { (x new : RequesterRecord) (wish : Wish) → acts x wish ≡ Ok new →
        is_some x.held ≡ is_among (states.Conditional ∷ []) x.state →
        AnswersOnce x → AnswersOnce new }
    ensures takes { (x : RequesterRecord) (a : Apdu) → AnswersOnce x → AnswersOnce (takes x a).1 }
{}

/// Let a message of the transaction end the request. From an open state a Shipped leads to SHIPPED or later, and an end
/// without the item to NOT-SUPPLIED. A yes to the last Cancel leads from CANCEL-PENDING to CANCELLED. A requester
/// already in the state of this end stays there.
pub fn requester_follows()
    ensures shipped { (x : RequesterRecord) (a : Apdu) (due : Date) →
        is_same_txn a.txn x.txn ≡ true → a.body ≡ types.Shipped due →
        is_among (states.Pending ∷ states.Conditional ∷ states.CancelPending ∷ later)
        x.state ≡ true → LeadsTo later (takes x a) }
    ensures ended { (x : RequesterRecord) (a : Apdu) → is_same_txn a.txn x.txn ≡ true →
        IsEvidence a.body evidence.Ended →
        is_among (states.Pending ∷ states.Conditional ∷ states.CancelPending ∷ states.NotSupplied ∷ [])
        x.state ≡ true → LeadsTo (states.NotSupplied ∷ []) (takes x a) }
    ensures cancelled { (x : RequesterRecord) (a : Apdu) (c : ℕ) → is_same_txn a.txn x.txn ≡ true →
        a.body ≡ types.CancelReply c true → is_equal_number c (last_cancel x) ≡ true →
        is_among (states.CancelPending ∷ states.Cancelled ∷ []) x.state ≡ true →
        LeadsTo (states.Cancelled ∷ []) (takes x a) }
{}

/// Each notice that a record reflects after a wish was reflected before. After a message it was reflected before, or
/// the message attests it. The record satisfies the rules of a requester.
pub fn requester_reflects()
    ensures acts { (x new : RequesterRecord) (wish : Wish) (notice : Notice) → acts x wish ≡ Ok new →
        IsRequester x → Reflects new notice → Reflects x notice }
    ensures takes { (x : RequesterRecord) (a : Apdu) (notice : Notice) → IsRequester x →
        Reflects (takes x a).1 notice → Reflects x notice ⊎ Attests a.number a.body notice }
{}

/// A message of the transaction that was just delivered would change nothing if it came again. This stays so until a
/// message comes that reopens it.
pub fn requester_has_heard()
    ensures takes { (x : RequesterRecord) (a : Apdu) → is_same_txn a.txn x.txn ≡ true →
        is_requesters a.body ≡ false → has_heard (takes x a).1 a.number a.body ≡ true }
    ensures stays { (x : RequesterRecord) (a : Apdu) (number : ℕ) (body : Body) →
        reopens a.body body ≡ false → has_heard x number body ≡ true →
        has_heard (takes x a).1 number body ≡ true }
{}
