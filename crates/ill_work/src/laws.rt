//! States the laws of the kinds of work, as contracts of functions that do nothing.

ghost use Rattle.std.specs.Prelude.{◌≡◌, ◌<◌, ◌≤◌, ◌||◌, ℕ, true, false, List, [], ◌∷◌, length, nat_lt, sum_by, IsPermutation, Some, None};
ghost use Rattle.std.specs.Result.{is_ok};
ghost use Rattle.ill_values.specs.Day.{Date, IsDate};
ghost use Rattle.ill_core.specs.declared.requester.Wish.{Wish};
ghost use Rattle.ill_core.specs.declared.responder.Deed.{Deed};
ghost use Rattle.ill_core.specs.declared.turn.Turn.TheVariants.{Mine};
ghost use Rattle.ill_core.specs.declared.verb.Verb.{Verb};
ghost use Rattle.ill_core.specs.Dates.{is_after_due, is_before};
ghost use Rattle.ill_core.specs.Requester.{RequesterRecord};
ghost use Rattle.ill_core.specs.RequesterActions as requester_actions;
ghost use Rattle.ill_core.specs.Responder.{ResponderRecord};
ghost use Rattle.ill_core.specs.ResponderActions as responder_actions;
ghost use Rattle.ill_core.specs.ResponderActions.{expiry_of};
ghost use Rattle.ill_core.specs.Verbs.{wish_verb, deed_verb, is_verb_among};
ghost use Rattle.ill_record.specs.declared.side.Side.{Side};
ghost use Rattle.ill_record.specs.declared.side.Side.TheVariants as sides;
ghost use Rattle.ill_record.specs.Side.{due_date_of, IsConsistent};
ghost use Rattle.ill_record.specs.SideVerbs.{turn_of};
ghost use Rattle.ill_words.specs.Possible.{possible_on, request_of};
ghost use Rattle.ill_words.specs.Waiting.{is_turn, turn_on};
ghost use Rattle.ill_words.specs.Sending.{is_over};
ghost use Rattle.ill_work.specs.declared.work.Work.{Work};
ghost use Rattle.ill_work.specs.declared.work.Work.TheVariants as kinds;
ghost use Rattle.ill_work.specs.BadWork.{MisjudgesWork};
ghost use Rattle.ill_work.specs.Dates.{may_name_due};
ghost use Rattle.ill_work.specs.Order.{count_of, most_pressing_first, urgency_on};
ghost use Rattle.ill_work.specs.Table.{kind_of_work, work_on};
ghost use Rattle.ill_work.specs.Work.{all_work, is_work_among, requesters_work, responders_work, urgency_of, wants_a_hand, work_verbs};

/// Work can be done on its day. Each verb of a kind of work is possible on that day. If a number is left, each wish
/// with such a verb is done. A deed with such a verb is done if, and only if, it may name its due date.
#[tactic(auto, using(crate::proofs::DoneLemmas::work_is_possible, crate::proofs::ResponderWork::work_done))]
pub fn work_can_be_done()
    ensures possible { (today : Date) (ahead : ℕ) (side : Side) (verb : Verb) →
        is_verb_among (work_verbs (kind_of_work today ahead side)) verb ≡ true →
        is_verb_among (possible_on (Some today) side) verb ≡ true }
    ensures asks { (today : Date) (ahead : ℕ) (x : RequesterRecord) (wish : Wish) →
        is_verb_among (work_verbs (kind_of_work today ahead (sides.Requester x))) (wish_verb wish) ≡ true →
        nat_lt (length x.issued) 255 ≡ true → is_ok (requester_actions.acts x wish) ≡ true }
    ensures lends { (today : Date) (ahead : ℕ) (y : ResponderRecord) (deed : Deed) →
        is_verb_among (work_verbs (kind_of_work today ahead (sides.Responder y))) (deed_verb deed) ≡ true →
        nat_lt (length y.issued) 255 ≡ true →
        is_ok (responder_actions.acts y deed today) ≡ may_name_due today y deed }
{
    ill_core::laws::requester_verbs_are_exact();
    ill_core::laws::responder_verbs_are_exact();
}

/// What cannot be done is no work. A side without a possible action wants no hand. The work is `Over` if, and only if,
/// nobody acts next.
pub fn no_work_is_left_at_the_end()
    ensures idle { (today : Date) (ahead : ℕ) (side : Side) → possible_on (Some today) side ≡ [] →
        wants_a_hand (kind_of_work today ahead side) ≡ false }
    ensures over { (today : Date) (ahead : ℕ) (side : Side) →
        is_work_among (kinds.Over ∷ []) (kind_of_work today ahead side) ≡ is_over side }
{
    work_can_be_done();
}

/// The work of a requester is one of its kinds, and the work of a responder one of its own. Only `Wait` and `Over` are
/// kinds of both.
pub fn work_is_of_its_role()
    ensures asks { (today : Date) (ahead : ℕ) (x : RequesterRecord) →
        is_work_among requesters_work (kind_of_work today ahead (sides.Requester x)) ≡ true }
    ensures lends { (today : Date) (ahead : ℕ) (y : ResponderRecord) →
        is_work_among responders_work (kind_of_work today ahead (sides.Responder y)) ≡ true }
    ensures apart { (work : Work) → is_work_among requesters_work work ≡ true →
        is_work_among responders_work work ≡ true →
        is_work_among (kinds.Wait ∷ kinds.Over ∷ []) work ≡ true }
{}

/// Work agrees with the turn. A side in its own turn has work for a hand, or its item is with a reader. In the other's
/// turn it has none before a date is past. On each day a consistent side has the turn if, and only if, its work wants
/// a hand, or its item is with a reader.
#[tactic(auto, using(crate::proofs::TurnLemmas::side_agrees))]
pub fn work_agrees_with_the_turn()
    ensures mine { (today : Date) (ahead : ℕ) (side : Side) → is_turn Mine (turn_of side) ≡ true →
        (wants_a_hand (kind_of_work today ahead side)
        || is_work_among (kinds.WithReader ∷ []) (kind_of_work today ahead side)) ≡ true }
    ensures waits { (today : Date) (ahead : ℕ) (side : Side) → is_turn Mine (turn_of side) ≡ false →
        is_after_due today (due_date_of side) ≡ false →
        is_after_due today (expiry_of (request_of side)) ≡ false →
        wants_a_hand (kind_of_work today ahead side) ≡ false }
    ensures exact { (today : Date) (ahead : ℕ) (side : Side) → IsConsistent side →
        is_turn Mine (turn_on (Some today) side)
        ≡ (wants_a_hand (kind_of_work today ahead side)
        || is_work_among (kinds.WithReader ∷ []) (kind_of_work today ahead side)) }
{}

/// Work that wants a hand is more urgent than work that wants none. No two kinds are equally urgent.
pub fn hands_come_first()
    ensures first { (work other : Work) → wants_a_hand work ≡ true → wants_a_hand other ≡ false →
        urgency_of work < urgency_of other }
    ensures apart { (work other : Work) → urgency_of work ≡ urgency_of other → work ≡ other }
{}

/// No work becomes less pressing because days pass: on a later day the work with a side is at least as pressing.
#[tactic(auto, using(crate::proofs::WaitingLemmas::less_pressing_never))]
pub fn waiting_makes_no_work_less_pressing()
    ensures { (today later : Date) (ahead : ℕ) (side : Side) → IsDate today → IsDate later →
        is_before later today ≡ false → urgency_on later ahead side ≤ urgency_on today ahead side }
{}

/// Without a day no date of a loan is past or soon. Each verb of its work is possible on some day. A side has the turn
/// exactly if this work wants a hand, or its item is with a reader. On each day the work is at least as pressing.
#[tactic(auto, using(crate::proofs::UndatedLemmas::is_possible, crate::proofs::UndatedLemmas::agrees, crate::proofs::UndatedLemmas::least_pressing))]
pub fn work_without_a_day()
    ensures possible { (ahead : ℕ) (side : Side) (verb : Verb) →
        is_verb_among (work_verbs (work_on None ahead side)) verb ≡ true →
        is_verb_among (possible_on None side) verb ≡ true }
    ensures agrees { (ahead : ℕ) (side : Side) → is_turn Mine (turn_of side)
        ≡ (wants_a_hand (work_on None ahead side) || is_work_among (kinds.WithReader ∷ []) (work_on None ahead side)) }
    ensures least { (today : Date) (ahead : ℕ) (side : Side) →
        urgency_on today ahead side ≤ urgency_of (work_on None ahead side) }
{}

/// The order of loans by their work keeps each loan. The numbers of loans of all kinds add up to the number of loans.
#[tactic(auto, using(crate::proofs::OrderLemmas::pressing_kept))]
pub fn each_loan_has_one_kind_of_work()
    ensures kept { (today : Date) (ahead : ℕ) (sides : List Side) →
        IsPermutation sides (most_pressing_first today ahead sides) }
    ensures counted { (today : Date) (ahead : ℕ) (sides : List Side) →
        sum_by (λ work. count_of today ahead work sides) all_work ≡ length sides }
{}

/// The kinds of work are right: none is one of the wrong answers of `MisjudgesWork`.
#[tactic(auto, using(crate::proofs::BadWorks::not_misjudged))]
pub fn no_bad_work_passes()
    ensures { (today : Date) (ahead : ℕ) (side : Side) →
        MisjudgesWork today ahead side (kind_of_work today ahead side) → ⊥ }
{}
