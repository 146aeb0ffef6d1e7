//! States the laws of requests and their replies, as contracts of functions that do nothing.

ghost use Rattle.std.specs.Prelude.{◌≡◌, ◌⊎◌, ◌≤◌, ℕ, false, true, List, [], Option, Some, None, Result, Ok, Err, length};
ghost use Rattle.std.specs.Io.KnownBytes.{Consumes};
ghost use Rattle.ill_browser.specs.declared.fault.VisitFault.{VisitFault};
ghost use Rattle.ill_browser.specs.OwnForm.{IsOwnForm};
ghost use Rattle.ill_text.specs.Diary.{Stamped};
ghost use Rattle.ill_browser.specs.Visit.{VisitShown, body_size, is_look, is_root};
ghost use Rattle.ill_web.specs.declared.operator.Operator.{Operator};
ghost use Rattle.ill_web.specs.declared.trouble.Trouble.TheVariants.{Refused};
ghost use Rattle.ill_web.specs.Acts.{IsTurnOf, SentForm, Turn};
ghost use Rattle.ill_web.specs.BadTurns.{MisentersTurn};
ghost use Rattle.ill_web.specs.Replies.{IsReply, Replies, TakesTurn, rules_of};

/// A request that looks at a page has no turn at a desk.
pub fn a_look_has_no_turn()
    ensures { (operator : Operator) (v : VisitShown) (left rest : Option (List ℕ)) (turn : Option Turn) (reply : List ℕ) →
        is_look v ≡ true → Replies operator v left rest turn reply → turn ≡ None }
{
    ill_browser::laws::no_request_is_misread();
}

/// A turn at a desk is that of a form of a page of this program, with a name of its sender unless the operator wants
/// none. The form is what was read of the input.
pub fn an_own_form_alone_has_a_turn()
    ensures { (operator : Operator) (v : VisitShown) (left rest : Option (List ℕ)) (turn : Turn) (reply : List ℕ) →
        Replies operator v left rest (Some turn) reply →
        (body : List ℕ) × IsOwnForm (rules_of operator) v body × Consumes left rest body }
{
    ill_browser::laws::a_change_is_asked_by_an_own_form();
}

/// A turn is at the desk that its form names, and the form is answered there as `AnswersPost` says: its action is
/// performed once, on the loan that its page showed, or nothing changes. What is entered in the diary beside that desk
/// is the line of the form, with the day of the operator and the name of the user.
pub fn a_turn_is_that_of_its_form()
    ensures { (operator : Operator) (v : VisitShown) (left rest : Option (List ℕ)) (turn : Turn) (reply : List ℕ) →
        Replies operator v left rest (Some turn) reply → TakesTurn operator v left rest turn }
{}

/// No turn has a wrong entry. A form that is not done enters nothing. One that is done enters its line, unless the
/// diary fails: with its day, its user and its action, in the diary beside its desk.
pub fn no_turn_is_misentered()
    ensures { (stamp : Stamped) (sent : SentForm) (turn : Turn) → IsTurnOf stamp sent turn → MisentersTurn stamp sent turn → ⊥ }
{}

/// A request that is refused has no turn. Nothing is read, and the reply says why.
pub fn a_refused_request_gets_its_reason()
    ensures { (operator : Operator) (v : VisitShown) (left rest : Option (List ℕ)) (turn : Option Turn) (reply : List ℕ)
        (refusal : VisitFault) → body_size (rules_of operator) v ≡ Err refusal → Replies operator v left rest turn reply →
        (turn ≡ None) × (rest ≡ left) × IsReply operator.today (Err (Refused refusal)) reply }
{}
