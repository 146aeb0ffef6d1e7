//! States the laws of requests, as contracts of functions that do nothing.

ghost use Rattle.std.specs.Prelude.{◌≡◌, ◌≤◌, ℕ, true, length, List, Option, Result, Ok, Err, Some, codes};
ghost use Rattle.std.specs.Io.KnownBytes.{Consumes};
ghost use Rattle.ill_browser.specs.BadAsking.{MisreadsVisit};
ghost use Rattle.ill_browser.specs.declared.fault.VisitFault.{VisitFault};
ghost use Rattle.ill_browser.specs.declared.fault.VisitFault.TheVariants.{Cut};
ghost use Rattle.ill_browser.specs.declared.wanted.Wanted.{Wanted};
ghost use Rattle.ill_browser.specs.Fields.{fields_in, only_named, words_in};
ghost use Rattle.ill_browser.specs.OwnForm.{IsOwnForm};
ghost use Rattle.ill_browser.specs.Visit.{RulesShown, VisitShown, body_size};
ghost use Rattle.ill_browser.specs.Wanted.{Act, Answers, Asked, LoanAsked, Note, is_change, wanted_of};

/// What changes a desk, or is kept beside it, is asked for by a form alone. A page of this program sent it to the
/// program itself, with a name of its sender unless the operator wants none.
pub fn a_change_is_asked_by_an_own_form()
    ensures { (rules : RulesShown) (v : VisitShown) (body : List ℕ) (asked : Asked) →
        wanted_of rules v body ≡ Ok asked → is_change asked ≡ true → IsOwnForm rules v body }
{}

/// An act is asked for only by a form that a page of this program sent (`IsOwnForm`). The words of the act are those of
/// the form's fields, in their order.
pub fn an_act_is_asked_by_an_own_form()
    ensures { (rules : RulesShown) (v : VisitShown) (body : List ℕ) (loan : LoanAsked) (stamp : List ℕ)
        (words : List (List ℕ)) → wanted_of rules v body ≡ Ok (Act loan stamp words) →
        IsOwnForm rules v body × (words ≡ words_in (fields_in body)) }
{}

/// A note is asked for only by a form that a page of this program sent (`IsOwnForm`). Its text is that of the only
/// field `note`.
pub fn a_note_is_asked_by_an_own_form()
    ensures { (rules : RulesShown) (v : VisitShown) (body : List ℕ) (loan : LoanAsked) (note : List ℕ) →
        wanted_of rules v body ≡ Ok (Note loan note) →
        IsOwnForm rules v body × (only_named (codes "note") (fields_in body) ≡ Some note) }
{}

/// At most 4,096 bytes are read of a request, unless its body breaks off.
#[tactic(auto, using(crate::proofs::ReadingLemmas::reads_few))]
pub fn a_request_reads_few_bytes()
    ensures { (rules : RulesShown) (v : VisitShown) (wanted : List ℕ → Result Asked VisitFault) (left rest : Option (List ℕ))
        (result : Result Wanted VisitFault) → Answers (body_size rules v) wanted left rest result → (result ≡ Err Cut → ⊥) →
        (body : List ℕ) × (length body ≤ 4096) × Consumes left rest body }
{}

/// No request is misread: what it asks for is none of the wrong readings.
#[tactic(auto, using(crate::proofs::BadAskings::not_misread))]
pub fn no_request_is_misread()
    ensures { (rules : RulesShown) (v : VisitShown) (body : List ℕ) →
        MisreadsVisit rules v body (wanted_of rules v body) → ⊥ }
{}
