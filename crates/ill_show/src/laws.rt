//! States the law of a loan that is shown with its diary, as the contract of a function that does nothing.

ghost use Rattle.std.specs.Prelude.{◌≡◌, ◌++◌, ℕ, List, [], Option};
ghost use Rattle.ill_values.specs.declared.apdu.Apdu.{Apdu};
ghost use Rattle.ill_saved.specs.Holdings.{DeskEntry};
ghost use Rattle.ill_beside.specs.Diary.{history_lines, history_of, messages_of};
ghost use Rattle.ill_show.specs.Loan.{loan_text};
ghost use Rattle.ill_show.specs.declared.loan.LoanForm.TheVariants.{Lines};

/// A diary decides the history alone: the lines of a loan before its history are the lines without a diary.
#[tactic(auto, using(crate::proofs::HistoryLaws::nothing_else))]
pub fn a_diary_decides_nothing_else()
    ensures { (words : Option (List ℕ)) (diary : List (List ℕ)) (held : DeskEntry) (kept : List Apdu) →
        loan_text Lines words diary held kept
        ≡ loan_text Lines words [] held kept ++ history_lines (history_of (messages_of held.side kept) diary) }
{}
