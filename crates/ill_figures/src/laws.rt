//! States the laws of figures, as contracts of functions that do nothing.

ghost use Rattle.std.specs.Prelude.{◌≡◌, ◌+◌, ◌*◌, ◌<◌, ◌≤◌, ◌++◌, ◌∷◌, ℕ, false, bytes_eq, length, List, [], Some, None};
ghost use Rattle.std.specs.List.{list_any, sum_by};
ghost use Rattle.ill_values.specs.Day.{Date, IsDate, next_day};
ghost use Rattle.ill_values.specs.declared.apdu.Apdu.{Apdu};
ghost use Rattle.ill_record.specs.declared.side.Side.{Side};
ghost use Rattle.ill_beside.specs.Diary.{messages_of};
ghost use Rattle.ill_figures.specs.Bad.{CountsBadly};
ghost use Rattle.ill_figures.specs.Days.{days_between};
ghost use Rattle.ill_figures.specs.Figures.{counted, mean, outcomes, reasons, tenths};
ghost use Rattle.ill_figures.specs.LoanFigures.{Mentioned, dated_of, day_said};
ghost use Rattle.ill_figures.specs.Texts.{quoted, unquoted};
ghost use Rattle.ill_figures.specs.declared.count.Count.{Count};
ghost use Rattle.ill_figures.specs.declared.count.Count.TheVariants as counts;
ghost use Rattle.ill_figures.specs.declared.loan_figures.Loan.{Loan};
ghost use Rattle.ill_figures.specs.declared.means.Wait.{Wait};

/// Each loan that was asked is counted once. It is filled, open, cancelled or refused, and no two of these. Each loan
/// that was refused has one reason.
pub fn each_loan_is_counted_once()
    ensures all { (asked : List Loan) → counted asked counts.Asked ≡ length asked }
    ensures outcome { (asked : List Loan) → sum_by (counted asked) outcomes ≡ counted asked counts.Asked }
    ensures reason { (asked : List Loan) → sum_by (counted asked) reasons ≡ counted asked counts.Refused }
{}

/// After one more loan the counts are right: they are none of the wrong ones that `CountsBadly` lists.
#[tactic(auto, using(crate::proofs::CountLaws::not_bad))]
pub fn no_bad_count_passes()
    ensures { (asked : List Loan) (loan : Loan) → CountsBadly asked loan (counted (loan ∷ asked)) → ⊥ }
{}

/// Without a loan in the span all counts are zero, and there is no mean.
#[tactic(auto, using(crate::proofs::CountLaws::no_count, crate::proofs::CountLaws::no_mean))]
pub fn without_loans_all_is_zero()
    ensures count { (count : Count) → counted [] count ≡ 0 }
    ensures mean { (wait : Wait) → mean [] wait ≡ None }
{}

/// A line of the diary counts only for the message that it names. If the record of a loan lacks that message, nothing
/// changes in the days of the loan.
#[tactic(auto, using(crate::proofs::DiaryLaws::no_message_no_day))]
pub fn a_line_counts_only_with_its_message()
    ensures { (said : List Mentioned) (line : Mentioned) (side : Side) (kept : List Apdu) →
        list_any (λ message. bytes_eq line.key message.key) (messages_of side kept) ≡ false →
        dated_of (said ++ line ∷ []) side kept ≡ dated_of said side kept }
{}

/// Of several lines that name one message, the last tells its day.
#[tactic(auto, using(crate::proofs::DiaryLaws::last_tells))]
pub fn the_last_line_tells_the_day()
    ensures { (said : List Mentioned) (line : Mentioned) → day_said line.key (said ++ line ∷ []) ≡ Some line.day }
{}

/// A day is no days from itself, and one day from the day before it. From the first of three days to the last are as
/// many days as to the second and from the second on.
#[tactic(auto, using(crate::proofs::DaysLaws::same_day, crate::proofs::DaysLaws::one_day, crate::proofs::DaysLaws::in_turn))]
pub fn days_are_counted_by_the_calendar()
    ensures same { (day : Date) → days_between day day ≡ Some 0 }
    ensures next { (day : Date) → IsDate day → days_between day (next_day day) ≡ Some 1 }
    ensures in_turn { (first second last : Date) (m n : ℕ) → days_between first second ≡ Some m →
        days_between second last ≡ Some n → days_between first last ≡ Some (m + n) }
{}

/// A mean is right to half a tenth of a day.
#[tactic(auto, using(crate::proofs::CountLaws::mean_is_near))]
pub fn a_mean_is_right_to_half_a_tenth()
    ensures { (days of mean : ℕ) → tenths days of ≡ Some mean →
        (2 * (of * mean) ≤ 20 * days + of) × (20 * days < 2 * (of * mean) + of) }
{}

/// The path in a record of CSV is read back.
#[tactic(auto, using(crate::proofs::TextLaws::read_back))]
pub fn a_path_is_read_back()
    ensures { (path : List ℕ) → unquoted (quoted path) ≡ Some path }
{}
