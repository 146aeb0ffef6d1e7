//! States the laws of a morning's list, and of lists without days, as contracts of functions that do nothing.

ghost use Rattle.std.specs.Prelude.{◌≡◌, ℕ, Bool, true, false, find, List, Option, None};
ghost use Rattle.ill_values.specs.declared.apdu.Apdu.{Apdu};
ghost use Rattle.ill_record.specs.declared.side.Side.{Side};
ghost use Rattle.ill_beside.specs.Since.{AnnexRead, notes_alone};
ghost use Rattle.ill_list.specs.List.{is_listed, is_mine, is_to_do, is_wanted};
ghost use Rattle.ill_list.specs.ListedNews.{has_news};
ghost use Rattle.ill_list.specs.Listing.{listed_desk};
ghost use Rattle.ill_list.specs.declared.wanted.Which.TheVariants.{Mine};
ghost use Rattle.ill_list.specs.declared.wanted.Wanted.{Wanted};
ghost use Rattle.ill_text.specs.declared.form.Form.TheVariants as forms;
ghost use Rattle.ill_show.specs.declared.loan.LoanForm.TheVariants.{Lines};

/// The list of what wants a hand has each loan with work or news that meets the conditions, and no other.
#[tactic(auto, using(crate::proofs::MorningLaws::lists_news, crate::proofs::MorningLaws::lists_work, crate::proofs::MorningLaws::lists_no_other))]
pub fn a_morning_lists_work_and_news()
    ensures news { (wanted : Wanted) (news : Option (List Apdu)) (side : Side) → wanted.which ≡ Mine →
        has_news news side ≡ true → is_listed wanted news side ≡ is_wanted wanted side }
    ensures work { (wanted : Wanted) (news : Option (List Apdu)) (side : Side) → wanted.which ≡ Mine →
        is_to_do wanted side ≡ true → is_listed wanted news side ≡ is_wanted wanted side }
    ensures no_other { (wanted : Wanted) (news : Option (List Apdu)) (side : Side) → wanted.which ≡ Mine →
        is_to_do wanted side ≡ false → has_news news side ≡ false → is_listed wanted news side ≡ false }
{}

/// No other list depends on the news: it lists the loans that it lists without news.
#[tactic(auto, using(crate::proofs::MorningLaws::others_stay))]
pub fn no_other_list_minds_news()
    ensures { (wanted : Wanted) (news : Option (List Apdu)) (side : Side) → is_mine wanted.which ≡ false →
        is_listed wanted news side ≡ is_listed wanted None side }
{}

/// Lines of a list without days do not depend on the diary, nor on the messages that came, but for the news that are
/// printed.
#[tactic(auto, using(crate::proofs::ListLaws::no_list_depends))]
pub fn no_list_without_days_depends_on_a_diary()
    ensures { (is_headed : Bool) (wanted : Wanted) (find : Option (List ℕ)) (annex : AnnexRead) (path : List ℕ)
        (sides : List Side) → wanted.has_since ≡ false →
        listed_desk forms.Lines is_headed wanted (record { find = find; annex = annex }) path sides
        ≡ listed_desk forms.Lines is_headed wanted (record { find = find; annex = notes_alone annex }) path sides }
{}
