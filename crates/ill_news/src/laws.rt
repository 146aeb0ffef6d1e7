//! States the laws of the news of a desk, as contracts of functions that do nothing.

ghost use Rattle.std.specs.Prelude.{◌≡◌, ◌++◌, ◌∷◌, ◌&&◌, ℕ, true, false, bytes_eq, filter, List, Option, Some};
ghost use Rattle.std.specs.List.{list_any};
ghost use Rattle.ill_values.specs.Day.{Date};
ghost use Rattle.ill_values.specs.declared.apdu.Apdu.{Apdu};
ghost use Rattle.ill_record.specs.declared.side.Side.{Side};
ghost use Rattle.ill_news.specs.CameSince.{came_before, came_key, came_since, is_named_before, is_named_since, is_new};
ghost use Rattle.ill_record.specs.Ranges.{Each};
ghost use Rattle.ill_beside.specs.Diary.{is_named};
ghost use Rattle.ill_core.specs.Responder.{ResponderRecord};
ghost use Rattle.ill_news.specs.Deeds.{deeds_since, is_by_date, is_deed_since};
ghost use Rattle.ill_record.specs.declared.side.Side.TheVariants.{Responder};
ghost use Rattle.ill_beside.specs.Heard.{is_heard};
ghost use Rattle.ill_news.specs.News.{heard_at, is_same, is_printed, news_of};
ghost use Rattle.ill_beside.specs.Notes.{note_of};
ghost use Rattle.ill_news.specs.OpenAnswers.{is_open, says_done};
ghost use Rattle.ill_news.specs.PrintedNews.{recent_of, printed_since};

/// A message that came is printed if the record of its loan shows that it was taken.
#[tactic(auto, using(crate::proofs::NewsLemmas::taken_is_printed))]
pub fn what_was_taken_is_news()
    ensures { (sides : List Side) (before after : List Apdu) (a : Apdu) →
        heard_at sides a ≡ true → is_printed (news_of sides (before ++ a ∷ after)) a ≡ true }
{}

/// Nothing else is printed: what is printed came, and the record of its loan shows that it was taken.
#[tactic(auto, using(crate::proofs::NewsLemmas::printed_was_taken))]
pub fn nothing_else_is_news()
    ensures { (sides : List Side) (came : List Apdu) (a : Apdu) → is_printed (news_of sides came) a ≡ true →
        list_any (λ b. is_same b a && heard_at sides b) came ≡ true }
{}

/// What came since a day is printed, but for repeats: all after the last message that came before, or all if none did.
/// A message that no line of the diary names did not come before. Nor did one that a line of the day or later names.
#[tactic(auto, using(crate::proofs::CameSinceLemmas::all_printed, crate::proofs::CameSinceLemmas::later_printed, crate::proofs::CameSinceLemmas::unnamed_printed, crate::proofs::CameSinceLemmas::named_printed))]
pub fn what_came_since_is_printed()
    ensures all { (day : Date) (lines : List (List ℕ)) (came : List Apdu) →
        list_any (came_before day lines) came ≡ false →
        came_since (Some day) lines came ≡ filter (is_new day lines) came }
    ensures later { (day : Date) (lines : List (List ℕ)) (came later : List Apdu) (a : Apdu) →
        came_before day lines a ≡ true → list_any (came_before day lines) later ≡ false →
        came_since (Some day) lines (came ++ a ∷ later) ≡ filter (is_new day lines) later }
    ensures unnamed { (day : Date) (lines : List (List ℕ)) (a : Apdu) → is_named (came_key a) lines ≡ false →
        came_before day lines a ≡ false }
    ensures named { (day : Date) (lines : List (List ℕ)) (a : Apdu) → is_named_since day (came_key a) lines ≡ true →
        came_before day lines a ≡ false }
{}

/// No repeat is printed: a message that a line of an earlier day names is not among what came since the day.
#[tactic(auto, using(crate::proofs::CameSinceLemmas::no_repeat))]
pub fn no_repeat_is_news()
    ensures { (day : Date) (lines : List (List ℕ)) (came : List Apdu) (a : Apdu) →
        is_named_before day (came_key a) lines ≡ true →
        list_any (λ b. bytes_eq (came_key b) (came_key a)) (came_since (Some day) lines came) ≡ false }
{}

/// No repeat hides news: a message that no line names is printed, whatever came again after it on the day or later.
#[tactic(auto, using(crate::proofs::CameSinceLemmas::not_hidden))]
pub fn no_repeat_hides_news()
    ensures { (day : Date) (lines : List (List ℕ)) (came repeats : List Apdu) (a : Apdu) →
        is_named (came_key a) lines ≡ false → Each (λ b. is_named_since day (came_key b) lines ≡ true) repeats →
        (before after : List Apdu) × (came_since (Some day) lines (came ++ a ∷ repeats) ≡ before ++ a ∷ after) }
{}

/// An open answer is printed on each day, if the record of its loan shows that it was taken. It asks staff for
/// something, and the note of the loan does not begin with `done`.
#[tactic(auto, using(crate::proofs::OpenLemmas::open_printed))]
pub fn an_open_answer_stays_news()
    ensures { (since : Option Date) (notes lines : List (List ℕ)) (sides : List Side) (before after : List Apdu) (a : Apdu) →
        heard_at sides a ≡ true → is_open notes a ≡ true →
        is_printed (printed_since since notes lines sides (before ++ a ∷ after)) a ≡ true }
{}

/// No other message stays news. Let the note of a loan begin with `done`. Then its messages are printed only if they
/// came since the day, or a date made them due. If no message is open, this holds of all messages.
#[tactic(auto, using(crate::proofs::OpenLemmas::done_printed, crate::proofs::OpenLemmas::none_printed))]
pub fn nothing_else_stays_news()
    ensures done { (since : Option Date) (notes lines : List (List ℕ)) (sides : List Side) (came : List Apdu) (a : Apdu) →
        says_done (note_of notes a.txn) ≡ true → is_printed (printed_since since notes lines sides came) a
        ≡ is_printed (recent_of since lines sides came ++ deeds_since since lines sides) a }
    ensures none { (since : Option Date) (notes lines : List (List ℕ)) (sides : List Side) (came : List Apdu) →
        list_any (is_open notes) came ≡ false →
        printed_since since notes lines sides came ≡ recent_of since lines sides came ++ deeds_since since lines sides }
{}

/// What a date made due is printed: a message of a responder that the diary names on the day or later, and not before.
pub fn what_a_date_made_due_is_news()
    ensures { (day : Date) (lines : List (List ℕ)) (before after : List Side) (y : ResponderRecord) (first last : List Apdu)
        (a : Apdu) → y.issued ≡ first ++ a ∷ last → is_deed_since day lines a ≡ true →
        (more less : List Apdu) × (deeds_since (Some day) lines (before ++ Responder y ∷ after) ≡ more ++ a ∷ less) }
{}

/// Nothing else is printed as made due by a date. It is an Overdue or an Expired that the diary names on the day or
/// later, and not before. No message that came to a responder is one of these, so the words tell both apart.
#[tactic(auto, using(crate::proofs::DeedLemmas::heard_apart))]
pub fn nothing_else_was_made_due()
    ensures deeds { (day : Date) (lines : List (List ℕ)) (sides : List Side) →
        Each (λ a. is_deed_since day lines a ≡ true) (deeds_since (Some day) lines sides) }
    ensures came { (y : ResponderRecord) (a : Apdu) → is_heard (Responder y) a ≡ true → is_by_date a.body ≡ false }
{}
