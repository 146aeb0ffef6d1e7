//! The laws of the words of what came, of the notes on loans and of their diary. They are contracts of functions that
//! do nothing.

ghost use Rattle.std.specs.Prelude.{◌≡◌, ◌<◌, ◌^◌, ◌++◌, ◌∷◌, ℕ, true, false, bytes_eq, find, List, [], Option, Some, None, IsUtf8};
ghost use Rattle.ill_values.specs.Day.{Date, IsDate};
ghost use Rattle.ill_values.specs.TxnId.{AreQualifiers, Qualifiers};
ghost use Rattle.ill_values.specs.declared.apdu.Apdu.{Apdu};
ghost use Rattle.ill_values.specs.Body.{Body};
ghost use Rattle.ill_values.specs.Bodies.{is_unsupplied};
ghost use Rattle.ill_core.specs.declared.state.State.TheVariants.{NotSupplied};
ghost use Rattle.ill_core.specs.Requester.{RequesterRecord};
ghost use Rattle.ill_beside.specs.BadNotes.{MisjudgesNote};
ghost use Rattle.ill_record.specs.Ranges.{Each};
ghost use Rattle.ill_beside.specs.Diary.{EndsWith, IsWord, Named, Said, history_of, is_named, is_of_record, part_of, said_by, says_of};
ghost use Rattle.ill_text.specs.Diary.{message_key, name_or_dash, stamp_text};
ghost use Rattle.ill_beside.specs.Since.{day_printed, last_day};
ghost use Rattle.ill_beside.specs.Heard.{requester_heard};
ghost use Rattle.ill_beside.specs.NewsWords.{news_words, says_no};
ghost use Rattle.ill_beside.specs.Notes.{line_of, note_of};

/// The words of a message begin with `no: ` if, and only if, the message ends the request without the item. If they do,
/// and the requester's record shows that the message was taken, the requester is in NOT-SUPPLIED.
#[tactic(auto, using(crate::proofs::NewsWordsLemmas::no_is_unsupplied, crate::proofs::NewsWordsLemmas::no_ends))]
pub fn a_no_ends_the_request()
    ensures words { (due : Option Date) (body : Body) → says_no (news_words due body) ≡ is_unsupplied body }
    ensures state { (x : RequesterRecord) (due : Option Date) (a : Apdu) → says_no (news_words due a.body) ≡ true →
        requester_heard x a.number a.body ≡ true → x.state ≡ NotSupplied }
{}

/// If a line of a loan is appended, its words are the note of the loan. The words are UTF-8 and not empty.
#[tactic(auto, using(crate::proofs::NotesLaws::last_counts))]
pub fn the_last_note_counts()
    ensures { (lines : List (List ℕ)) (txn : Qualifiers) (words : List ℕ) → IsUtf8 words → (words ≡ [] → ⊥) →
        note_of (lines ++ line_of txn words ∷ []) txn ≡ Some words }
{}

/// A line on one loan changes the note of no other loan.
#[tactic(auto, using(crate::proofs::NotesLaws::others_stay))]
pub fn a_note_is_of_its_loan()
    ensures { (lines : List (List ℕ)) (on txn : Qualifiers) (words : List ℕ) → (txn ≡ on → ⊥) →
        note_of (lines ++ line_of on words ∷ []) txn ≡ note_of lines txn }
{}

/// A line without words removes the note of its loan.
#[tactic(auto, using(crate::proofs::NotesLaws::none_left))]
pub fn no_words_remove_a_note()
    ensures { (lines : List (List ℕ)) (txn : Qualifiers) → note_of (lines ++ line_of txn [] ∷ []) txn ≡ None }
{}

/// The note of a loan is right after one more line: it is none of the wrong answers.
#[tactic(auto, using(crate::proofs::NotesLaws::not_misjudged))]
pub fn no_bad_note_passes()
    ensures { (lines : List (List ℕ)) (on txn : Qualifiers) (words : List ℕ) →
        MisjudgesNote lines on txn words (note_of (lines ++ line_of on words ∷ []) txn) → ⊥ }
{}

/// Each part of a history tells of a message of the record. So no line counts whose message the record lacks.
#[tactic(auto, using(crate::proofs::DiaryLaws::all_ours))]
pub fn a_history_is_of_its_record()
    ensures { (messages : List Named) (lines : List (List ℕ)) →
        Each (λ part. is_of_record messages part ≡ true) (history_of messages lines) }
{}

/// Let a line name a message of the record, and let no later line name it. Then the history has the line's day, name
/// and message, before the parts of the later lines.
#[tactic(auto, using(crate::proofs::DiaryLaws::last_tells))]
pub fn the_last_line_tells_the_day()
    ensures { (messages : List Named) (line : List ℕ) (later : List (List ℕ)) (says : Said) (message : Named) →
        said_by line ≡ Some says → is_named says.message later ≡ false →
        find (λ other. bytes_eq other.key says.message) messages ≡ Some message →
        history_of messages (line ∷ later) ≡ part_of says message ∷ history_of messages later }
{}

/// A line adds nothing to the history if a later line names its message.
#[tactic(auto, using(crate::proofs::DiaryLaws::older_tells_nothing))]
pub fn an_older_line_tells_nothing()
    ensures { (messages : List Named) (line : List ℕ) (later : List (List ℕ)) (says : Said) → said_by line ≡ Some says →
        is_named says.message later ≡ true → history_of messages (line ∷ later) ≡ history_of messages later }
{}

/// A line that was entered says its day, the text for the name, and its message. That text is the name with escapes, or
/// a dash.
#[tactic(auto, using(crate::proofs::ReadLemmas::written_says))]
pub fn a_line_is_read_back()
    ensures { (day : Date) (by : Option (List ℕ)) (txn : Qualifiers) (what : List ℕ) (number : ℕ) → IsDate day →
        IsWord (name_or_dash by) → AreQualifiers txn → IsUtf8 what → number < 2 ^ 64 →
        said_by (stamp_text day by ++ message_key txn what number)
        ≡ Some (says_of day (name_or_dash by) (message_key txn what number)) }
{}

/// The line that was entered last ends the history of a loan that has its message: it tells the day, the name and the
/// message.
#[tactic(auto, using(crate::proofs::ReadLemmas::written_ends))]
pub fn the_last_line_ends_the_history()
    ensures { (messages : List Named) (before : List (List ℕ)) (day : Date) (by : Option (List ℕ)) (txn : Qualifiers)
        (what : List ℕ) (number : ℕ) (message : Named) → IsDate day → IsWord (name_or_dash by) → AreQualifiers txn →
        IsUtf8 what → number < 2 ^ 64 →
        find (λ other. bytes_eq other.key (message_key txn what number)) messages ≡ Some message →
        EndsWith (history_of messages (before ++ (stamp_text day by ++ message_key txn what number) ∷ []))
        (part_of (says_of day (name_or_dash by) (message_key txn what number)) message) }
{}

/// A loan stands as it does since the day of the last line that names a message of its record.
#[tactic(auto, using(crate::proofs::SinceLaws::last_counts))]
pub fn the_last_line_tells_since_when()
    ensures { (messages : List Named) (lines : List (List ℕ)) (line : List ℕ) (day : Date) →
        day_printed messages line ≡ Some day → last_day messages (lines ++ line ∷ []) ≡ Some day }
{}

/// A line that names no message of the record changes no day.
#[tactic(auto, using(crate::proofs::SinceLaws::others_stay))]
pub fn another_line_tells_no_day()
    ensures { (messages : List Named) (lines : List (List ℕ)) (line : List ℕ) → day_printed messages line ≡ None →
        last_day messages (lines ++ line ∷ []) ≡ last_day messages lines }
{}

/// A line that was entered tells the day of its message, if the record has the message.
#[tactic(auto, using(crate::proofs::SinceLaws::written_tells))]
pub fn an_entered_line_tells_its_day()
    ensures { (messages : List Named) (line : List ℕ) (says : Said) (message : Named) → said_by line ≡ Some says →
        find (λ other. bytes_eq other.key says.message) messages ≡ Some message →
        day_printed messages line ≡ Some says.day }
{}
