//! The laws of `--json`: each line that a command writes is an object of JSON. Its definition lists the members.

ghost use Rattle.std.specs.Prelude.{◌≡◌, ◌<◌, ◌^◌, ◌++◌, ℕ, Bool, List, codes, map, IsUtf8, Option, Some, None, option_map, decimal, IfSome};
ghost use Rattle.std.specs.List.{flat_map};
ghost use Rattle.json.specs.Find.{get};
ghost use Rattle.json.specs.Json.{Json, null, boolean, number, string, array, document};
ghost use Rattle.ill_values.specs.Day.{Date, iso_text};
ghost use Rattle.ill_values.specs.declared.apdu.Apdu.{Apdu};
ghost use Rattle.ill_values.specs.Apdu.{IsApdu};
ghost use Rattle.ill_record.specs.declared.side.Side.{Side};
ghost use Rattle.ill_saved.specs.Holdings.{DeskEntry, whole};
ghost use Rattle.ill_record.specs.Ranges.{Each, IsSide};
ghost use Rattle.ill_record.specs.RecordsV2.{AreSides};
ghost use Rattle.ill_record.specs.Faults.{place_of};
ghost use Rattle.ill_record.specs.declared.fault.RecordFault.{RecordFault};
ghost use Rattle.ill_record.specs.Sides.{SidesOf};
ghost use Rattle.ill_text.specs.declared.form.Form.TheVariants as forms;
ghost use Rattle.ill_text.specs.ApduObject.{apdu_text, line_fields, object_line};
ghost use Rattle.ill_text.specs.Json as texts;
ghost use Rattle.ill_text.specs.Json.{Field, flag, quoted};
ghost use Rattle.ill_show.specs.declared.loan.LoanForm.TheVariants.{Object};
ghost use Rattle.ill_list.specs.declared.wanted.Wanted.{Wanted};
ghost use Rattle.ill_rows.specs.Heading.{between, file_printed};
ghost use Rattle.ill_list.specs.Listing.{listed_desk};
ghost use Rattle.ill_list.specs.Seeking.{Seeking};
ghost use Rattle.ill_beside.specs.Diary.{history_of, messages_of, part_fields, part_object};
ghost use Rattle.ill_show.specs.Loan.{loan_text};
ghost use Rattle.ill_beside.specs.Notes.{note_of};
ghost use Rattle.ill_record.specs.Side.{txn_of};
ghost use Rattle.ill_news.specs.News.{last_of, news_desk};
ghost use Rattle.ill_news.specs.PrintedNews.{printed_since};
ghost use Rattle.ill_show.specs.Objects.{message_object, status_of_desk};
ghost use Rattle.ill_show.specs.Verify.{fault_fields, record_fields, record_text};
ghost use Rattle.ill_values.specs.TxnId.{AreQualifiers, Qualifiers};
ghost use Rattle.ill_core.specs.declared.responder.Deed.{Deed};
ghost use Rattle.ill_saved.specs.declared.shown.Shown.{Shown};
ghost use Rattle.ill_words.specs.declared.outcome.DeskOutcome.{DeskOutcome};
ghost use Rattle.ill_night.specs.Lines.{delay_text, unfit_text};
ghost use Rattle.ill_inbox.specs.Objects.{deed_fields, message_fields, sent_fields, stays_fields, tally_fields, printed_message, printed_sent, printed_tally, printed_verdict};
ghost use Rattle.ill_inbox.specs.declared.tally.Tally.{Tally};
ghost use Rattle.ill_night.specs.declared.verdict.Delay.{Delay};
ghost use Rattle.ill_night.specs.declared.verdict.Unfit.{Unfit};
ghost use Rattle.ill_night.specs.declared.verdict.Verdict.TheVariants.{Quarantined, Deferred};
ghost use Rattle.ill_json.specs.BadLines.{AreBadLines, IsBadLine, broken_texts};
ghost use Rattle.ill_json.specs.Lines.{AreFew, ArePrintedNews, HasNearPlace, IsEntry, IsStanding, fields_of_list, fields_of_loan, fields_of_message, fields_of_news, fields_of_status};
ghost use Rattle.ill_json.specs.Objects.{AreObjectLines, IsObject, IsObjectLine, items_of, strings};

/// Each line of `list` is an object of JSON with the fields of a loan. The last line of a desk has the counts. The path
/// of the desk is UTF-8, and news that are printed are messages.
pub fn list_is_json()
    ensures { (is_first is_headed : Bool) (wanted : Wanted) (seeking : Seeking) (path : List ℕ) (held : SidesOf) →
        IsUtf8 path → AreSides held → ArePrintedNews seeking.annex →
        AreObjectLines (between forms.Json is_first ++ listed_desk forms.Json is_headed wanted seeking path held.sides)
        (fields_of_list (file_printed is_headed path) wanted seeking held.sides) }
{}

/// Each line of `news` is an object of JSON with the fields of a message that is printed. The path of the desk is
/// UTF-8.
pub fn news_is_json()
    ensures { (is_first is_headed : Bool) (last : Option ℕ) (path : List ℕ) (held : SidesOf) (news : List Apdu) →
        IsUtf8 path → AreSides held → Each IsApdu news →
        AreObjectLines (between forms.Json is_first ++ news_desk forms.Json is_headed last path held.sides news)
        (map (fields_of_news (file_printed is_headed path) held.sides) (last_of last news)) }
{}

/// The news printed of a desk are messages in range, if the messages that came to it are. So the news have lines of
/// JSON.
pub fn news_are_messages()
    ensures { (since : Option Date) (notes lines : List (List ℕ)) (held : SidesOf) (came : List Apdu) →
        AreSides held → Each IsApdu came → Each IsApdu (printed_since since notes lines held.sides came) }
{}

/// Each line of `status` is an object of JSON with the fields of a side.
#[tactic(auto, using(crate::proofs::LineLemmas::status_are))]
pub fn status_is_json()
    ensures { (entries : List DeskEntry) → Each IsEntry entries →
        AreObjectLines (status_of_desk forms.Json entries) (map fields_of_status entries) }
{}

/// The line of `loan` is an object of JSON with the fields of a side. It has the messages that came, the note and the
/// history by a diary, too.
pub fn loan_is_json()
    ensures { (notes diary : List (List ℕ)) (entry : DeskEntry) (came : List Apdu) → IsEntry entry → Each IsApdu came →
        IsObjectLine (loan_text Object (note_of notes (txn_of entry.side)) diary entry came)
        (fields_of_loan (note_of notes (txn_of entry.side)) diary entry came) }
{}

/// A part of the history within the line of `loan` is an object with its day, the name of a person, its message and the
/// number of this message.
pub fn histories_are_json()
    ensures { (side : Side) (kept : List Apdu) (diary : List (List ℕ)) → IsSide side → Each IsApdu kept →
        Each (λ part. IsObject (part_object part) (part_fields part)) (history_of (messages_of side kept) diary) }
{}

/// The line of `verify` is an object of JSON with the fields of a record, or of its fault. The place of a fault has 32
/// bits.
#[tactic(auto, using(crate::proofs::RecordLines::fault_is))]
pub fn verify_is_json()
    ensures record { (bytes : List ℕ) (held : SidesOf) → AreSides held →
        IsObjectLine (record_text forms.Json bytes held) (record_fields bytes held) }
    ensures fault { (fault : RecordFault) → IfSome (place_of fault) (λ at. at < 2 ^ 32) →
        IsObjectLine (object_line (fault_fields fault)) (fault_fields fault) }
{}

/// Each line that a night writes in objects is an object of JSON: a message with its outcome, a message file that
/// stays, the counts, a deed, and the number of messages that are sent. The name of a message file is UTF-8.
#[tactic(auto, using(crate::proofs::NightLines::message_is, crate::proofs::NightLines::quarantined_is, crate::proofs::NightLines::left_is, crate::proofs::NightLines::tally_is, crate::proofs::NightLines::deed_is, crate::proofs::NightLines::sent_is))]
pub fn a_night_is_json()
    ensures message { (a : Apdu) (outcome : DeskOutcome) (now : Shown) → IsApdu a → IsStanding now →
        IsObjectLine (printed_message forms.Json a outcome now) (message_fields a outcome now) }
    ensures quarantined { (name : List ℕ) (unfit : Unfit) → IsUtf8 name → HasNearPlace unfit →
        IsObjectLine (printed_verdict forms.Json name (Quarantined unfit)) (stays_fields name (codes "aside") (unfit_text unfit)) }
    ensures left { (name : List ℕ) (delay : Delay) → IsUtf8 name →
        IsObjectLine (printed_verdict forms.Json name (Deferred delay)) (stays_fields name (codes "left") (delay_text delay)) }
    ensures counts { (tally : Tally) (waiting : ℕ) → AreFew tally waiting →
        IsObjectLine (printed_tally forms.Json tally waiting) (tally_fields tally waiting) }
    ensures deed { (txn : Qualifiers) (deed : Deed) (now : Shown) → AreQualifiers txn → IsStanding now →
        IsObjectLine (object_line (deed_fields (record { txn = txn; deed = deed }) now))
        (deed_fields (record { txn = txn; deed = deed }) now) }
    ensures sent { (count : ℕ) → count < 2 ^ 64 → IsObjectLine (printed_sent forms.Json count) (sent_fields count) }
{}

/// Each line of `show` is an object of JSON with the fields of an APDU.
#[tactic(auto, using(crate::proofs::LineLemmas::apdus_are))]
pub fn show_is_json()
    ensures { (apdus : List Apdu) → Each IsApdu apdus →
        AreObjectLines (flat_map (apdu_text forms.Json) apdus) (map line_fields apdus) }
{}

/// The text of a value is read as this value. It may be a text of UTF-8, a day, a number of 64 bits, a Bool, none, or a
/// list of texts.
#[tactic(auto, using(crate::proofs::LineLemmas::text_is, crate::proofs::LineLemmas::day_is, crate::proofs::LineLemmas::number_is, crate::proofs::LineLemmas::flag_is, crate::proofs::LineLemmas::null_is, crate::proofs::LineLemmas::words_are,))]
pub fn values_are_json()
    ensures text { (text : List ℕ) → IsUtf8 text → document (quoted text) ≡ Some (string text) }
    ensures day { (d : Date) → document (texts.day d) ≡ Some (string (iso_text d)) }
    ensures count { (n : ℕ) → n < 2 ^ 64 → document (decimal n) ≡ Some (number (decimal n)) }
    ensures holds { (holds : Bool) → document (flag holds) ≡ Some (boolean holds) }
    ensures none { document texts.null ≡ Some null }
    ensures words { (words : List (List ℕ)) → Each IsUtf8 words →
        document (texts.array quoted words) ≡ Some (array (strings words)) }
{}

/// A message within the line of `loan` is an object with the fields of the message. An array of messages is read as an
/// array of these objects.
#[tactic(auto, using(crate::proofs::LineLemmas::message_is, crate::proofs::LineLemmas::messages_are))]
pub fn messages_are_json()
    ensures each { (released : Option ℕ) (a : Apdu) → IsApdu a →
        IsObject (message_object released a) (fields_of_message released a) }
    ensures all { (released : Option ℕ) (apdus : List Apdu) → Each IsApdu apdus →
        document (texts.array (message_object released) apdus)
        ≡ option_map array (items_of (map (message_object released) apdus)) }
{}

/// A reader that looks for a label of an object finds what the text of this field is read as.
pub fn fields_are_found()
    ensures { (text : List ℕ) (fields : List Field) (value : Json) → IsObject text fields → document text ≡ Some value →
        Each (λ field. get field.0 value ≡ document field.1) fields }
{}

/// Each side that a desk may hold is an entry, if all of its messages are released.
#[tactic(auto, using(crate::proofs::LineLemmas::entry_is))]
pub fn sides_are_entries()
    ensures { (side : Side) → IsSide side → IsEntry (whole side) }
{}

/// No bad line is an object line. A bad line lacks its line feed, or has one within. It is no UTF-8, no JSON or another
/// value. Or it has a key twice, or the text of a field is no JSON. A text with other bytes or a bad line is not the
/// lines of these fields.
pub fn no_bad_line_is_json()
    ensures line { (line : List ℕ) (fields : List Field) → IsBadLine line fields → IsObjectLine line fields → ⊥ }
    ensures lines { (text : List ℕ) (lines : List (List Field)) →
        AreBadLines text lines → AreObjectLines text lines → ⊥ }
{}

/// The reader of JSON refuses each text of `broken_texts`, which break its rules.
#[tactic(auto, using(crate::proofs::BadLines::broken_are_none))]
pub fn broken_texts_are_no_json()
    ensures { Each (λ text. document text ≡ None) broken_texts }
{}
