//! Laws of the commands on the desk of a place: contracts of functions that do nothing.

ghost use Rattle.std.specs.Prelude.{ℕ, Bool, List, Option, Ok};
ghost use Rattle.ill_values.specs.TxnId.{Qualifiers};
ghost use Rattle.ill_desk.specs.ActAs.{Asking};
ghost use Rattle.ill_desk.specs.declared.take.TakeForm.{TakeForm};
ghost use Rattle.ill_place.specs.BadPlaces.{AreElsewhere};
ghost use Rattle.ill_place.specs.Place.{place_of};
ghost use Rattle.ill_text.specs.declared.form.Form.{Form};
ghost use Rattle.ill_commands.specs.AtFile.{ActsAtFile, MessageOf, SendsAtFile, ShowsFile, SlipAtFile, TakesAtFile};
ghost use Rattle.ill_commands.specs.Note.{NotesAtFile};
ghost use Rattle.ill_commands.specs.Streams.{Streams};

use ill_place::place::no_other_desk_starts_at_a_place;
use ill_saved::Store;

/// If no desk was loaded from a place, no command at the place ends well: each desk has another path, or other sides
/// than its record.
pub fn no_command_succeeds_at_another_desk<S: Store>()
    ensures acts { (path : List ℕ) (asked : Asking) (is_long is_success : Bool) (before after : Option (List ℕ)) →
        AreElsewhere (place_of S.state path) →
        ActsAtFile (place_of S.state path) asked is_long before after (Ok is_success) → ⊥ }
    ensures takes { (path : List ℕ) (form : TakeForm) (is_success : Bool) (old new : Streams) →
        AreElsewhere (place_of S.state path) → TakesAtFile (place_of S.state path) form old (Ok is_success) new → ⊥ }
    ensures sends { (path : List ℕ) (message : MessageOf) (is_success : Bool) (before after : Option (List ℕ)) →
        AreElsewhere (place_of S.state path) →
        SendsAtFile (place_of S.state path) message before after (Ok is_success) → ⊥ }
    ensures shows { (path : List ℕ) (form : Form) (is_success : Bool) (before after : Option (List ℕ)) →
        AreElsewhere (place_of S.state path) → ShowsFile (place_of S.state path) form before after (Ok is_success) → ⊥ }
    ensures slips { (path : List ℕ) (txn : Qualifiers) (is_success : Bool) (before after : Option (List ℕ)) →
        AreElsewhere (place_of S.state path) → SlipAtFile (place_of S.state path) txn before after (Ok is_success) → ⊥ }
    ensures notes { (path : List ℕ) (txn : Qualifiers) (words : List ℕ) (is_success : Bool) (before after : Option (List ℕ)) →
        AreElsewhere (place_of S.state path) →
        NotesAtFile (place_of S.state path) txn words before after (Ok is_success) → ⊥ }
{
    no_other_desk_starts_at_a_place::<S>();
}
