//! The laws of nights are the contracts of functions that do nothing.

ghost use Rattle.std.specs.Prelude.{◌≡◌, ℕ, Bool, true, List, Ok, Option, Some, Result};
ghost use Rattle.ill_saved.specs.ManySides.{DeskContents};
ghost use Rattle.ill_text.specs.declared.fault.ToolFault.{ToolFault};
ghost use Rattle.ill_desk.specs.Performing.{HeldAndCommitted};
ghost use Rattle.ill_night.specs.declared.verdict.MessageFile.{MessageFile};
ghost use Rattle.ill_night.specs.declared.verdict.Verdict.{Verdict};
ghost use Rattle.ill_place.specs.BadPlaces.{AreElsewhere};
ghost use Rattle.ill_place.specs.Place as places;
ghost use Rattle.ill_room.specs.declared.room.Place.TheVariants.{Claimed, Gone};
ghost use Rattle.ill_room.specs.Room.{RoomState, place_of};
ghost use Rattle.ill_room.specs.Sealed.{PutsWith, Sealing};
ghost use Rattle.ill_exchange.specs.Nights.{AskedNight, ExchangesAtFile, InboxAtFile, OutboxAtFile};
ghost use Rattle.ill_exchange.specs.Rooms.{IsDoneInSaved, OutState, SendsInRooms, TakesInRoom};
ghost use Rattle.ill_exchange.specs.BadRooms.{IsBadSending, IsBadTaking};

use ill_night::outgoing::Outgoing;
use ill_place::place::no_other_desk_starts_at_a_place;
use ill_saved::Store;

/// If a claimed message file of a correct room is gone, it was done in a run that is saved at the desk. So no message
/// file is lost, whatever the answer was.
#[tactic(auto, using(crate::proofs::BadRooms::gone_is_committed))]
pub fn what_is_gone_is_committed()
    ensures { (message_files : List MessageFile) (desk : HeldAndCommitted DeskContents) (old new : RoomState)
        (taken : Result (List Verdict) ToolFault) (number : ℕ) → TakesInRoom message_files desk old taken new →
        old.is_correct ≡ true → place_of old number ≡ Some Claimed → place_of new number ≡ Some Gone →
        IsDoneInSaved message_files desk number }
{}

/// Nothing is done in a room before a run over its message files is saved.
#[tactic(auto, using(crate::proofs::BadRooms::none_takes))]
pub fn no_message_file_is_settled_unsaved()
    ensures { (message_files : List MessageFile) (desk : HeldAndCommitted DeskContents) (old new : RoomState)
        (taken : Result (List Verdict) ToolFault) → IsBadTaking message_files desk old new →
        TakesInRoom message_files desk old taken new → ⊥ }
{}

/// No message leaves before a wanted copy has the desk's record. No sign of life comes before all messages have left.
/// Only an outbox of the desk leaves.
pub fn nothing_leaves_uncopied<O: Outgoing>(_out: &O)
    ensures { (sealing : Option Sealing) (asked : List ℕ) (desk : DeskContents) (old new : OutState O.MessageFiles) →
        IsBadSending (PutsWith O.after sealing) asked desk old new →
        SendsInRooms (PutsWith O.after sealing) asked desk old new → ⊥ }
{}

/// If no desk was loaded from a place, no night at the place ends well: each desk has another path, or other sides than
/// its record.
pub fn no_night_succeeds_at_another_desk<S: Store>()
    ensures takes { (path : List ℕ) (is_success : Bool) (before after : Option (List ℕ)) →
        AreElsewhere (places.place_of S.state path) →
        InboxAtFile (places.place_of S.state path) before after (Ok is_success) → ⊥ }
    ensures sends { (path : List ℕ) (has_folder is_success : Bool) (before after : Option (List ℕ)) →
        AreElsewhere (places.place_of S.state path) →
        OutboxAtFile has_folder (places.place_of S.state path) before after (Ok is_success) → ⊥ }
    ensures exchanges { (path : List ℕ) (asked : AskedNight) (is_success : Bool) (before after : Option (List ℕ)) →
        AreElsewhere (places.place_of S.state path) →
        ExchangesAtFile asked (places.place_of S.state path) before after (Ok is_success) → ⊥ }
{
    no_other_desk_starts_at_a_place::<S>();
}
