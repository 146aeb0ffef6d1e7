//! The laws of rooms are the contracts of functions that do nothing.

ghost use Rattle.std.specs.Prelude.{◌≡◌, ℕ, List, Contains, Option, Some};
ghost use Rattle.std.specs.List.{concat};
ghost use Rattle.ill_seal.specs.declared.sender.Sender.{Sender};
ghost use Rattle.ill_seal.specs.Carried.{NobodyElseSeals};
ghost use Rattle.ill_night.specs.declared.verdict.Verdict.{Verdict};
ghost use Rattle.ill_room.specs.Room.{RoomState, AreSettled, Settles};
ghost use Rattle.ill_room.specs.BadRoom.{IsBadEnd, IsBadSettling};
ghost use Rattle.ill_room.specs.Letters.{OpensTo};
ghost use Rattle.ill_room.specs.Sealed.{texts_of};

use ill_seal::laws::nobody_forges_a_letter;

/// Settling neither removes nor quarantines a message file that is to wait. It neither removes nor gives back a message
/// file that is to be quarantined, and neither gives back nor quarantines a done message file. It moves no message file
/// without a verdict and none that is not claimed, and changes no message that asks.
pub fn no_message_file_comes_to_a_wrong_place()
    ensures { (all : List Verdict) (old new : RoomState) → IsBadSettling all old new → Settles all old new → ⊥ }
{}

/// The texts of letters have all messages, one after another, and nothing else.
#[tactic(auto, using(crate::proofs::TextLemmas::texts_have_all))]
pub fn letters_have_all_messages()
    ensures { (messages : List (List ℕ)) → concat (texts_of messages) ≡ concat messages }
{}

/// If nobody else seals, the messages of a letter that opens are all messages of a text that its sender has sealed. The
/// premise rests on the secrecy of the key and on SHA-256, and no proof can give it.
pub fn nobody_forges_a_message()
    ensures { (key letter : List ℕ) (messages : List (List ℕ)) (texts : Sender → List (List ℕ)) (came : List (List ℕ))
        (sender : Sender) → NobodyElseSeals key texts came → Contains came letter →
        OpensTo key sender letter (Some messages) → Contains (texts sender) (concat messages) }
{
    nobody_forges_a_letter();
}

/// If all is settled, no message file that is done or quarantined is still claimed.
pub fn no_settled_message_file_stays()
    ensures { (all : List Verdict) (old new : RoomState) → IsBadEnd all old new → AreSettled all old new → ⊥ }
{}
