//! The laws of sealed letters are the contracts of functions that do nothing.

ghost use Rattle.std.specs.Prelude.{◌≡◌, ◌+◌, ℕ, length, List, ◌++◌, Contains, Ok, Err};
ghost use Rattle.ill_seal.specs.declared.sender.Sender.{Sender};
ghost use Rattle.ill_seal.specs.declared.sender.Sender.TheVariants.{Requester, Responder};
ghost use Rattle.ill_seal.specs.declared.fault.SealFault.TheVariants as faults;
ghost use Rattle.hex.specs.Hex.{IsBytes};
ghost use Rattle.ill_seal.specs.Hmac.{hmac};
ghost use Rattle.ill_seal.specs.Letter.{unsealed, sealed, opened};
ghost use Rattle.ill_seal.specs.Carried.{NobodyElseSeals};
ghost use Rattle.ill_seal.specs.KeyText.{key_text, key_in};

/// A sealed letter opens with its key, and gives the text that was sealed. Bytes that open are the sealed letter of the
/// text that they give. A letter has 37 bytes more than its text.
#[tactic(auto, using(crate::proofs::Letters::opens, crate::proofs::Letters::only, crate::proofs::Letters::letter_size))]
pub fn what_opens_was_sealed()
    ensures opens { (key text : List ℕ) (sender : Sender) → opened key sender (sealed key sender text) ≡ Ok text }
    ensures only { (key letter text : List ℕ) (sender : Sender) → opened key sender letter ≡ Ok text →
        letter ≡ sealed key sender text }
    ensures size { (key text : List ℕ) (sender : Sender) → length (sealed key sender text) ≡ length text + 37 }
{}

/// No key opens a letter that one role has sealed as a letter of the other role: the fault is `Sender`. So no library
/// takes its own letter for one of its partner.
#[tactic(auto, using(crate::proofs::Letters::not_of_requester, crate::proofs::Letters::not_of_responder))]
pub fn no_letter_is_turned_round()
    ensures responders { (key other text : List ℕ) →
        opened key Requester (sealed other Responder text) ≡ Err faults.Sender }
    ensures requesters { (key other text : List ℕ) →
        opened key Responder (sealed other Requester text) ≡ Err faults.Sender }
{}

/// Bytes open only if their last 32, the seal, are the HMAC of all others. If the others are changed and still open
/// with this seal, the change has kept their HMAC under the key.
#[tactic(auto, using(crate::proofs::Letters::seal_fits, crate::proofs::Letters::one_seal))]
pub fn a_change_needs_a_seal()
    ensures fits { (key body seal text : List ℕ) (sender : Sender) → length seal ≡ 32 →
        opened key sender (body ++ seal) ≡ Ok text → (body ≡ unsealed sender text) × (seal ≡ hmac key body) }
    ensures changed { (key body changed seal text other : List ℕ) (sender : Sender) → length seal ≡ 32 →
        opened key sender (body ++ seal) ≡ Ok text → opened key sender (changed ++ seal) ≡ Ok other →
        hmac key body ≡ hmac key changed }
{}

/// If nobody else seals, each text that opens as one of a sender was sealed by this sender. The premise rests on the
/// secrecy of the key and on SHA-256, and no proof can give it.
#[tactic(auto, using(crate::proofs::Letters::forged_by_nobody))]
pub fn nobody_forges_a_letter()
    ensures { (key bytes text : List ℕ) (texts : Sender → List (List ℕ)) (came : List (List ℕ)) (sender : Sender) →
        NobodyElseSeals key texts came → Contains came bytes → opened key sender bytes ≡ Ok text →
        Contains (texts sender) text }
{}

/// Each key of 32 bytes is read from its text.
#[tactic(auto, using(crate::proofs::KeyTexts::key_read_again))]
pub fn a_key_is_read_from_its_text()
    ensures { (key : List ℕ) → length key ≡ 32 → IsBytes key → key_in (key_text key) ≡ Ok key }
{}
