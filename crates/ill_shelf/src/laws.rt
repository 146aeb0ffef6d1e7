//! Laws of the commands on a shelf: contracts of functions that do nothing.

ghost use Rattle.std.specs.Prelude.{ℕ, Bool, true, false, List, Option, None, Ok};
ghost use Rattle.ill_values.specs.TxnId.{Qualifiers};
ghost use Rattle.ill_values.specs.declared.apdu.Apdu.{Apdu};
ghost use Rattle.ill_commands.specs.AtFile.{MessageOf};
ghost use Rattle.ill_desk.specs.ActAs.{Asking};
ghost use Rattle.ill_place.specs.Place.{shelf_of};
ghost use Rattle.ill_shelf.specs.BadHomes.{IsNowhere, IsOpenGroup, IsTakenNowhere};
ghost use Rattle.ill_shelf.specs.Home.{ActsAtHome, NotesAtHome, SendsAtHome, SlipAtHome};
ghost use Rattle.ill_shelf.specs.Retiring.{RetiresAtHome};
ghost use Rattle.ill_shelf.specs.Shelf.{ShelfTaking, TakesAtHome};

use ill_commands::laws::no_command_succeeds_at_another_desk;
use ill_saved::Store;

/// If no desk of a group was loaded, no `slip`, `note` or `send` in a loan of the group ends well, and no `retire` says
/// that a loan of the group is not over. No action ends well if no new group may be begun. No message of the group is
/// taken, if the shelf's own desk was not loaded either.
pub fn no_command_succeeds_away_from_its_group<S: Store>()
    ensures slips { (folder : List ℕ) (txn : Qualifiers) (is_success : Bool) (before after : Option (List ℕ)) →
        IsNowhere (shelf_of S.state folder) txn.group →
        SlipAtHome (shelf_of S.state folder) txn before after (Ok is_success) → ⊥ }
    ensures notes { (folder : List ℕ) (txn : Qualifiers) (words : List ℕ) (is_success : Bool) (before after : Option (List ℕ)) →
        IsNowhere (shelf_of S.state folder) txn.group →
        NotesAtHome (shelf_of S.state folder) txn words before after (Ok is_success) → ⊥ }
    ensures sends { (folder : List ℕ) (message : MessageOf) (is_success : Bool) (before after : Option (List ℕ)) →
        IsNowhere (shelf_of S.state folder) message.txn.group →
        SendsAtHome (shelf_of S.state folder) None message before after (Ok is_success) → ⊥ }
    ensures takes { (apdu : Apdu) (old new : ShelfTaking) →
        IsTakenNowhere (shelf_of S.state old.folder) apdu.txn.group → TakesAtHome S.state old apdu (Ok tt) new → ⊥ }
    ensures acts { (folder : List ℕ) (asking : Asking) (is_long is_success : Bool) (before after : Option (List ℕ)) →
        IsNowhere (shelf_of S.state folder) asking.txn.group →
        ActsAtHome (shelf_of S.state folder) (record { asking = asking; is_long = is_long; is_new_group = false })
        before after (Ok is_success) → ⊥ }
    ensures retires { (folder group : List ℕ) (before after : Option (List ℕ)) →
        IsNowhere (shelf_of S.state folder) group →
        RetiresAtHome (shelf_of S.state folder) group before after (Ok false) → ⊥ }
{
    no_command_succeeds_at_another_desk::<S>();
}

/// No group is retired that has an open loan. If a group was not marked before, and each desk that was loaded from its
/// path has a loan that is not over, `retire` does not say that the group is retired.
pub fn no_open_group_is_retired<S: Store>()
    ensures { (folder group : List ℕ) (before after : Option (List ℕ)) →
        IsOpenGroup (shelf_of S.state folder) group →
        RetiresAtHome (shelf_of S.state folder) group before after (Ok true) → ⊥ }
{}
