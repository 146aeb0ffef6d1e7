//! The laws of letters between desks are the contracts of functions that do nothing.

ghost use Rattle.std.specs.Prelude.{◌≡◌, ◌≤◌, ℕ, length, List, [], Some, Ok, Err, IsErr};
ghost use Rattle.ill_record.specs.declared.role.Role.{Role};
ghost use Rattle.ill_seal.specs.declared.fault.SealFault.TheVariants as faults;
ghost use Rattle.ill_seal.specs.declared.sender.Sender.{Sender};
ghost use Rattle.ill_seal.specs.Letter.{sealed, opened};
ghost use Rattle.ill_key.specs.Letter.{LeavesSealed, OpensLetter, own_sender, other_sender};
ghost use Rattle.ill_text.specs.declared.fault.ToolFault.TheVariants.{NotSealed};

use ill_seal::laws::{no_letter_is_turned_round, what_opens_was_sealed};

/// A desk opens each letter that a desk of the other role has sealed with its key. With no key it opens a letter of its
/// own role.
pub fn desks_open_letters_of_the_other_role()
    ensures other { (key text : List ℕ) (role other : Role) → own_sender other ≡ other_sender role →
        opened key (other_sender role) (sealed key (own_sender other) text) ≡ Ok text }
    ensures own { (key other text : List ℕ) (role : Role) →
        opened key (other_sender role) (sealed other (own_sender role) text) ≡ Err faults.Sender }
{
    what_opens_was_sealed();
    no_letter_is_turned_round();
}

/// If messages are taken from an input, all of it is one letter with exactly these messages. If an input of at most
/// 1,048,613 bytes is refused as `not-sealed`, it is no letter that opens.
pub fn an_input_is_one_letter()
    ensures opens { (key bytes text : List ℕ) (sender : Sender) → OpensLetter key sender (Some bytes) (Some []) text →
        opened key sender bytes ≡ Ok text }
    ensures left { (key bytes : List ℕ) (sender : Sender) → length bytes ≤ 1048613 →
        LeavesSealed key sender (Some bytes) (Some []) NotSealed → IsErr (opened key sender bytes) }
{
    what_opens_was_sealed();
}
