//! The laws of these words are the contracts of functions that do nothing.

ghost use Rattle.std.specs.Prelude.{Bool};
ghost use Rattle.ill_record.specs.declared.side.Side.{Side};
ghost use Rattle.ill_words.specs.Sending.{is_over, wants_sending};
ghost use Rattle.ill_words.specs.BadSending.{MisjudgesEnd, MisjudgesSending};

/// `is_over` gives no answer that `MisjudgesEnd` calls wrong, and `wants_sending` none that `MisjudgesSending` calls
/// wrong.
pub fn no_bad_sending_passes()
    ensures over { (side : Side) → MisjudgesEnd side (is_over side) → ⊥ }
    ensures sends { (was_asked : Bool) (side : Side) →
        MisjudgesSending was_asked side (wants_sending was_asked side) → ⊥ }
{}
