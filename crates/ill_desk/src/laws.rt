//! The laws of the engines of commands.

ghost use Rattle.std.specs.Prelude.{◌≡◌};
ghost use Rattle.ill_values.specs.TxnId.{Qualifiers};
ghost use Rattle.ill_saved.specs.ManySides.{DeskContents, many_sides};
ghost use Rattle.ill_desk.specs.Telling.{once_saved, shown_at};

/// What the line of a trial shows is what the line of the action shows once the desk is saved.
pub fn a_trial_shows_what_comes()
    ensures { (txn : Qualifiers) (live : DeskContents) →
        once_saved (shown_at many_sides txn live) ≡ shown_at many_sides txn (many_sides.saves live) }
{}
