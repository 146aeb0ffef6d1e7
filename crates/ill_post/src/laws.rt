//! States the laws of forms, as contracts of functions that do nothing.

ghost use Rattle.std.specs.Prelude.{◌≡◌, ◌⊎◌, Ok, Err, Result};
ghost use Rattle.ill_saved.specs.declared.fault.DeskFault.{DeskFault};
ghost use Rattle.ill_saved.specs.declared.fault.DeskFault.TheVariants.{OutOfMemory};
ghost use Rattle.ill_record.specs.declared.side.Action.{Action};
ghost use Rattle.ill_record.specs.declared.side.Side.{Side};
ghost use Rattle.ill_record.specs.Side.{acts};
ghost use Rattle.ill_post.specs.declared.answer.Posted.{Posted};
ghost use Rattle.ill_post.specs.declared.answer.Posted.TheVariants.{Changed, Done};
ghost use Rattle.ill_post.specs.Post.{AnswersPost, DeskState, FormShown};
ghost use Rattle.ill_post.specs.Stamp.{side_stamp};

/// An action that is done gives its loan another stamp. This assumes nothing of the digest.
pub fn an_action_changes_the_stamp()
    ensures { (old new : Side) (action : Action) → acts old action ≡ Ok new → side_stamp old ≡ side_stamp new → ⊥ }
{
    ill_core::laws::requester_issues();
    ill_core::laws::responder_issues();
}

/// A form that is sent twice acts once. If its action was done, and it is sent again at once, nothing changes. The
/// second answer is `Changed` unless memory runs out. This assumes nothing of the digest.
pub fn a_form_sent_twice_acts_once()
    ensures { (form : FormShown) (old new last : DeskState) (second : Result Posted DeskFault) →
        AnswersPost form old (Ok Done) new → AnswersPost form new second last →
        ((second ≡ Ok Changed) ⊎ (second ≡ Err OutOfMemory)) × (last ≡ new) }
{
    an_action_changes_the_stamp();
    ill_saved::laws::rows_grow();
}
