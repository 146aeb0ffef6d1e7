//! States that states and verbs are read back from their names.

ghost use Rattle.std.specs.Prelude.{◌≡◌, ◌↔◌, ℕ, List, Some};
ghost use Rattle.ill_core.specs.declared.state.State.{State};
ghost use Rattle.ill_core.specs.declared.verb.Verb.{Verb};
ghost use Rattle.ill_core.specs.State.{state_name, state_named};
ghost use Rattle.ill_core.specs.Verbs.{verb_name, verb_named};

use crate::state::State;
use crate::verb::Verb;
use ill_values::laws::names_are_read;

/// A text is read as a state if, and only if, it is the name of that state.
pub fn state_names_are_read()
    ensures { (text : List ℕ) (state : State) →
        (state_named text ≡ Some state) ↔ (text ≡ state_name state) }
{
    names_are_read::<State>();
}

/// A text is read as a verb if, and only if, it is the name of that verb.
pub fn verb_names_are_read()
    ensures { (text : List ℕ) (verb : Verb) →
        (verb_named text ≡ Some verb) ↔ (text ≡ verb_name verb) }
{
    names_are_read::<Verb>();
}
