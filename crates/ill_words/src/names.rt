//! Actions have names.

ghost use Rattle.std.specs.Prelude.{◌≡◌, map, IfOk};
ghost use Rattle.ill_core.specs.Verbs.{verb_name};

use ill_core::Verb;
use ill_values::OutOfMemory;
use std::alloc::Global;

/// Returns the names of `verbs`.
pub fn names<'a>(alloc: Global, verbs: &[Verb]) -> Result<Vec<&'a str>, OutOfMemory>
    ensures { IfOk result (λ names. map (λ name. name.now) names.items ≡ map verb_name verbs.now) }
{
    let mut names = Vec::new(alloc);
    for verb in verbs {
        names.push(verb.name())?;
    }
    Ok(names)
}
