//! The laws of histories of shelves: each desk that a command visits is a desk of a library of its own.

ghost use Rattle.std.specs.Prelude.{◌≡◌, ℕ, List};
ghost use Rattle.ill_record.specs.declared.role.Role.{Role};
ghost use Rattle.ill_world.specs.World.{party};
ghost use Rattle.ill_runs.specs.Libraries.{AreSafe, HasAllThatLeft, IsHistory, libraries_after};
ghost use Rattle.ill_runs.specs.ShelfLibraries.{GroupVisit, IsShelfHistory, ShelfLibraries, first_shelf_libraries, shelves_after, visits_of};

use crate::laws;

/// The desks of a group have a history of their own: the visits of this group, in order. A visit of another group
/// changes nothing there.
#[tactic(auto, using(crate::proofs::ShelfLemmas::group_history, crate::proofs::ShelfLemmas::group_after))]
pub fn each_group_has_its_history()
    ensures history { (w : ShelfLibraries) (group : List ℕ) (visits : List GroupVisit) →
        IsShelfHistory w visits → IsHistory (w group) (visits_of group visits) }
    ensures after { (w : ShelfLibraries) (group : List ℕ) (visits : List GroupVisit) →
        shelves_after w visits group ≡ libraries_after (w group) (visits_of group visits) }
{}

/// After any commands on two shelves the files of both desks of each group can be read, and their sides do not
/// contradict each other. Each file has what has left its desk.
pub fn each_shelf_history_is_safe()
    ensures safe { (group : List ℕ) (visits : List GroupVisit) → IsShelfHistory first_shelf_libraries visits →
        AreSafe (shelves_after first_shelf_libraries visits group) }
    ensures left { (group : List ℕ) (visits : List GroupVisit) (who : Role) →
        IsShelfHistory first_shelf_libraries visits →
        HasAllThatLeft (party (shelves_after first_shelf_libraries visits group) who) }
{
    each_group_has_its_history();
    laws::each_history_is_safe();
    laws::what_has_left_is_in_the_file();
}
