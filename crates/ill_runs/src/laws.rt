//! The laws of histories: two libraries perform commands, one after another, and their message files are carried or
//! lost.

ghost use Rattle.std.specs.Prelude.{◌≡◌, List, Ok};
ghost use Rattle.ill_values.specs.declared.apdu.Apdu.{Apdu};
ghost use Rattle.ill_record.specs.declared.role.Role.{Role};
ghost use Rattle.ill_record.specs.Side.{other};
ghost use Rattle.ill_record.specs.Ranges.{Each};
ghost use Rattle.ill_record.specs.RecordsV2.{records_at};
ghost use Rattle.ill_record.specs.Sides.{SidesOf};
ghost use Rattle.ill_world.specs.World.{party};
ghost use Rattle.ill_world.specs.declared.event.DeskEvent.{DeskEvent};
ghost use Rattle.ill_world.specs.Desks.{DeskParties, DeskParty, desks_run};
ghost use Rattle.ill_world.specs.DeskSafety.{DesksInvariant};
ghost use Rattle.ill_runs.specs.BadLibraries.{AreUnsafe, HasForgotten};
ghost use Rattle.ill_runs.specs.MessageFile.{IsOneOf, WasSent};
ghost use Rattle.ill_runs.specs.Libraries.{AreAt, AreSafe, Commands, HasAllThatLeft, IsAt, IsHistory, IsRunAt, LeadsTo, Libraries, Library, first_libraries, libraries_after};

/// Each command of a library is some events at its desk in the model: a restart, what the command does, its saves, and
/// a Send for each message that leaves. The messages that come were sent by the other desk.
pub fn each_command_is_events()
    ensures { (who : Role) (w : DeskParties) → DesksInvariant w → (others : List Apdu) (before after : Library) →
        Each (WasSent (party w (other who)).sent) others → IsAt before (party w who) → Commands others before after →
        LeadsTo who w after }
{
    ill_world::desk_laws::desks_stand();
    ill_world::desk_laws::sent_stays_sent_at_desks();
}

/// A history leads on. If its first libraries are two desks of the model, some events lead from these desks to desks
/// that are its last libraries.
pub fn each_history_leads_on()
    ensures { (w : DeskParties) (now : Libraries) (later : List Libraries) → DesksInvariant w → AreAt now w →
        IsHistory now later → (events : List DeskEvent) × AreAt (libraries_after now later) (desks_run w events) }
{
    ill_world::desk_laws::desks_stand();
    ill_world::desk_laws::sent_stays_sent_at_desks();
}

/// Each history of two libraries is a run of the model. After any commands some events lead the first desks of the
/// model to desks that are both libraries.
pub fn each_history_is_a_run()
    ensures { (later : List Libraries) → IsHistory first_libraries later →
        IsRunAt (libraries_after first_libraries later) }
{
    ill_saved::laws::sides_read_again();
    ill_world::desk_laws::desks_stand();
    ill_world::desk_laws::sent_stays_sent_at_desks();
}

/// After each history of two libraries the files of both desks can be read. In each transaction their sides do not
/// contradict each other.
pub fn each_history_is_safe()
    ensures { (later : List Libraries) → IsHistory first_libraries later →
        AreSafe (libraries_after first_libraries later) }
{
    each_history_is_a_run();
    ill_world::desk_laws::desks_stand();
    ill_world::laws::ends_alike();
    ill_world::laws::was_shipped();
    ill_world::laws::was_granted();
}

/// After each history the file of either library can be read, and has each message that has left this library. So no
/// library forgets a message that it has given out.
pub fn what_has_left_is_in_the_file()
    ensures { (later : List Libraries) → IsHistory first_libraries later → (who : Role) →
        HasAllThatLeft (party (libraries_after first_libraries later) who) }
{
    each_history_is_a_run();
    ill_world::desk_laws::desks_stand();
}

/// A library has not all that left if its file cannot be read, or lacks a message that has left.
pub fn no_forgetful_library_has_all_that_left()
    ensures { (library : Library) → HasForgotten library → HasAllThatLeft library → ⊥ }
{}

/// Libraries are not safe if a file cannot be read, or if a side in the responder's file contradicts the requester's.
pub fn no_unsafe_libraries_are_safe()
    ensures { (libraries : Libraries) → AreUnsafe libraries → AreSafe libraries → ⊥ }
{}

/// If a library is a desk of the model, its file is read as the committed sides of this desk and as no others. The desk
/// has sent each message that has left the library.
pub fn files_are_the_desks()
    ensures { (library : Library) (p : DeskParty) → IsAt library p →
        ((held : SidesOf) → records_at library.file ≡ Ok held → held ≡ p.committed)
        × ((a : Apdu) → IsOneOf library.left a → WasSent p.sent a) }
{}
