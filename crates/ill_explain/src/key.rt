//! The lines about keys.

use crate::shown::Shown;
use clap::ArgMatches;
use ill_files::paths::folder_of;
use ill_line::command_line::Argument;
use ill_saved::DeskFault;
use ill_text::fault::BadKey;
use ill_values::OutOfMemory;

/// Appends the reason why the key of a command cannot be used.
pub fn explain_bad_key(
    text: &mut String,
    matches: &ArgMatches<'_>,
    bad: BadKey,
) -> Result<(), OutOfMemory> {
    let shown = Shown::of(path_of(matches));
    match bad {
        BadKey::Missing => writeln!(text, "  {shown} is not there: `ill key` makes a key."),
        BadKey::Unreadable => writeln!(text, "  {shown} cannot be read by this user."),
        BadKey::Open => {
            writeln!(
                text,
                "  {shown} is open to others than its owner: `chmod go=` closes it."
            )?;
            writeln!(
                text,
                "  If others may have seen the key, make another one, at both libraries."
            )
        }
        BadKey::Size => writeln!(text, "  {shown} is no file of a key: that has 32 bytes."),
        BadKey::Digits => writeln!(
            text,
            "  A key has 17 groups of four digits or letters from a to f."
        ),
        BadKey::Check => writeln!(
            text,
            "  There is a slip in it: the last group does not fit the others."
        ),
    }
}

/// Appends the reason why the file of a key was not made.
pub fn explain_key_not_made(
    text: &mut String,
    matches: &ArgMatches<'_>,
    fault: DeskFault,
) -> Result<(), OutOfMemory> {
    let path = path_of(matches);
    let shown = Shown::of(path);
    if fault == DeskFault::Exists {
        return writeln!(
            text,
            "  {shown} is there already: a new key wants a new file."
        );
    }
    let folder = Shown::of(folder_of(path));
    writeln!(
        text,
        "  {shown} cannot be made in the folder {folder}: look at its permissions, and at the room on the disk."
    )
}

/// Returns the path of the file of the key: the KEYFILE of `ill key`, or the value of `--key`. Without both it is
/// empty.
fn path_of<'a>(matches: &ArgMatches<'a>) -> &'a str {
    matches
        .get_str(Argument::KeyFile.id())
        .or(matches.get_str(Argument::Key.id()))
        .unwrap_or_default()
}
