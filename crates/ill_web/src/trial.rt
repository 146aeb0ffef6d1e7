//! How to look at a desk in a browser without a web server of one's own.

use ill_values::OutOfMemory;
use std::alloc::Global;

/// The text before the file of the desk.
const BEFORE: &str = "\
To look at the desk in a browser on this machine alone, type this in a shell:

    mkdir -p www/cgi-bin
    printf '%s\\n' '#!/bin/sh' \"exec ill-web --open --origin http://127.0.0.1:8080 \
--today \\$(date +%Y%m%d) '$(realpath -- ";

/// The text after the file of the desk.
const AFTER: &str = "\
)'\" > www/cgi-bin/desk
    chmod +x www/cgi-bin/desk
    busybox httpd -f -p 127.0.0.1:8080 -h www

Then look at http://127.0.0.1:8080/cgi-bin/desk. Nobody logs in, so all on this machine may act there.
";

/// Returns the lines that say how to look at the desk in `file`.
pub fn tried(alloc: Global, file: &str) -> Result<String, OutOfMemory> {
    let mut text = String::from_str(alloc, BEFORE)?;
    push_quoted(&mut text, file)?;
    text.push_str(AFTER)?;
    Ok(text)
}

/// Appends `file` as one word of a shell.
fn push_quoted(text: &mut String, file: &str) -> Result<(), OutOfMemory> {
    text.push_str("'")?;
    for letter in file.chars() {
        match letter {
            '\'' => text.push_str("'\\''")?,
            letter => text.push(letter)?,
        }
    }
    text.push_str("'")?;
    Ok(())
}
