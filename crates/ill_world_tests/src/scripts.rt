//! Reads the bytes of a script from its lines.

use ill_test_kit::number_in;

/// Adds a line of a script, and its LF. A count in brackets at its beginning repeats the line. Returns `None` if the
/// line has an error.
pub fn push_line(script: &mut Vec<u8>, line: &str) -> Option<()> {
    let (times, line) = repeated(line).unwrap_or((1, line));
    for time in 1..=times {
        push_once(script, line, time)?;
    }
    Some(())
}

/// Returns the count at the beginning of a line, and the rest of the line. Returns `None` if there is no count.
fn repeated(line: &str) -> Option<(u32, &str)> {
    let (inside, rest) = line.strip_prefix('[')?.split_once(']')?;
    let times = number_in(inside.strip_suffix('*')?)?;
    Some((times, rest))
}

/// Adds a repetition of a line, and its LF. A line that ends with `[]` gets no LF. The first repetition has the number
/// 1 in `time`.
fn push_once(script: &mut Vec<u8>, line: &str, time: u32) -> Option<()> {
    if let Some(line) = line.strip_suffix("[]") {
        return push_text(script, line, time);
    }
    push_text(script, line, time)?;
    script.push(b'\n').ok()
}

/// Adds `text`, with each bracket replaced by its meaning (`push_inside`).
fn push_text(script: &mut Vec<u8>, text: &str, time: u32) -> Option<()> {
    let (plain, more) = text.split_once('[').unwrap_or((text, ""));
    script.extend_from_slice(plain.as_bytes()).ok()?;
    if more.is_empty() {
        return Some(());
    }
    for part in more.split('[') {
        let (inside, plain) = part.split_once(']')?;
        push_inside(script, inside, time)?;
        script.extend_from_slice(plain.as_bytes()).ok()?;
    }
    Some(())
}

/// Adds the meaning of a bracket: the number of the repetition (`n`), a repeated text (`ab*3`), or an octet (`0A`).
fn push_inside(script: &mut Vec<u8>, inside: &str, time: u32) -> Option<()> {
    if inside == "n" {
        let time = time.to_string(*script.allocator()).ok()?;
        return script.extend_from_slice(time.as_bytes()).ok();
    }
    match inside.split_once('*') {
        Some((text, times)) => {
            let times = number_in(times)?;
            for _ in 0..times {
                script.extend_from_slice(text.as_bytes()).ok()?;
            }
            Some(())
        }
        None => script.push(u8::from_str_radix(inside, 16).ok()?).ok(),
    }
}
