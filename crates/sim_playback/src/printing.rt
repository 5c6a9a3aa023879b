//! Lines, as they are written.
ghost use Rattle.std.specs.Prelude.{◌≡◌, ◌≢◌, ◌∷◌, ◌++◌, [], IfErr, IfOk, OnOk, map, string_bytes};
ghost use Rattle.std.specs.Io.KnownBytes.{Appends};
ghost use Rattle.sim_playback.specs.Lines.{lines_text};
ghost use Rattle.sim_playback.specs.declared.fault.PlaybackError.TheVariants as errors;

use crate::fault::PlaybackError;
use rows::NoMemory;
use std::alloc::Global;
use std::io::Write;

// A line more, with its line's end.
fn push_line(text: &mut String, line: &str) -> Result<(), NoMemory>
    ensures { OnOk result (string_bytes text.new ≡ string_bytes text.old ++ (line.now ++ 10 ∷ [])) }
{
    text.push_str(line)?;
    text.push('\n')?;
    Ok(())
}

// These lines, each with its line's end, as one text.
fn text_of(alloc: Global, lines: &[String]) -> Result<String, NoMemory>
    ensures { IfOk result (λ text. string_bytes text ≡ lines_text (map string_bytes lines.now)) }
{
    let mut text = String::new(alloc);
    for line in lines {
        push_line(&mut text, line.as_str())?;
    }
    Ok(text)
}

// Writes a text, and flushes the output.
fn write_out<W: Write>(out: &mut W, text: &str) -> Result<(), PlaybackError>
    ensures ok { OnOk result (Appends (W.contents out.old) (W.contents out.new) text.now) }
    ensures err { IfErr result (λ error. error ≡ errors.Output) }
{
    match out.write_all(text.as_bytes()) {
        Ok(()) => match out.flush() {
            Ok(()) => Ok(()),
            Err(_) => Err(PlaybackError::Output),
        },
        Err(_) => Err(PlaybackError::Output),
    }
}

/// Writes these lines at once, each with its line's end, and flushes the output.
///
/// It is refused with `NoMemory`, and then nothing is written, and with `Output` where the output
/// failed.
pub fn print_lines<W: Write>(
    alloc: Global,
    out: &mut W,
    lines: &[String],
) -> Result<(), PlaybackError>
    ensures lines { OnOk result (Appends (W.contents out.old) (W.contents out.new)
        (lines_text (map string_bytes lines.now))) }
    ensures group { IfErr result (λ error. error ≢ errors.Group) }
    ensures left { IfErr result (λ error. error ≢ errors.Output → out.new ≡ out.old) }
{
    let text = text_of(alloc, lines)?;
    write_out(out, &text)
}
