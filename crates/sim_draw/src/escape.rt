//! Texts as they stand between the tags of XML.
ghost use Rattle.std.specs.Prelude.{◌≡◌, ◌<◌, ◌++◌, ◌∷◌, [], OnOk, IfOk, string_bytes, take};
ghost use Rattle.std.specs.List.{flat_map};
ghost use Rattle.sim_draw.specs.Pictures.{shown_byte};

use rows::NoMemory;
use std::alloc::Global;

/// All of a text, as it stands between tags: what is no character of ASCII, or can't be seen, is
/// shown by a question mark.
pub fn all_escaped(alloc: Global, text: &str) -> Result<String, NoMemory>
    ensures { IfOk result (λ told. string_bytes told ≡ flat_map shown_byte text.now) }
{
    escaped(alloc, text, text.len())
}

/// The front of a text, of so many bytes at most, as it stands between tags.
pub(crate) fn escaped(alloc: Global, text: &str, most: usize) -> Result<String, NoMemory>
    ensures { IfOk result (λ written.
        string_bytes written ≡ flat_map shown_byte (take most text.now)) }
{
    let bytes = text.as_bytes();
    let front = &bytes[..bytes.len().min(most)];
    let mut out = String::new(alloc);
    for byte in front {
        push_byte(&mut out, *byte)?;
    }
    Ok(out)
}

// A byte that is no character of ASCII, or one that cannot be seen, is shown by a question mark.
fn push_byte(out: &mut String, byte: u8) -> Result<(), NoMemory>
    ensures { OnOk result (string_bytes out.new ≡ string_bytes out.old ++ shown_byte byte) }
{
    match byte {
        b'<' => Ok(out.push_str("&lt;")?),
        b'>' => Ok(out.push_str("&gt;")?),
        b'&' => Ok(out.push_str("&amp;")?),
        32..=126 => push_plain(out, byte),
        _ => Ok(out.push_str("?")?),
    }
}

fn push_plain(out: &mut String, byte: u8) -> Result<(), NoMemory>
    requires { byte < 128 }
    ensures { OnOk result (string_bytes out.new ≡ string_bytes out.old ++ byte ∷ []) }
{
    Ok(out.push(byte as char)?)
}
