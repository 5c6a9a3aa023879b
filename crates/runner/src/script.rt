//! JSON as it stands in an element of a script.
ghost use Rattle.std.specs.Prelude.{◌≡◌, ◌<◌, ◌++◌, ◌∷◌, [], IfOk, OnOk, string_bytes};
ghost use Rattle.std.specs.List.{flat_map};
ghost use Rattle.runner.specs.Pages.{script_byte};

use rows::NoMemory;
use std::alloc::Global;

/// A JSON text, as it stands in an element of a script.
pub(crate) fn in_script(alloc: Global, json: &str) -> Result<String, NoMemory>
    ensures { IfOk result (λ written. string_bytes written ≡ flat_map script_byte json.now) }
{
    let mut out = String::new(alloc);
    for byte in json.as_bytes() {
        push_byte(&mut out, *byte)?;
    }
    Ok(out)
}

fn push_byte(out: &mut String, byte: u8) -> Result<(), NoMemory>
    ensures { OnOk result (string_bytes out.new ≡ string_bytes out.old ++ script_byte byte) }
{
    match byte {
        b'<' => Ok(out.push_str("\\u003c")?),
        0..=127 => push_plain(out, byte),
        _ => Ok(out.push_str("?")?),
    }
}

fn push_plain(out: &mut String, byte: u8) -> Result<(), NoMemory>
    requires { byte < 128 }
    ensures { OnOk result (string_bytes out.new ≡ string_bytes out.old ++ byte ∷ []) }
{
    Ok(out.push(byte as char)?)
}
