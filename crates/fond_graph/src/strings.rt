//! Strings of JSON.

ghost use Rattle.fond_graph.specs.Parts.{atom_strings};
ghost use Rattle.fond_task.specs.Texts.{atom_text};
ghost use Rattle.fond_text.specs.Text.{Adds};
ghost use Rattle.json.specs.Print.{escape_byte, quoted};
ghost use Rattle.std.specs.Char.{digit_char};
ghost use Rattle.std.specs.Prelude.{◌≡◌, ◌<◌, ◌∷◌, [], IfOk};

use fond_task::task::{Labels, Task};
use fond_task::text::put_atom;
use fond_text::atom::Atom;
use fond_text::fault::NoMemory;
use fond_text::list::List;
use fond_text::text::Text;
use std::alloc::Global;

/// Texts of strings.
pub(crate) type Strings = List<List<u8>>;

/// Adds the hexadecimal digit of a number below 16.
fn put_digit(digit: u8, text: &mut Text)
    requires { digit < 16 }
    ensures { Adds text.old text.new (digit_char digit ∷ []) }
{
    let character = if digit < 10 {
        b'0' + digit
    } else {
        b'a' + (digit - 10)
    };
    text.add(&[character]);
}

/// Adds a byte as it is in a string: escaped if it must be, by its shortest escape.
#[tactic(auto, unfolding(json::specs::Print::escape_byte))]
fn put_byte(byte: u8, text: &mut Text)
    ensures { Adds text.old text.new (escape_byte byte) }
{
    match byte {
        b'"' => text.add(b"\\\""),
        b'\\' => text.add(b"\\\\"),
        8 => text.add(b"\\b"),
        9 => text.add(b"\\t"),
        10 => text.add(b"\\n"),
        12 => text.add(b"\\f"),
        13 => text.add(b"\\r"),
        0..=31 => {
            text.add(b"\\u00");
            put_digit(byte / 16, text);
            put_digit(byte % 16, text);
        }
        _ => text.add(&[byte]),
    }
}

/// Adds the string of these bytes.
fn put_quoted(bytes: &[u8], text: &mut Text)
    ensures { Adds text.old text.new (quoted bytes.now) }
{
    text.add(b"\"");
    for byte in bytes {
        put_byte(*byte, text);
    }
    text.add(b"\"");
}

/// The string of the text of an atom.
fn string_of(alloc: Global, labels: &Labels, atom: &Atom) -> Result<List<u8>, NoMemory>
    ensures { IfOk result (λ string. string ≡ quoted (atom_text labels.now atom.now)) }
{
    let mut plain = Text::new(alloc);
    put_atom(labels, atom, &mut plain);
    let mut string = Text::new(alloc);
    put_quoted(plain.finish()?.as_slice(), &mut string);
    Ok(List::of(string.finish()?))
}

/// The strings of the texts of all atoms.
pub(crate) fn strings_of(alloc: Global, task: &Task) -> Result<Strings, NoMemory>
    ensures { IfOk result (λ strings. strings ≡ atom_strings task.now) }
{
    let mut strings = Strings::new(alloc);
    for atom in task.atoms.as_slice() {
        strings.push(string_of(alloc, &task.labels, atom)?)?;
    }
    Ok(strings)
}
