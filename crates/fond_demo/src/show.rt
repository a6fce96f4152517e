//! What is shown of the task.

ghost use Rattle.fond_demo.specs.Demos.{shown_text};
ghost use Rattle.fond_text.specs.Text.{Adds};

use fond_text::text::Text;

/// Adds a certificate between the lines of `demo`: the size, how many atoms and actions the task has, and what `check` says of
/// it.
pub fn put_shown(size: u64, atoms: u64, actions: u64, cert: &[u8], text: &mut Text)
    ensures { Adds text.old text.new (shown_text size atoms actions cert.now) }
{
    text.add(b"demo ");
    text.add_number(size);
    text.add(b"\natoms ");
    text.add_number(atoms);
    text.add(b"\nactions ");
    text.add_number(actions);
    text.add(b"\n");
    text.add(cert);
    text.add(b"accepted policy lean\n");
}
