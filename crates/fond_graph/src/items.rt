//! The items of arrays.

ghost use Rattle.fond_text.specs.Text.{Adds};
ghost use Rattle.serde_json.specs.Written.{comma_if};
ghost use Rattle.std.specs.Prelude.{◌≡◌, true};

use fond_text::text::Text;

/// Adds the comma before an item, if something comes before the item. From then on, something does.
pub(crate) fn put_comma(later: &mut bool, text: &mut Text)
    ensures comma { Adds text.old text.new (comma_if later.old) }
    ensures later { later.new ≡ true }
{
    if *later {
        text.add(b",");
    }
    *later = true;
}
