//! Printing lists, item by item.

ghost use Rattle.std.specs.List.{flat_map};
ghost use Rattle.std.specs.Prelude.{◌≡◌, ◌<◌, All, IfSome, length, slice_get};

use fond_task::task::Task;
use fond_text::out::Out;

/// A list of parts of a certificate, each of which has lines of its own.
pub(crate) trait Listing {
    ghost use Rattle.fond_task.specs.declared.task.Task.{Task};
    ghost use Rattle.std.specs.Prelude.{◌≡◌, ℕ, ◌<◌, List, All, IfSome, length, slice_get};

    type Item;

    ghost items: { Self → List Self.Item };

    /// A bound on the number of items.
    ghost limit: { ℕ };

    /// An item belongs to the task.
    ghost fits: { Task → Self.Item → Type 0 };

    /// The text of the lines of an item.
    ghost text: { Task → Self.Item → List ℕ };

    /// The number of items.
    fn count(&self) -> u64
        ensures count { result ≡ length (items self.now) }
        ensures few { result < limit };

    /// Adds the lines of an item.
    fn put_at<O: Out>(&self, task: &Task, i: u64, out: &mut O)
        requires there { i < length (items self.now) }
        requires few { i < limit }
        requires fits { All (fits task.now) (items self.now) }
        ensures { IfSome (slice_get (items self.now) i) (λ item. O.adds out.old out.new (text task.now item)) };
}

/// Adds the lines of all items of a list, or of the first ones if the destination fails.
pub(crate) fn put_all<L: Listing, O: Out>(task: &Task, list: &L, out: &mut O)
    requires { All (L.fits task.now) (L.items list.now) }
    ensures { O.adds out.old out.new (flat_map (L.text task.now) (L.items list.now)) }
{
    for i in 0..list.count() {
        if out.has_failed() {
            return;
        }
        list.put_at(task, i, out);
    }
}
