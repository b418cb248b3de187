//! Changes: values that are put at locations, one after the other.
ghost use Rattle.std.specs.Prelude.{◌≡◌, map};
ghost use Rattle.jsonpath_rust.specs.base.Values.{value_tree};
ghost use Rattle.examples.specs.Changing.{all_put, change_view};

use jsonpath_rust::Whole;
use jsonpath_rust::query::Step;
use serde_json::Value;

/// A value that is put at a location.
#[derive(Drop)]
pub struct Change {
    pub place: Vec<Step>,
    pub value: Whole<Value>,
}

/// Puts each of these values at its location, the last first; where nothing is there, nothing changes. Of locations inside one
/// another, in the order in which queries return them, the outer one comes first, so its value stands in the end.
///
/// This changes each value that a query selects: the new ones are made of the old, which are borrowed, and put in their places
/// when these borrows have ended. Whatever is refused is refused before, for this takes no memory.
///
/// The cost is that of [`Whole::put_at`] for each.
pub fn put_each(mut changes: Vec<Change>, document: &mut Whole<Value>)
    ensures { value_tree document.new.value ≡ all_put (map change_view changes.items) (value_tree document.old.value) }
{
    'changes: while let Some(change) = changes.pop() {
        let value = change.value;
        document.put_at(&change.place, value);
    }
}
