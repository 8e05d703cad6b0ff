ghost use Rattle.std.specs.Prelude.{◌≡◌, ◌<◌, ◌≤◌, insert, length, remove, slice_index_or};
ghost use Rattle.std.specs.Prelude.{MatchBool, IfOk, IfErr, OnOk};
ghost use Rattle.smith_wrong_module.specs.Splices.{AtMostOne, DifferAt};

use smith_bytes::Error;
use smith_types::Items;
use std::alloc::Global;
use std::mem;

/// A change of a list by one item at most.
#[derive(Drop)]
pub(crate) enum Edit<T> {
    /// Inserts an item before the one at the index, or at the end.
    Insert(T),
    /// Removes the item at the index.
    Remove,
    /// Puts another item in place of the one at the index.
    Replace(T),
}

/// Makes `edit` at `index` of `items`, and returns whether there is such a place. If an allocation fails,
/// the list may be empty.
pub(crate) fn edit_items<T: Drop>(
    alloc: Global,
    items: &mut Items<T>,
    index: usize,
    edit: Edit<T>,
) -> Result<bool, Error>
    ensures ok { IfOk result (λ done.
        MatchBool done (DifferAt AtMostOne index items.old items.new) (items.new ≡ items.old)) }
    ensures memory { IfErr result (λ e. e ≡ Error.Memory) }
{
    let len = items.len();
    match edit {
        Edit::Insert(item) if index <= len => {
            let mut list = mem::replace(items, Items::new(alloc)).into_vec();
            list.insert(index, item)?;
            *items = Items::from_vec(list);
            Ok(true)
        }
        Edit::Remove if index < len => {
            let mut list = mem::replace(items, Items::new(alloc)).into_vec();
            let _item = list.remove(index);
            *items = Items::from_vec(list);
            Ok(true)
        }
        Edit::Replace(item) if index < len => {
            let mut list = mem::replace(items, Items::new(alloc)).into_vec();
            list[index] = item;
            *items = Items::from_vec(list);
            Ok(true)
        }
        _ => Ok(false),
    }
}

/// Takes the item at `index` out of `items`.
pub(crate) fn take_out<T: Drop>(alloc: Global, items: &mut Items<T>, index: usize) -> T
    requires { index < length items.old }
    ensures value { result ≡ slice_index_or items.old index result }
    ensures rest { items.new ≡ remove items.old index }
{
    let mut list = mem::replace(items, Items::new(alloc)).into_vec();
    let item = list.remove(index);
    *items = Items::from_vec(list);
    item
}

/// Puts `item` into `items` at `index`. If an allocation fails, the list may be empty.
pub(crate) fn put_back<T: Drop>(
    alloc: Global,
    items: &mut Items<T>,
    index: usize,
    item: T,
) -> Result<(), Error>
    requires { index ≤ length items.old }
    ensures ok { OnOk result (items.new ≡ insert items.old index item) }
    ensures memory { IfErr result (λ e. e ≡ Error.Memory) }
{
    let mut list = mem::replace(items, Items::new(alloc)).into_vec();
    list.insert(index, item)?;
    *items = Items::from_vec(list);
    Ok(())
}
