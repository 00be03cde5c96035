// An ordered map from names to sequences.
ghost use Rattle.std.specs.Prelude.{◌≡◌, None, Some, MatchOption, IfOk};
ghost use Rattle.std.specs.FinMap.{get};
ghost use Rattle.gx_memory_machine.specs.Names.{by_name};

use gx_device::NoMemory;
use std::alloc::Global;
use std::collections::BTreeMap;

/// What stands under that name.
pub fn find<'a, T>(map: &'a BTreeMap<Vec<u8>, Vec<T>>, name: &[u8]) -> Option<&'a [T]>
    ensures { MatchOption result (get (by_name map.now.entries) name.now ≡ None)
        (λ items. get (by_name map.now.entries) name.now ≡ Some items.now) }
{
    let items = map.get(name)?;
    Some(items.as_slice())
}

/// A copy of the map.
pub fn copied_map<T: Copy + Drop>(
    alloc: Global,
    map: &BTreeMap<Vec<u8>, Vec<T>>,
) -> Result<BTreeMap<Vec<u8>, Vec<T>>, NoMemory>
    ensures { IfOk result (λ copy. by_name copy.entries ≡ by_name map.now.entries) }
{
    let mut copy = BTreeMap::new(alloc);
    let mut left = map.iter();
    while let Some((name, items)) = left.next_back() {
        let name = Vec::from_slice(alloc, name.as_slice())?;
        let items = Vec::from_slice(alloc, items.as_slice())?;
        copy.insert(name, items)?;
    }
    Ok(copy)
}
