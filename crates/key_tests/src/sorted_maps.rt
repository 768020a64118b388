//! The calls of a map that take memory.

use key_meta::Memory;
use sorted_map::SortedMap;
use std::alloc::Global;
use std::test::Fail;

/// A map that got its entries in this order.
fn map_of(alloc: Global, entries: &[(i32, char)]) -> Result<SortedMap<i32, char>, Memory> {
    let mut map = SortedMap::new(alloc);
    for (key, value) in entries {
        map.insert(*key, *value)?;
    }
    Ok(map)
}

fn united(alloc: Global) -> Result<SortedMap<i32, char>, Memory> {
    let mut map = map_of(alloc, &[(9, 'd'), (4, 'b'), (2, 'a')])?;
    map.insert_all(map_of(alloc, &[(1, 'v'), (7, 'y'), (4, 'w')])?)?;
    Ok(map)
}

/// All but the first and the last of five entries.
fn midst_of(map: &mut SortedMap<i32, char>) -> Result<SortedMap<i32, char>, Memory> {
    if map.len() == 5 {
        map.take_range(1, 4)
    } else {
        Ok(SortedMap::new(map.allocator()))
    }
}

fn midst_of_united(alloc: Global) -> Result<SortedMap<i32, char>, Memory> {
    let mut map = united(alloc)?;
    midst_of(&mut map)
}

#[test]
fn takes_another_map_and_gives_a_range(rt: HostRuntime) -> Result<(), Fail> {
    assert_eq!(rt;
        midst_of_united(rt.alloc())?.entries(),
        [(2, 'a'), (4, 'w'), (7, 'y')].as_slice()
    );
    Ok(())
}
