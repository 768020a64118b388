//! A map in chunks: how many chunks it has, and its calls that take memory over many of them.

use chunked_map::{ChunkedMap, Copied};
use std::alloc::{AllocError, Global};
use std::test::Fail;

/// A number that is copied with its key.
#[derive(Drop)]
struct Count {
    number: u64,
}

impl Copied<u64> for Count {
    fn copied(key: &u64, value: &Count) -> Result<(u64, Count), AllocError> {
        let count = Count {
            number: value.number,
        };
        Ok((*key, count))
    }
}

/// A value of its own for a number.
fn held(number: u64) -> Count {
    Count { number }
}

/// The order in which keys come.
#[derive(Clone, Copy)]
enum Order {
    Rising,
    Falling,
    ByTexts,
}

/// A number below 10,000 as a key that stands where its decimal text stands among such texts: 7 before 70, and 70
/// before 8.
fn by_its_text(number: u64) -> u64 {
    let (padded, digits) = match number {
        0..=9 => (number.wrapping_mul(1000), 1),
        10..=99 => (number.wrapping_mul(100), 2),
        100..=999 => (number.wrapping_mul(10), 3),
        _ => (number, 4),
    };
    padded.wrapping_mul(5).wrapping_add(digits)
}

/// Which key comes at a step of so many.
fn key_at(step: u64, count: u64, order: Order) -> u64 {
    match order {
        Order::Rising => step,
        Order::Falling => count.wrapping_sub(step),
        Order::ByTexts => by_its_text(step),
    }
}

/// So many keys that came in an order.
fn map_of(alloc: Global, count: u64, order: Order) -> Result<ChunkedMap<u64, Count>, AllocError> {
    let mut map = ChunkedMap::new(alloc);
    for step in 0..count {
        map.insert(key_at(step, count, order), held(step))?;
    }
    Ok(map)
}

fn chunks_of(alloc: Global, count: u64, order: Order) -> Result<usize, AllocError> {
    Ok(map_of(alloc, count, order)?.chunk_count())
}

/// Rising keys fill one chunk after another. Of falling ones the 65th cuts the first chunk, and so does each 32nd
/// behind it: 30 cuts by 1,000 keys. In the order of their texts a chunk is begun by a cut that leaves it 32 entries,
/// so 10,000 fill 312 at most.
#[test]
fn keys_fill_chunks_by_the_order_that_they_come_in(rt: HostRuntime) -> Result<(), Fail> {
    assert_eq!(rt; chunks_of(rt.alloc(), 1000, Order::Rising)?, 16);
    assert_eq!(rt; chunks_of(rt.alloc(), 1000, Order::Falling)?, 31);
    assert!(rt; chunks_of(rt.alloc(), 10000, Order::ByTexts)? <= 312);
    Ok(())
}

/// How many entries a range has that is taken out. There are none where there is no such range.
fn taken(map: &mut ChunkedMap<u64, Count>, from: usize, to: usize) -> Result<usize, AllocError> {
    if map.len() < to || to < from {
        return Ok(0);
    }
    let taken = map.take_range(from, to)?;
    Ok(taken.len())
}

/// Puts keys up to 700 among those that there are, takes one out, and then sixty more.
fn changed(alloc: Global, map: &mut ChunkedMap<u64, Count>) -> Result<usize, AllocError> {
    map.insert_all(map_of(alloc, 700, Order::Falling)?)?;
    map.remove(&3)?;
    taken(map, 30, 90)
}

/// How many entries were taken out at last, how many are left, and how many a copy has that was made before, in how
/// many chunks.
fn counts_beside_a_copy(alloc: Global) -> Result<[usize; 4], AllocError> {
    let mut map = map_of(alloc, 500, Order::Rising)?;
    let copied = map.copy()?;
    let taken = changed(alloc, &mut map)?;
    Ok([taken, map.len(), copied.len(), copied.chunk_count()])
}

#[test]
fn changes_while_a_copy_stays(rt: HostRuntime) -> Result<(), Fail> {
    assert_eq!(rt; counts_beside_a_copy(rt.alloc())?, [60, 640, 500, 8]);
    Ok(())
}
