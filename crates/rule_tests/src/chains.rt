//! Values are dropped once each, a list keeps its order, and a refused `reserve` leaves it as it
//! was. Each `reserve` here may be refused: `dev/refused_memory.py --tests` refuses one request
//! for memory after the other.
use chain_arena::{Chain, Knot};
use std::alloc::Global;
use std::process::Abort;
use std::sync::Arc;
use std::test::*;

fn needs_send<X: Send>(_x: &X) {}

fn needs_sync<X: Sync>(_x: &X) {}

/// A chain may go to another thread where its values may.
fn is_send<T: Send>(chain: &Chain<T>) {
    needs_send(chain);
}

/// Threads may share a chain where they may share its values.
fn is_sync<T: Sync>(chain: &Chain<T>) {
    needs_sync(chain);
}

/// The sum of the values, each with its place from 1 on, so that another order has another sum.
fn told(chain: &Chain<Arc<u64>>) -> u64 {
    let mut sum = 0u64;
    let mut place = 0u64;
    for (_, value) in chain.iter() {
        place = place.wrapping_add(1);
        sum = sum.wrapping_add(place.wrapping_mul(**value));
    }
    sum
}

/// Makes room for `n` more values. Where memory for it is refused the list is as before, and the
/// call is made once more.
fn make_room(chain: &mut Chain<Arc<u64>>, n: u32) -> bool {
    let (sum, spare) = (told(chain), chain.spare());
    if chain.reserve(n).is_ok() {
        return true;
    }
    told(chain) == sum && chain.spare() == spare && chain.reserve(n).is_ok()
}

/// Pushes ten values, with a block that grows each time, and keeps each, and its knot. False where
/// there is no room.
fn push_ten(
    alloc: Global,
    values: &mut Vec<Arc<u64>>,
    knots: &mut Vec<Knot>,
    chain: &mut Chain<Arc<u64>>,
) -> Result<bool, Fail> {
    for number in 0..10u64 {
        if !make_room(chain, 1) || chain.spare() == 0 {
            return Ok(false);
        }
        let value = Arc::new(alloc, number)?;
        values.push(value.clone()?)?;
        knots.push(chain.push_back(value))?;
    }
    Ok(true)
}

/// Takes three of the ten out, and drops those to the left of another. What is left is counted by
/// its owners.
fn drop_eight(rt: &impl Abort, values: &[Arc<u64>], knots: &[Knot], chain: &mut Chain<Arc<u64>>) {
    // no block has so many places
    let sum = told(chain);
    assert!(rt; chain.reserve(u32::MAX).is_err());
    assert!(rt; told(chain) == sum && chain.spare() == 0);
    for at in [3, 5, 6] {
        assert!(rt; at < knots.len() && at < values.len() && chain.has(knots[at]));
        drop(chain.unlink(knots[at]));
        assert!(rt; Arc::strong_count(&values[at]) == 1 && !chain.has(knots[at]));
    }
    assert!(rt; 8 < knots.len() && chain.has(knots[8]));
    chain.drop_left_of(knots[8]);
    assert!(rt; chain.spare() == 8);
    for value in values {
        let held = if **value < 8 { 1 } else { 2 };
        assert!(rt; Arc::strong_count(value) == held);
    }
}

#[test]
fn each_value_is_dropped_once(rt: HostRuntime) -> Result<(), Fail> {
    let mut values = Vec::new(rt.alloc());
    let mut knots = Vec::new(rt.alloc());
    let mut chain = Chain::new(rt.alloc());
    let pushed = push_ten(rt.alloc(), &mut values, &mut knots, &mut chain);
    if matches!(pushed, Ok(true)) {
        drop_eight(&rt, values.as_slice(), knots.as_slice(), &mut chain);
    }
    drop(knots);
    drop(chain);
    for value in &values {
        assert!(rt; Arc::strong_count(value) == 1);
    }
    drop(values);
    assert!(rt; pushed?);
    Ok(())
}

/// The values 2, 1, 3 and 4, to be taken from the end on.
fn four_values(alloc: Global) -> Result<Vec<Arc<u64>>, Fail> {
    let mut values = Vec::new(alloc);
    for number in [4u64, 3, 1, 2] {
        values.push(Arc::new(alloc, number)?)?;
    }
    Ok(values)
}

#[test]
fn order_and_knots_stay(rt: HostRuntime) -> Result<(), Fail> {
    let mut values = four_values(rt.alloc())?;
    let mut chain = Chain::new(rt.alloc());
    assert!(rt; make_room(&mut chain, 3) && chain.spare() > 0);
    let two = chain.push_back(values.pop().expect(&rt, "2"));
    assert!(rt; chain.spare() > 0 && chain.has(two));
    let one = chain.insert_before(two, values.pop().expect(&rt, "1"));
    assert!(rt; chain.spare() > 0);
    let three = chain.push_back(values.pop().expect(&rt, "3"));
    assert!(rt; make_room(&mut chain, 3) && chain.has(two) && chain.has(three));
    *chain.get_mut(three) = values.pop().expect(&rt, "4");
    drop(values);
    assert!(rt; chain.has(two) && chain.has(three));
    assert!(rt; **chain.get(three) == 4 && *chain.unlink(two) == 2);
    assert!(rt; chain.has(one) && chain.has(three));
    assert!(rt; chain.first() == Some(one) && chain.after(one) == Some(three));
    assert!(rt; chain.after(three).is_none() && told(&chain) == 1 + 2 * 4);
    assert!(rt; chain.spare() == 4);
    is_send(&chain);
    is_sync(&chain);
    drop(chain);
    Ok(())
}
