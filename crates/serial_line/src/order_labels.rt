//! The labels of a line: one for each item, in the order of the items.
ghost use Rattle.std.specs.Prelude.{◌≡◌, ◌+◌, ◌<◌, ◌≤◌, ◌^◌, IfOk, IfSome, IsTrue, false, insert, is_some, length, remove, take, true, vec_capacity, vec_len};
ghost use Rattle.serial_line.specs.Labels.{AreGivenAnew, AreLabels, IsBetween, LastLeavesRoom, end_leaves_room, has_free, label_at_end, label_before, new_label};

use home_types::NoMemory;
use std::alloc::Global;

/// How far apart labels are given, where there is room.
const APART: u64 = 1 << 32;

/// The greatest label of the first item; that of each further one is by one greater.
const GREATEST: u64 = u64::MAX - APART + 1;

/// The same labels, with room for `n` more and for no more than these.
pub(crate) fn with_room(alloc: Global, labels: &[u64], n: usize) -> Result<Vec<u64>, NoMemory>
    requires few { length labels.now + n < 2 ^ 32 }
    ensures labels { IfOk result (λ more. more.items ≡ labels.now) }
    ensures room { IfOk result (λ more. vec_capacity more ≡ length labels.now + n) }
{
    let Ok(mut more) = Vec::with_capacity(alloc, labels.len() + n) else {
        return Err(NoMemory);
    };
    'labels: for at in 0..labels.len() {
        more.push_reserved(labels[at]);
    }
    Ok(more)
}

/// An item at the place `at` has a label from now on, and the others have theirs. Where none is
/// free between those of its neighbours, all labels from the place `sealed` on are given anew.
pub(crate) fn insert_label(labels: &mut Vec<u64>, at: u32, sealed: u32)
    requires room { vec_len labels.old < vec_capacity labels.old }
    requires few { vec_len labels.old + 1 < 2 ^ 32 }
    requires place { at ≤ vec_len labels.old }
    requires unsealed { sealed ≤ at }
    requires labels { AreLabels labels.old.items }
    ensures labels { AreLabels labels.new.items }
    ensures count { vec_len labels.new ≡ vec_len labels.old + 1 }
    ensures capacity { vec_capacity labels.new ≡ vec_capacity labels.old }
    ensures kept { take sealed labels.new.items ≡ take sealed labels.old.items }
    ensures others { has_free 0 at labels.old.items ≡ true
        → remove labels.new.items at ≡ labels.old.items }
    ensures given { has_free 0 at labels.old.items ≡ true
        → labels.new.items ≡ insert labels.old.items at (new_label at labels.old.items) }
    ensures anew { has_free 0 at labels.old.items ≡ false → AreGivenAnew sealed labels.new.items }
{
    let given = free_label(labels.as_slice(), at);
    let label = given.unwrap_or(0);
    let inserted = labels.insert(at as usize, label);
    inserted.unwrap();
    if given.is_none() {
        give_anew(labels, sealed);
    }
}

/// The item at the place `at` leaves with its label, and the others keep theirs. Where these would
/// leave too little room, all labels from the place `sealed` on are given anew.
pub(crate) fn remove_label(labels: &mut Vec<u64>, at: u32, sealed: u32)
    requires few { vec_len labels.old < 2 ^ 32 }
    requires place { at < vec_len labels.old }
    requires unsealed { sealed ≤ at }
    requires labels { AreLabels labels.old.items }
    ensures labels { AreLabels labels.new.items }
    ensures count { vec_len labels.new + 1 ≡ vec_len labels.old }
    ensures capacity { vec_capacity labels.new ≡ vec_capacity labels.old }
    ensures kept { take sealed labels.new.items ≡ take sealed labels.old.items }
    ensures others { end_leaves_room (remove labels.old.items at) ≡ true
        → labels.new.items ≡ remove labels.old.items at }
    ensures anew { end_leaves_room (remove labels.old.items at) ≡ false
        → AreGivenAnew sealed labels.new.items }
{
    labels.remove(at as usize);
    if !last_leaves_room(labels.as_slice()) {
        give_anew(labels, sealed);
    }
}

/// A label for an item at this place, between those of its neighbours, none where none is free; at
/// the end as far from the last one as labels are given apart.
fn free_label(labels: &[u64], at: u32) -> Option<u64>
    requires few { length labels.now < 2 ^ 32 }
    requires place { at ≤ length labels.now }
    requires labels { AreLabels labels.now }
    ensures free { IfSome result (λ label. IsBetween at label labels.now) }
    ensures given { IfSome result (λ label. label ≡ new_label at labels.now) }
    ensures there { is_some result ≡ has_free 0 at labels.now }
{
    let left = label_before(labels, at);
    if at as usize == labels.len() {
        return Some(next_label(left, at));
    }
    let right = labels[at as usize];
    if right - left > 1 {
        Some(left + (right - left) / 2)
    } else {
        None
    }
}

/// The label before this place, 0 before the first.
fn label_before(labels: &[u64], at: u32) -> u64
    requires place { at ≤ length labels.now }
    ensures { result ≡ label_before 0 at labels.now }
{
    if at == 0 { 0 } else { labels[at as usize - 1] }
}

/// The label for the item at this place, whose left neighbour has the label `left`.
fn next_label(left: u64, at: u32) -> u64
    requires few { at < 2 ^ 32 }
    requires room { left + 2 ^ 32 < 2 ^ 64 + at }
    ensures label { result ≡ label_at_end left at }
    ensures greater { left < result }
    ensures room { result + 2 ^ 32 ≤ 2 ^ 64 + at }
{
    left.saturating_add(APART).min(GREATEST + at as u64)
}

/// Whether the last label leaves room for 2^32 more items.
fn last_leaves_room(labels: &[u64]) -> bool
    requires few { length labels.now < 2 ^ 32 }
    ensures room { IsTrue result → LastLeavesRoom 0 labels.now }
    ensures known { result ≡ end_leaves_room labels.now }
{
    let count = labels.len() as u32;
    count == 0 || label_before(labels, count) <= GREATEST + (count - 1) as u64
}

/// Gives the labels from this place on anew.
fn give_anew(labels: &mut Vec<u64>, from: u32)
    requires few { vec_len labels.old < 2 ^ 32 }
    requires place { from ≤ vec_len labels.old }
    requires before { AreLabels (take from labels.old.items) }
    ensures labels { AreLabels labels.new.items }
    ensures count { vec_len labels.new ≡ vec_len labels.old }
    ensures capacity { vec_capacity labels.new ≡ vec_capacity labels.old }
    ensures kept { take from labels.new.items ≡ take from labels.old.items }
    ensures anew { AreGivenAnew from labels.new.items }
{
    'labels: for at in from..labels.len() as u32 {
        let left = label_before(labels.as_slice(), at);
        labels[at as usize] = next_label(left, at);
    }
}
