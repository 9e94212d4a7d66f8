//! What no clause says: that the calls succeed, and what they do in worked examples.
ghost use Rattle.std.specs.Prelude.{◌≡◌, ◌<◌, ◌↔◌, IfOk, None, IsTrue, length};
ghost use Rattle.plir_store.specs.Lists.{parent_at};

use plir_store::chains::Chains;
use plir_store::few::Few;
use plir_store::slots::Slots;
use std::alloc::{AllocError, Global};
use std::fmt::Debug;
use std::process::Abort;
use std::test::Fail;

// Two values are the same.
fn equal<T: PartialEq + Debug + Drop>(rt: &impl Abort, found: T, wanted: T) {
    assert_eq!(rt; found, wanted);
}

// Puts a value into the next slot, once more where memory was refused, and returns the slot and its version.
fn put(rt: &impl Abort, slots: &mut Slots<u32>, value: u32) -> Result<(u32, u32), Fail> {
    let (len, live, next) = (slots.len(), slots.live(), slots.next_slot());
    assert!(rt; slots.next_slot() < 100);
    assert!(rt; slots.live() < 100);
    let index = match slots.insert(value) {
        Ok(index) => index,
        Err(back) => {
            equal(rt, back, value);
            equal(rt, slots.len(), len);
            equal(rt, slots.live(), live);
            equal(rt, slots.next_slot(), next);
            assert!(rt; slots.next_slot() < 100);
            assert!(rt; slots.live() < 100);
            slots.insert(back).map_err(|_| AllocError)?
        }
    };
    assert!(rt; (index as usize) < slots.len());
    Ok((index, slots.version(index)))
}

// Takes the value out of a slot that holds one under this version.
fn take(rt: &impl Abort, slots: &mut Slots<u32>, index: u32, version: u32) -> u32 {
    assert!(rt; slots.is_live(index, version));
    slots.remove(index)
}

// Puts a value into the next slot, which has this number and gets this version.
fn puts(
    rt: &impl Abort,
    slots: &mut Slots<u32>,
    value: u32,
    index: u32,
    version: u32,
) -> Result<(), Fail> {
    let (slot, given) = put(rt, slots, value)?;
    equal(rt, slot, index);
    equal(rt, given, version);
    Ok(())
}

// Takes this value out of a slot.
fn takes(rt: &impl Abort, slots: &mut Slots<u32>, index: u32, version: u32, value: u32) {
    equal(rt, take(rt, slots, index, version), value);
}

// The next slot has this number, and is a new one or not.
fn has_next(rt: &impl Abort, slots: &Slots<u32>, index: usize, is_new: bool) {
    equal(rt, slots.next_slot(), index);
    equal(rt, slots.needs_slot(), is_new);
}

// There are so many slots, so many of which hold a value.
fn holds(rt: &impl Abort, slots: &Slots<u32>, len: usize, live: u32) {
    equal(rt, slots.len(), len);
    equal(rt, slots.live(), live);
}

// A slot holds a value under this version, or it does not.
fn is_live(rt: &impl Abort, slots: &Slots<u32>, index: u32, version: u32, wanted: bool) {
    equal(rt, slots.is_live(index, version), wanted);
}

// Another value for a slot, which then holds that one.
fn changes(rt: &impl Abort, slots: &mut Slots<u32>, index: u32, version: u32, value: u32) {
    assert!(rt; slots.is_live(index, version));
    *slots.get_mut(index) = value;
    assert!(rt; slots.is_live(index, version));
    equal(rt, *slots.get(index), value);
}

// Slots as they are filled and freed in turn.
fn fill_and_free(rt: &impl Abort, slots: &mut Slots<u32>) -> Result<(), Fail> {
    puts(rt, slots, 10, 0, 1)?;
    puts(rt, slots, 11, 1, 1)?;
    puts(rt, slots, 12, 2, 1)?;
    takes(rt, slots, 0, 1, 10);
    takes(rt, slots, 2, 1, 12);
    has_next(rt, slots, 2, false);
    puts(rt, slots, 13, 2, 2)?;
    puts(rt, slots, 14, 0, 2)?;
    has_next(rt, slots, 3, true);
    puts(rt, slots, 15, 3, 1)?;
    Ok(())
}

#[test]
fn uses_the_slot_freed_last_first_where_memory_is_refused(rt: HostRuntime) -> Result<(), Fail> {
    let mut slots = Slots::new(rt.alloc());
    fill_and_free(&rt, &mut slots)?;
    holds(&rt, &slots, 4, 4);
    is_live(&rt, &slots, 2, 1, false);
    is_live(&rt, &slots, 9, 1, false);
    changes(&rt, &mut slots, 2, 2, 33);
    Ok(())
}

// One more list, or one more child, once more where memory was refused.
fn add_list(rt: &impl Abort, chains: &mut Chains) -> Result<(), Fail> {
    let before = chains.num_lists();
    assert!(rt; before < 100);
    if chains.add_list().is_err() {
        equal(rt, chains.num_lists(), before);
        chains.add_list()?;
    }
    Ok(())
}

fn add_child(rt: &impl Abort, chains: &mut Chains) -> Result<(), Fail> {
    let before = chains.num_children();
    assert!(rt; before < 100);
    if chains.add_child().is_err() {
        equal(rt, chains.num_children(), before);
        chains.add_child()?;
    }
    Ok(())
}

// One more list, or one more child, if it is needed, once more where memory was refused.
fn add_list_if(rt: &impl Abort, chains: &mut Chains, needed: bool) -> Result<(), Fail> {
    let before = chains.num_lists();
    assert!(rt; before < 100);
    if chains.add_list_if(needed).is_err() {
        equal(rt, chains.num_lists(), before);
        chains.add_list_if(needed)?;
    }
    Ok(())
}

fn add_child_if(rt: &impl Abort, chains: &mut Chains, needed: bool) -> Result<(), Fail> {
    let before = chains.num_children();
    assert!(rt; before < 100);
    if chains.add_child_if(needed).is_err() {
        equal(rt, chains.num_children(), before);
        chains.add_child_if(needed)?;
    }
    Ok(())
}

// One more list and one more child if they are needed.
fn add_if(rt: &impl Abort, chains: &mut Chains, needed: bool) -> Result<(), Fail> {
    add_list_if(rt, chains, needed)?;
    add_child_if(rt, chains, needed)
}

// There are so many lists and so many children.
fn has(rt: &impl Abort, chains: &Chains, lists: usize, children: usize) {
    equal(rt, chains.num_lists(), lists);
    equal(rt, chains.num_children(), children);
}

#[test]
fn adds_what_is_needed_where_memory_is_refused(rt: HostRuntime) -> Result<(), Fail> {
    let mut chains = Chains::new(rt.alloc());
    add_if(&rt, &mut chains, false)?;
    has(&rt, &chains, 0, 0);
    add_if(&rt, &mut chains, true)?;
    add_if(&rt, &mut chains, true)?;
    has(&rt, &chains, 2, 2);
    Ok(())
}

// A child stands in this list.
fn is_in(rt: &impl Abort, chains: &Chains, list: u32, child: u32) {
    assert!(rt; (child as usize) < chains.num_children());
    assert!(rt; chains.parent(child) == Some(list));
}

// The child after one, or before one.
fn next(rt: &impl Abort, chains: &Chains, child: u32) -> Option<u32> {
    assert!(rt; (child as usize) < chains.num_children());
    chains.next(child)
}

fn prev(rt: &impl Abort, chains: &Chains, child: u32) -> Option<u32> {
    assert!(rt; (child as usize) < chains.num_children());
    chains.prev(child)
}

// The list has these children, read from its start, and from its end.
fn reads_on(rt: &impl Abort, chains: &Chains, list: u32, want: &[u32]) {
    assert!(rt; (list as usize) < chains.num_lists());
    let mut at = chains.first(list);
    for child in want {
        assert!(rt; at == Some(*child));
        is_in(rt, chains, list, *child);
        at = next(rt, chains, *child);
    }
    assert!(rt; at.is_none());
}

fn reads_back(rt: &impl Abort, chains: &Chains, list: u32, want: &[u32]) {
    assert!(rt; (list as usize) < chains.num_lists());
    let mut at = chains.last(list);
    for child in want {
        assert!(rt; at == Some(*child));
        at = prev(rt, chains, *child);
    }
    assert!(rt; at.is_none());
}

// The child is there, and in no list.
fn is_loose(chains: &Chains, child: u32) -> bool
    ensures { IsTrue result ↔ ((child < length chains.now.parents) × (parent_at chains.now child ≡ None)) }
{
    (child as usize) < chains.num_children() && chains.parent(child).is_none()
}

// Puts a child that is in no list to the front of a list, or to its back.
fn push_front(rt: &impl Abort, chains: &mut Chains, list: u32, child: u32) {
    assert!(rt; (list as usize) < chains.num_lists());
    assert!(rt; is_loose(chains, child));
    chains.push_front(list, child);
}

fn push_back(rt: &impl Abort, chains: &mut Chains, list: u32, child: u32) {
    assert!(rt; (list as usize) < chains.num_lists());
    assert!(rt; is_loose(chains, child));
    chains.push_back(list, child);
}

// Puts a child that is in no list before another one, or after it.
fn insert_before(rt: &impl Abort, chains: &mut Chains, child: u32, mark: u32) {
    assert!(rt; is_loose(chains, child));
    assert!(rt; (mark as usize) < chains.num_children());
    chains.insert_before(child, mark);
}

fn insert_after(rt: &impl Abort, chains: &mut Chains, child: u32, mark: u32) {
    assert!(rt; is_loose(chains, child));
    assert!(rt; (mark as usize) < chains.num_children());
    chains.insert_after(child, mark);
}

// Takes children out of their list.
fn remove(rt: &impl Abort, chains: &mut Chains, children: &[u32]) {
    for child in children {
        assert!(rt; (*child as usize) < chains.num_children());
        chains.remove(*child);
    }
}

// Lets the last child go, which is in no list.
fn drop_child(rt: &impl Abort, chains: &mut Chains) {
    assert!(rt; chains.num_children() == 5);
    assert!(rt; is_loose(chains, 4));
    chains.drop_child();
}

// Lets the last list go, which is empty.
fn drop_list(rt: &impl Abort, chains: &mut Chains) {
    assert!(rt; chains.num_lists() == 2);
    assert!(rt; chains.is_empty(1));
    chains.drop_list();
}

// Two lists and five children.
fn add_all(rt: &impl Abort, chains: &mut Chains) -> Result<(), Fail> {
    add_list(rt, chains)?;
    add_list(rt, chains)?;
    for _ in 0..5 {
        add_child(rt, chains)?;
    }
    Ok(())
}

#[test]
fn links_children_in_order_where_memory_is_refused(rt: HostRuntime) -> Result<(), Fail> {
    let mut chains = Chains::new(rt.alloc());
    add_all(&rt, &mut chains)?;
    push_back(&rt, &mut chains, 0, 1);
    push_front(&rt, &mut chains, 0, 0);
    push_back(&rt, &mut chains, 0, 3);
    insert_before(&rt, &mut chains, 2, 3);
    insert_after(&rt, &mut chains, 4, 3);
    reads_on(&rt, &chains, 0, &[0, 1, 2, 3, 4]);
    reads_back(&rt, &chains, 0, &[4, 3, 2, 1, 0]);
    remove(&rt, &mut chains, &[2, 0, 4]);
    reads_on(&rt, &chains, 0, &[1, 3]);
    reads_back(&rt, &chains, 0, &[3, 1]);
    drop_child(&rt, &mut chains);
    push_front(&rt, &mut chains, 1, 2);
    reads_on(&rt, &chains, 1, &[2]);
    remove(&rt, &mut chains, &[2]);
    drop_list(&rt, &mut chains);
    has(&rt, &chains, 1, 4);
    Ok(())
}

// The list of these items.
fn make_list(alloc: Global, items: &[u32]) -> Result<Few<u32>, AllocError>
    ensures { IfOk result (λ l. l ≡ items.now) }
{
    Few::from_vec(Vec::from_slice(alloc, items)?)
}

// The same, made once more where memory was refused.
fn list_of(alloc: Global, items: &[u32]) -> Result<Few<u32>, AllocError>
    ensures { IfOk result (λ l. l ≡ items.now) }
{
    match make_list(alloc, items) {
        Ok(list) => Ok(list),
        Err(_) => make_list(alloc, items),
    }
}

// A list of these items holds them.
fn holds_items(rt: &impl Abort, alloc: Global, items: &[u32]) -> Result<(), Fail> {
    let list = list_of(alloc, items)?;
    equal(rt, list.len(), items.len());
    assert!(rt; list.as_slice() == items);
    Ok(())
}

#[test]
fn lists_hold_what_they_are_made_of_where_memory_is_refused(rt: HostRuntime) -> Result<(), Fail> {
    holds_items(&rt, rt.alloc(), &[])?;
    holds_items(&rt, rt.alloc(), &[7])?;
    holds_items(&rt, rt.alloc(), &[7, 8, 9])
}

// An item of a list of these items is found by its place.
fn finds(rt: &impl Abort, alloc: Global, items: &[u32], place: usize) -> Result<(), Fail> {
    let list = make_list(alloc, items)?;
    equal(rt, list.len(), items.len());
    assert!(rt; place < list.len());
    assert!(rt; place < items.len());
    equal(rt, list.get(place), items[place]);
    Ok(())
}

#[test]
fn items_of_a_list_are_found_by_index(rt: HostRuntime) -> Result<(), Fail> {
    finds(&rt, rt.alloc(), &[7], 0)?;
    finds(&rt, rt.alloc(), &[7, 8, 9], 1)
}

#[test]
fn an_item_is_put_in_place_of_another(rt: HostRuntime) -> Result<(), Fail> {
    let mut one = list_of(rt.alloc(), &[7])?;
    one.set(0, 5);
    equal(&rt, one.as_slice(), [5].as_slice());
    let mut three = list_of(rt.alloc(), &[7, 8, 9])?;
    three.set(1, 5);
    equal(&rt, three.as_slice(), [7, 5, 9].as_slice());
    Ok(())
}
