//! Lists of the operations that use values of a node. They are where calls look first: nothing is promised of them, and
//! whether they name all users is told by the counts of uses.
use crate::ptr::IRNode;
use std::alloc::Global;

// One entry of a list: the slot of an operation, and the entry behind it.
#[derive(Clone, Copy)]
struct User {
    slot: u32,
    next: u32,
}

/// For each operation and block the slots of operations that came to use its values. Entries are numbered from 1, and 0
/// stands for none. An operation that uses nothing of the node any more may still be in its list.
#[derive(Drop)]
pub(crate) struct Users {
    // The first entry of each list: those of operations at even places, those of blocks at odd ones.
    firsts: Vec<u32>,
    entries: Vec<User>,
    // The first of the entries that are in no list.
    spare: u32,
    // How many uses there are.
    total: usize,
    // Whether the lists were let go, since they had too much that is gone.
    is_let_go: bool,
    alloc: Global,
}

// How many entries there may be beside two for each use and one for each list.
const FEW: usize = 1024;

// Where the first entry of a node's list stands. No region is used.
fn place_of(node: IRNode) -> Option<usize> {
    match node {
        IRNode::Operation(op) => Some(2 * op.slot as usize),
        IRNode::Region(_) => None,
        IRNode::BasicBlock(block) => Some(2 * block.slot as usize + 1),
    }
}

// Fills up with lists without entries to behind a place. Where memory runs out, some are not there.
fn fill_up(firsts: &mut Vec<u32>, place: usize) {
    for _list in firsts.len()..place.saturating_add(1) {
        if firsts.push(0).is_err() {
            return;
        }
    }
}

impl Users {
    /// No lists.
    pub(crate) fn new(alloc: Global) -> Users {
        Users {
            firsts: Vec::new(alloc),
            entries: Vec::new(alloc),
            spare: 0,
            total: 0,
            is_let_go: false,
            alloc,
        }
    }

    // The entry of a number, if there is one.
    fn entry(&self, number: u32) -> Option<User> {
        let place = (number as usize).checked_sub(1)?;
        self.entries.get(place).copied()
    }

    // Changes the entry of a number, if there is one.
    fn set_entry(&mut self, number: u32, entry: User) {
        if number > 0 && number as usize <= self.entries.len() {
            self.entries[number as usize - 1] = entry;
        }
    }

    // Whether entries take more room than uses account for, so that most name what is gone.
    fn has_too_many(&self) -> bool {
        let most = self.total.saturating_mul(2);
        self.entries.len() >= most.saturating_add(self.firsts.len()).saturating_add(FEW)
    }

    // Lets all lists go.
    fn let_go(&mut self) {
        self.firsts.clear();
        self.entries.clear();
        self.spare = 0;
        self.is_let_go = true;
    }

    /// Whether the lists were let go, and nothing is noted any more.
    pub(crate) fn is_let_go(&self) -> bool {
        self.is_let_go
    }

    /// Begins to note users again.
    pub(crate) fn begin_again(&mut self) {
        self.is_let_go = false;
    }

    /// Tells that there is one use more.
    pub(crate) fn count_one(&mut self) {
        self.total = self.total.saturating_add(1);
    }

    /// Tells that there is one use fewer.
    pub(crate) fn count_off(&mut self) {
        self.total = self.total.saturating_sub(1);
    }

    // The number of an entry that is spare or new, and holds this now; 0 where there is no memory for one.
    fn take(&mut self, entry: User) -> u32 {
        let number = self.spare;
        if let Some(spare) = self.entry(number) {
            self.spare = spare.next;
            self.set_entry(number, entry);
            return number;
        }
        let count = self.entries.len();
        if count >= u32::MAX as usize || self.entries.push(entry).is_err() {
            return 0;
        }
        count as u32 + 1
    }

    // The first entry of the list at a place.
    fn first_at(&self, place: usize) -> u32 {
        match self.firsts.get(place) {
            Some(first) => *first,
            None => 0,
        }
    }

    // Makes an entry the first of the list at a place, if there is one.
    fn set_first(&mut self, place: usize, number: u32) {
        if place < self.firsts.len() {
            self.firsts[place] = number;
        }
    }

    // Whether the list that begins with an entry begins with an operation.
    fn begins_with(&self, first: u32, slot: u32) -> bool {
        match self.entry(first) {
            Some(user) => user.slot == slot,
            None => false,
        }
    }

    /// Puts an operation at the head of a node's list, unless it is there. Where there is no memory for it, it is not;
    /// where it would be one entry too many, all lists are let go.
    pub(crate) fn note(&mut self, node: IRNode, slot: u32) {
        if self.spare == 0 && self.has_too_many() {
            self.let_go();
        }
        if !self.is_let_go {
            self.put(node, slot);
        }
    }

    // Puts an operation at the head of a node's list, unless it is there.
    fn put(&mut self, node: IRNode, slot: u32) {
        let Some(place) = place_of(node) else {
            return;
        };
        let first = self.first_at(place);
        if self.begins_with(first, slot) {
            return;
        }
        fill_up(&mut self.firsts, place);
        if place < self.firsts.len() {
            let number = self.take(User { slot, next: first });
            self.set_first(place, number);
        }
    }

    // Makes the entry of a number a spare one, and tells the one that was behind it.
    fn give_back(&mut self, number: u32) -> u32 {
        match self.entry(number) {
            Some(user) => {
                let next = self.spare;
                self.set_entry(number, User { slot: 0, next });
                self.spare = number;
                user.next
            }
            None => 0,
        }
    }

    /// Empties a node's list.
    pub(crate) fn clear(&mut self, node: IRNode) {
        let Some(place) = place_of(node) else {
            return;
        };
        let mut at = self.first_at(place);
        self.set_first(place, 0);
        for _entry in 0..self.entries.len() {
            if at == 0 {
                return;
            }
            at = self.give_back(at);
        }
    }

    /// The slots that a node's list names, in ascending order; none where there is no memory for them.
    pub(crate) fn slots(&self, node: IRNode) -> Vec<u32> {
        let mut slots = Vec::new(self.alloc);
        let mut at = self.first(node);
        for _entry in 0..self.entries.len() {
            let Some(user) = self.entry(at) else {
                break;
            };
            if slots.push(user.slot).is_err() {
                break;
            }
            at = user.next;
        }
        slots.sort_unstable();
        slots
    }

    /// How many entries there are, spare ones among them: no list has more.
    pub(crate) fn num_entries(&self) -> usize {
        self.entries.len()
    }

    /// The number of the first entry of a node's list.
    pub(crate) fn first(&self, node: IRNode) -> u32 {
        match place_of(node) {
            Some(place) => self.first_at(place),
            None => 0,
        }
    }

    /// The slot that the entry of a number names, and the number of the entry behind it, if there is such an entry.
    pub(crate) fn user(&self, number: u32) -> Option<(u32, u32)> {
        match self.entry(number) {
            Some(user) => Some((user.slot, user.next)),
            None => None,
        }
    }
}
