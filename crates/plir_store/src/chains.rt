//! Doubly linked lists of numbered children under numbered parents, whose links lie in two vectors.
ghost use Rattle.std.specs.Prelude.{◌≡◌, ℕ, ◌+◌, ◌-◌, ◌<◌, ◌^◌, List, [], length, cond, None, IfSome, IsTrue, ◌↔◌};
ghost use Rattle.std.specs.Prelude.{slice_set, OnOk, OnErr};
ghost use Rattle.plir_store.specs.Members.{head};
ghost use Rattle.plir_store.specs.Lists.{Lists, children_at, parent_at, last_of, next_of, prev_of, with_first};
ghost use Rattle.plir_store.specs.Lists.{with_last};
ghost use Rattle.plir_store.specs.Lists.{with_before, with_after, without_child, with_list, with_child};
ghost use Rattle.plir_store.specs.Lists.{without_last_list, without_last_child, IsAgreed};
ghost use Rattle.plir_store.specs.Links.{put_first, put_last, put_next, put_prev, no_link, no_ends, ends_in, links_in};
ghost use Rattle.plir_store.specs.Links.{ends_out, links_out};

use crate::hop::Hop;
use std::alloc::{AllocError, Global};
use std::marker::Model;

// Where a child stands: its neighbours and its parent.
#[derive(Clone, Copy)]
struct Link {
    prev: Hop,
    next: Hop,
    parent: Hop,
}

// The first and the last child of a parent.
#[derive(Clone, Copy)]
struct Ends {
    first: Hop,
    last: Hop,
}

impl Link {
    // The link of a child in no list.
    fn loose() -> Link
        ensures { result ≡ no_link }
    {
        Link {
            prev: Hop::none(),
            next: Hop::none(),
            parent: Hop::none(),
        }
    }
}

impl Ends {
    // The ends of a list with no child.
    fn empty() -> Ends
        ensures { result ≡ no_ends }
    {
        Ends {
            first: Hop::none(),
            last: Hop::none(),
        }
    }
}

/// Lists of numbered children, one list for each numbered parent.
///
/// Parents and children are numbered from 0, each kind by itself, and there are at most 4294967295 of each. A child
/// stands in one list at most, and once there.
#[derive(Drop)]
pub struct Chains {
    ends: Vec<Ends>,
    links: Vec<Link>,
}

impl Model for Chains {
    ghost use Rattle.plir_store.specs.Lists.{Lists};

    ghost Value = { Lists };

    ghost use Rattle.plir_store.specs.Links.{lists_of, IsLinked, children_of};

    ghost view = { λ c. lists_of c.ends.items c.links.items };

    ghost invariant = { λ c. IsLinked c.ends.items c.links.items (children_of c.ends.items c.links.items) };
}

// Makes `next` follow the place `at` of a list, which for none is the list's head.
fn put_after(ends: &mut Vec<Ends>, links: &mut Vec<Link>, list: u32, at: Hop, next: Hop)
    requires list_in { list < length ends.old.items }
    requires at_in { IfSome at (λ x. x < length links.old.items) }
    ensures ends { ends.new.items ≡ put_first ends.old.items list at next }
    ensures links { links.new.items ≡ put_next links.old.items at next }
{
    match at.get() {
        None => {
            let e = &mut ends[list as usize];
            e.first = next;
        }
        Some(x) => {
            let l = &mut links[x as usize];
            l.next = next;
        }
    }
}

// Makes `prev` stand before the place `at` of a list, which for none is the list's tail.
fn put_before(ends: &mut Vec<Ends>, links: &mut Vec<Link>, list: u32, at: Hop, prev: Hop)
    requires list_in { list < length ends.old.items }
    requires at_in { IfSome at (λ x. x < length links.old.items) }
    ensures ends { ends.new.items ≡ put_last ends.old.items list at prev }
    ensures links { links.new.items ≡ put_prev links.old.items at prev }
{
    match at.get() {
        None => {
            let e = &mut ends[list as usize];
            e.last = prev;
        }
        Some(x) => {
            let l = &mut links[x as usize];
            l.prev = prev;
        }
    }
}

// Writes a child's link.
fn put_link(links: &mut Vec<Link>, child: u32, link: Link)
    requires { child < length links.old.items }
    ensures { links.new.items ≡ slice_set links.old.items child link }
{
    links[child as usize] = link;
}

// Puts a child into a list between two neighbours, of which none is an end of the list.
fn put_between(
    ends: &mut Vec<Ends>,
    links: &mut Vec<Link>,
    list: u32,
    child: u32,
    prev: Hop,
    next: Hop,
)
    requires list_in { list < length ends.old.items }
    requires child_in { child < length links.old.items }
    requires prev_in { IfSome prev (λ x. x < length links.old.items) }
    requires next_in { IfSome next (λ x. x < length links.old.items) }
    requires list_fits { list < 2 ^ 32 - 1 }
    requires child_fits { child < 2 ^ 32 - 1 }
    ensures ends { ends.new.items ≡ ends_in ends.old.items list child prev next }
    ensures links { links.new.items ≡ links_in links.old.items list child prev next }
{
    let hop = Hop::to(child);
    let parent = Hop::to(list);
    put_link(links, child, Link { prev, next, parent });
    put_after(ends, links, list, prev, hop);
    put_before(ends, links, list, next, hop);
}

// Takes a child out of a list from between its two neighbours, of which none is an end of the list.
fn take_out(
    ends: &mut Vec<Ends>,
    links: &mut Vec<Link>,
    list: u32,
    child: u32,
    prev: Hop,
    next: Hop,
)
    requires list_in { list < length ends.old.items }
    requires child_in { child < length links.old.items }
    requires prev_in { IfSome prev (λ x. x < length links.old.items) }
    requires next_in { IfSome next (λ x. x < length links.old.items) }
    ensures ends { ends.new.items ≡ ends_out ends.old.items list prev next }
    ensures links { links.new.items ≡ links_out links.old.items child prev next }
{
    put_after(ends, links, list, prev, next);
    put_before(ends, links, list, next, prev);
    put_link(links, child, Link::loose());
}

impl Chains {
    /// No parent and no child, and no memory taken.
    pub fn new(alloc: Global) -> Self
        ensures empty { result ≡ record { children = []; parents = [] } }
        ensures agreed { IsAgreed result }
    {
        Chains {
            ends: Vec::new(alloc),
            links: Vec::new(alloc),
        }
    }

    /// How many parents there are.
    pub fn num_lists(&self) -> usize
        ensures value { result ≡ length self.now.children }
        ensures agreed { IsAgreed self.now }
    {
        self.ends.len()
    }

    /// How many children there are, those in no list among them.
    pub fn num_children(&self) -> usize
        ensures value { result ≡ length self.now.parents }
        ensures agreed { IsAgreed self.now }
    {
        self.links.len()
    }

    /// The parent in whose list the child stands, if it is in one.
    pub fn parent(&self, child: u32) -> Option<u32>
        requires { child < length self.now.parents }
        ensures value { result ≡ parent_at self.now child }
        ensures within { IfSome result (λ p. p < length self.now.children) }
        ensures agreed { IsAgreed self.now }
    {
        self.links[child as usize].parent.get()
    }

    /// Whether a list has no child.
    pub fn is_empty(&self, list: u32) -> bool
        requires { list < length self.now.children }
        ensures value { IsTrue result ↔ (children_at self.now list ≡ []) }
        ensures agreed { IsAgreed self.now }
    {
        match self.ends[list as usize].first.get() {
            None => true,
            Some(_) => false,
        }
    }

    /// The first child of a list.
    pub fn first(&self, list: u32) -> Option<u32>
        requires { list < length self.now.children }
        ensures value { result ≡ head (children_at self.now list) }
        ensures within { IfSome result (λ c. c < length self.now.parents) }
        ensures agreed { IsAgreed self.now }
    {
        self.ends[list as usize].first.get()
    }

    /// The last child of a list.
    pub fn last(&self, list: u32) -> Option<u32>
        requires { list < length self.now.children }
        ensures value { result ≡ last_of (children_at self.now list) }
        ensures within { IfSome result (λ c. c < length self.now.parents) }
        ensures agreed { IsAgreed self.now }
    {
        self.ends[list as usize].last.get()
    }

    /// What follows the child in its list. A child in no list has nothing after it.
    pub fn next(&self, child: u32) -> Option<u32>
        requires { child < length self.now.parents }
        ensures value { result ≡ next_of self.now child }
        ensures within { IfSome result (λ c. c < length self.now.parents) }
        ensures agreed { IsAgreed self.now }
    {
        self.links[child as usize].next.get()
    }

    /// What stands before the child in its list. A child in no list has nothing before it.
    pub fn prev(&self, child: u32) -> Option<u32>
        requires { child < length self.now.parents }
        ensures value { result ≡ prev_of self.now child }
        ensures within { IfSome result (λ c. c < length self.now.parents) }
        ensures agreed { IsAgreed self.now }
    {
        self.links[child as usize].prev.get()
    }

    /// One more parent, with no child. The error is that memory ran out.
    pub fn add_list(&mut self) -> Result<(), AllocError>
        requires room { length self.old.children < 2 ^ 32 - 1 }
        ensures ok { OnOk result (self.new ≡ with_list self.old) }
        ensures err { OnErr result (self.new ≡ self.old) }
        ensures agreed { IsAgreed self.new }
    {
        self.ends.push(Ends::empty())?;
        Ok(())
    }

    /// One more child, in no list. The error is that memory ran out.
    pub fn add_child(&mut self) -> Result<(), AllocError>
        requires room { length self.old.parents < 2 ^ 32 - 1 }
        ensures ok { OnOk result (self.new ≡ with_child self.old) }
        ensures err { OnErr result (self.new ≡ self.old) }
        ensures agreed { IsAgreed self.new }
    {
        self.links.push(Link::loose())?;
        Ok(())
    }

    /// One more parent, if one is needed. The error is that memory ran out.
    pub fn add_list_if(&mut self, needed: bool) -> Result<(), AllocError>
        requires room { IsTrue needed → length self.old.children < 2 ^ 32 - 1 }
        ensures ok { OnOk result (self.new ≡ cond needed (with_list self.old) self.old) }
        ensures err { OnErr result (self.new ≡ self.old) }
        ensures agreed { IsAgreed self.new }
    {
        if needed {
            self.add_list()
        } else {
            self.checked()
        }
    }

    /// One more child, if one is needed. The error is that memory ran out.
    pub fn add_child_if(&mut self, needed: bool) -> Result<(), AllocError>
        requires room { IsTrue needed → length self.old.parents < 2 ^ 32 - 1 }
        ensures ok { OnOk result (self.new ≡ cond needed (with_child self.old) self.old) }
        ensures err { OnErr result (self.new ≡ self.old) }
        ensures agreed { IsAgreed self.new }
    {
        if needed {
            self.add_child()
        } else {
            self.checked()
        }
    }

    // Nothing changes.
    fn checked(&mut self) -> Result<(), AllocError>
        ensures ok { OnOk result (self.new ≡ self.old) }
        ensures err { OnErr result (self.new ≡ self.old) }
        ensures agreed { IsAgreed self.new }
    {
        let _ends = &self.ends;
        Ok(())
    }

    /// One parent less: the last, which has no child.
    pub fn drop_list(&mut self)
        requires some { 0 < length self.old.children }
        requires empty { children_at self.old (length self.old.children - 1) ≡ [] }
        ensures after { self.new ≡ without_last_list self.old }
        ensures agreed { IsAgreed self.new }
    {
        self.ends.truncate(self.ends.len() - 1);
    }

    /// One child less: the last, which is in no list.
    pub fn drop_child(&mut self)
        requires some { 0 < length self.old.parents }
        requires loose { parent_at self.old (length self.old.parents - 1) ≡ None }
        ensures after { self.new ≡ without_last_child self.old }
        ensures agreed { IsAgreed self.new }
    {
        self.links.truncate(self.links.len() - 1);
    }

    /// Puts a child at the start of a list.
    pub fn push_front(&mut self, list: u32, child: u32)
        requires list_in { list < length self.old.children }
        requires child_in { child < length self.old.parents }
        requires loose { parent_at self.old child ≡ None }
        ensures after { self.new ≡ with_first self.old list child }
        ensures agreed { IsAgreed self.new }
    {
        let first = self.ends[list as usize].first;
        put_between(
            &mut self.ends,
            &mut self.links,
            list,
            child,
            Hop::none(),
            first,
        );
    }

    /// Puts a child at the end of a list.
    pub fn push_back(&mut self, list: u32, child: u32)
        requires list_in { list < length self.old.children }
        requires child_in { child < length self.old.parents }
        requires loose { parent_at self.old child ≡ None }
        ensures after { self.new ≡ with_last self.old list child }
        ensures agreed { IsAgreed self.new }
    {
        let last = self.ends[list as usize].last;
        put_between(
            &mut self.ends,
            &mut self.links,
            list,
            child,
            last,
            Hop::none(),
        );
    }

    /// Puts a child before another that is in a list. Where the other is in none, nothing changes.
    pub fn insert_before(&mut self, child: u32, mark: u32)
        requires child_in { child < length self.old.parents }
        requires mark_in { mark < length self.old.parents }
        requires loose { parent_at self.old child ≡ None }
        ensures after { self.new ≡ with_before self.old child mark }
        ensures agreed { IsAgreed self.new }
    {
        let at = self.links[mark as usize];
        if let Some(list) = at.parent.get() {
            let next = Hop::to(mark);
            put_between(&mut self.ends, &mut self.links, list, child, at.prev, next);
        }
    }

    /// Puts a child after another that is in a list. Where the other is in none, nothing changes.
    pub fn insert_after(&mut self, child: u32, mark: u32)
        requires child_in { child < length self.old.parents }
        requires mark_in { mark < length self.old.parents }
        requires loose { parent_at self.old child ≡ None }
        ensures after { self.new ≡ with_after self.old child mark }
        ensures agreed { IsAgreed self.new }
    {
        let at = self.links[mark as usize];
        if let Some(list) = at.parent.get() {
            let prev = Hop::to(mark);
            put_between(&mut self.ends, &mut self.links, list, child, prev, at.next);
        }
    }

    /// Takes a child out of its list, if it is in one.
    pub fn remove(&mut self, child: u32)
        requires { child < length self.old.parents }
        ensures after { self.new ≡ without_child self.old child }
        ensures agreed { IsAgreed self.new }
    {
        let link = self.links[child as usize];
        if let Some(list) = link.parent.get() {
            take_out(
                &mut self.ends,
                &mut self.links,
                list,
                child,
                link.prev,
                link.next,
            );
        }
    }
}
