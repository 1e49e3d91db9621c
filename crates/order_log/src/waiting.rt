// By node, the accesses that have their places and are not retired.
ghost use Rattle.std.specs.Prelude.{◌≡◌, ℕ, ◌+◌, ◌<◌, ◌≤◌, ◌++◌, ◌∷◌, [], IfOk, IsOk, OnOk, OnErr, length, max, replicate, slice_set, vec_len, vec_capacity};
ghost use Rattle.order_log.specs.Entries as listed;

use crate::span::Span;
use rsim_base::{NoMemory, Node};
use std::alloc::{AllocError, Global};
use std::marker::Model;

/// An access that has its place and is not retired: its processor, its number there, and the number of its slot.
#[derive(Clone, Copy, Debug, PartialEq, Eq)]
pub(crate) struct Entry {
    pub(crate) node: Node,
    pub(crate) index: u32,
    pub(crate) slot: u64,
}

impl Entry {
    /// Whether it is of the node, and in the span.
    pub(crate) fn is_meant(&self, node: Node, span: Span) -> bool
        ensures { result ≡ listed.is_meant node.0 span self.now.node.0 self.now.index }
    {
        self.node == node && span.includes(self.index)
    }
}

/// The accesses that wait to be retired, in a few lists: all those of a node are in the list of its number modulo the
/// number of lists. With as many lists as nodes each has its own.
#[derive(Drop)]
pub(crate) struct WaitingLists {
    lists: Vec<Vec<Entry>>,
    // Each list has room for so many more.
    spare: u32,
}

impl Model for WaitingLists {
    ghost use Rattle.order_log.specs.Entries.{ListsView, items_of, AreRoomy};

    ghost Value = { ListsView };

    ghost view = { λ w. record { lists = items_of w.lists.items; spare = w.spare } };

    ghost invariant = { λ w. AreRoomy w.spare w.lists.items };
}

impl WaitingLists {
    /// So many empty lists, and at least one.
    ///
    /// # Errors
    /// Where memory is short.
    pub(crate) fn make(alloc: Global, count: u32) -> Result<WaitingLists, NoMemory>
        ensures { IfOk result (λ w. w.lists ≡ replicate (max count 1) []) }
    {
        let lists = empty_lists(alloc, count.max(1)).map_err(|_| NoMemory)?;
        Ok(WaitingLists { lists, spare: 0 })
    }

    /// Makes room in each list for so many entries more.
    ///
    /// # Errors
    /// Where memory is short for room that is not there yet. Then nothing changes.
    pub(crate) fn reserve(&mut self, n: u32) -> Result<(), NoMemory>
        ensures lists { self.new.lists ≡ self.old.lists }
        ensures spare { self.old.spare ≤ self.new.spare }
        ensures ok { OnOk result (n ≤ self.new.spare) }
        ensures succeeds { n ≤ self.old.spare → IsOk result }
        ensures err { OnErr result (self.new ≡ self.old) }
    {
        if n <= self.spare {
            return Ok(());
        }
        reserve_each(&mut self.lists, n as usize).map_err(|_| NoMemory)?;
        self.spare = n;
        Ok(())
    }

    /// The list that has the entries of a node, in the order in which they came.
    pub(crate) fn list_of(&self, node: Node) -> &[Entry]
        ensures { result.now ≡ listed.list_of node.0 self.now.lists }
    {
        let at = self.number_of(node);
        &self.lists[at]
    }

    /// Puts an entry at the end of the list of its node.
    pub(crate) fn push(&mut self, entry: Entry)
        requires { 0 < self.old.spare }
        ensures lists { self.new.lists
            ≡ slice_set self.old.lists (listed.list_number entry.node.0 self.old.lists) (listed.list_of entry.node.0 self.old.lists ++ entry ∷ []) }
        ensures spare { self.old.spare ≡ self.new.spare + 1 }
    {
        let at = self.number_of(entry.node);
        push_entry(&mut self.lists[at], entry);
        self.spare -= 1;
    }

    /// Takes the entries out that are of the node and in the span.
    pub(crate) fn remove(&mut self, node: Node, span: Span)
        ensures lists { self.new.lists
            ≡ slice_set self.old.lists (listed.list_number node.0 self.old.lists) (listed.without node.0 span (listed.list_of node.0 self.old.lists)) }
        ensures spare { self.new.spare ≡ self.old.spare }
    {
        let at = self.number_of(node);
        remove_entries(&mut self.lists[at], node, span);
    }

    // Which list has the entries of a node.
    fn number_of(&self, node: Node) -> usize
        ensures number { result ≡ listed.list_number node.0 self.now.lists }
        ensures within { result < length self.now.lists }
    {
        node.0 as usize % self.lists.len()
    }
}

fn empty_lists(alloc: Global, count: u32) -> Result<Vec<Vec<Entry>>, AllocError>
    ensures lists { IfOk result (λ lists. listed.items_of lists.items ≡ replicate count []) }
    ensures room { IfOk result (λ lists. listed.HaveRoom 0 lists.items) }
{
    let mut lists = Vec::new(alloc);
    for _ in 0..count {
        lists.push(Vec::new(alloc)).map_err(|_| AllocError)?;
    }
    Ok(lists)
}

// Makes room in each list. Where one cannot have it, those before it have it already.
fn reserve_each(lists: &mut Vec<Vec<Entry>>, n: usize) -> Result<(), AllocError>
    ensures items { listed.items_of lists.new.items ≡ listed.items_of lists.old.items }
    ensures room { OnOk result (listed.HaveRoom n lists.new.items) }
    ensures kept { (s : ℕ) → listed.HaveRoom s lists.old.items → listed.HaveRoom s lists.new.items }
{
    for at in 0..lists.len() {
        lists[at].reserve(n)?;
    }
    Ok(())
}

fn push_entry(list: &mut Vec<Entry>, entry: Entry)
    requires { vec_len list.old < vec_capacity list.old }
    ensures items { list.new.items ≡ list.old.items ++ entry ∷ [] }
    ensures len { vec_len list.new ≡ vec_len list.old + 1 }
    ensures capacity { vec_capacity list.new ≡ vec_capacity list.old }
{
    list.push_reserved(entry);
}

fn remove_entries(list: &mut Vec<Entry>, node: Node, span: Span)
    ensures items { list.new.items ≡ listed.without node.0 span list.old.items }
    ensures len { vec_len list.new ≤ vec_len list.old }
    ensures capacity { vec_capacity list.new ≡ vec_capacity list.old }
{
    list.retain(|entry| !entry.is_meant(node, span));
}
