//! The table of a merge: one node for each path of ids and texts, with the sums of its pieces. All nodes are in one list, and
//! each names its parent by number.

ghost use Rattle.std.specs.Prelude.{◌≡◌, ◌<◌, ◌≤◌, ◌+◌, ◌^◌, ◌⊎◌, max, IfSome, IfNone};
ghost use Rattle.std.specs.Int.{int_min};
ghost use Rattle.std.proofs.Props.{props};
ghost use Rattle.puffin_merge.specs.inner.Found.{FindsNodes};

use puffin_data::{Error, NanoSecond, Result};
use std::alloc::Global;
use std::collections::BTreeMap;

/// The number of a node: its place in the list plus 1. 0 is the root above all nodes.
#[derive(Clone, Copy, Debug, PartialEq, Eq, PartialOrd, Ord)]
pub(crate) struct NodeNumber {
    pub number: usize,
}

/// The key of a node to look up. It borrows the text.
#[derive(Clone, Copy, Debug)]
pub(crate) struct KeyRef<'k> {
    pub parent: NodeNumber,
    /// Not 0.
    pub id: u32,
    pub text: &'k str,
}

/// Identifies a node: its parent's number, and its scope's id and text.
#[derive(Debug, Drop)]
pub(crate) struct Key {
    pub parent: NodeNumber,
    /// Not 0.
    pub id: u32,
    pub text: String,
}

/// The number of a text of the table. Texts are numbered from 0.
#[derive(Clone, Copy, Debug, PartialEq, Eq, PartialOrd, Ord)]
pub(crate) struct TextNumber {
    pub number: usize,
}

/// A key with the number of its text in place of the text, so that the map of nodes keeps no second copy of a text.
#[derive(Clone, Copy, Debug, PartialEq, Eq, PartialOrd, Ord)]
pub(crate) struct NumberedKey {
    pub parent: NodeNumber,
    pub id: u32,
    pub text: TextNumber,
}

/// The sums of a node's pieces.
#[derive(Clone, Copy, Debug)]
pub(crate) struct PieceTotals {
    /// The number of pieces.
    pub number: usize,
    /// The sum of their durations.
    pub total: u64,
    /// The duration of the longest.
    pub greatest: u64,
    /// The least of their starts, each measured from its parent's start.
    pub own_start: NanoSecond,
}

impl PieceTotals {
    /// Makes the sums of one piece.
    pub(crate) fn one(own_start: NanoSecond, duration: u64) -> PieceTotals
        ensures { result
            ≡ record { number = 1; total = duration; greatest = duration; own_start = own_start } }
    {
        PieceTotals {
            number: 1,
            total: duration,
            greatest: duration,
            own_start,
        }
    }

    /// Returns the sums with one more piece, or `None` if the number doesn't fit `usize` or the total doesn't fit `i64`.
    pub(crate) fn with_piece(self, own_start: NanoSecond, duration: u64) -> Option<PieceTotals>
        ensures some { IfSome result (λ sums.
            sums ≡ record {
              number = self.number + 1;
              total = self.total + duration;
              greatest = max self.greatest duration;
              own_start = int_min self.own_start own_start;
            }) }
        ensures fits { IfSome result (λ sums.
            (self.number + 1 < 2 ^ 64) × (self.total + duration < 2 ^ 63)) }
        ensures none { IfNone result (
            (2 ^ 64 ≤ self.number + 1) ⊎ (2 ^ 63 ≤ self.total + duration)) }
    {
        let number = self.number.checked_add(1)?;
        let total = self.total.checked_add(duration)?;
        if total > i64::MAX as u64 {
            return None;
        }
        Some(PieceTotals {
            number,
            total,
            greatest: self.greatest.max(duration),
            own_start: self.own_start.min(own_start),
        })
    }
}

/// A node with the sums of its pieces.
#[derive(Debug, Drop)]
pub(crate) struct Node {
    pub key: Key,
    pub sums: PieceTotals,
}

/// The nodes, and maps to look them up.
#[derive(Drop)]
pub(crate) struct Table {
    /// The nodes by number. A parent is before its children.
    pub nodes: Vec<Node>,
    /// The number of each text.
    texts: BTreeMap<String, TextNumber>,
    /// The number of each node.
    numbers: BTreeMap<NumberedKey, NodeNumber>,
    /// For each node, by its place, the place of the node that was looked up right after it the last time. Since frames are
    /// much alike, that node often comes next again.
    guesses: Vec<usize>,
    /// The place of the node that was looked up last.
    last: usize,
    ghost found: { FindsNodes nodes texts numbers } by { Prim.hlevel props },
}

impl Table {
    ghost use Rattle.std.specs.Prelude.{◌-◌, ◌++◌, ◌∷◌, [], List, ℕ, vec_len, string_cmp, IfOk, IfErr, OnOk, IsOkUnless};
    ghost use Rattle.std.specs.Map.{lookup};
    ghost use Rattle.std.specs.BTreeMap.{is_at};
    ghost use Rattle.puffin_merge.specs.Merge.Occurrences.{Occurrence};
    ghost use Rattle.puffin_merge.specs.Merge.Refusals.{SumsFit};
    ghost use Rattle.puffin_merge.specs.inner.Found.{IsNodeOfKey, HasNoNode, IsNewKey};
    ghost use Rattle.puffin_merge.specs.inner.Tables.{IsTableOf, new_node, occurrence_of_key, FitsOneMore, AddsPieceAt, AddsAt};

    /// Makes an empty table.
    pub(crate) fn new(alloc: Global) -> Table
        ensures { IsTableOf [] result }
    {
        Table {
            nodes: Vec::new(alloc),
            texts: BTreeMap::new(alloc),
            numbers: BTreeMap::new(alloc),
            guesses: Vec::new(alloc),
            last: 0,
        }
    }

    /// Returns the node that was looked up next the last time, if it has this key.
    fn check_guess(&self, key: &KeyRef) -> Option<NodeNumber>
        ensures some { IfSome result (IsNodeOfKey self.now.nodes key.now) }
    {
        let place = *self.guesses.get(self.last)?;
        let node = self.nodes.get(place)?;
        if node.key.parent.number == key.parent.number
            && node.key.id == key.id
            && node.key.text.as_str() == key.text
        {
            Some(NodeNumber { number: place + 1 })
        } else {
            None
        }
    }

    /// Records that the node at `place` was looked up after the last one, as the guess for the next time.
    fn record_lookup(&mut self, place: usize)
        ensures nodes { self.new.nodes ≡ self.old.nodes }
        ensures texts { self.new.texts ≡ self.old.texts }
        ensures numbers { self.new.numbers ≡ self.old.numbers }
    {
        if let Some(guess) = self.guesses.get_mut(self.last) {
            *guess = place;
        }
        self.last = place;
    }

    /// Looks a node up in the maps: its text's number first, then the node's own.
    fn look_up(&self, key: &KeyRef) -> Option<NodeNumber>
        ensures some { IfSome result (IsNodeOfKey self.now.nodes key.now) }
        ensures none { IfNone result (HasNoNode self.now.nodes key.now) }
    {
        match self.texts.get_key_value(key.text) {
            None => None,
            Some((_text, number)) => self
                .numbers
                .get(&NumberedKey {
                    parent: key.parent,
                    id: key.id,
                    text: *number,
                })
                .copied(),
        }
    }

    /// Finds the node with this key: by the guess if it is right, otherwise in the maps.
    fn find(&self, key: &KeyRef) -> Option<NodeNumber>
        ensures some { IfSome result (IsNodeOfKey self.now.nodes key.now) }
        ensures none { IfNone result (HasNoNode self.now.nodes key.now) }
    {
        match self.check_guess(key) {
            Some(number) => Some(number),
            None => self.look_up(key),
        }
    }

    /// Returns the number of a text. Adds the text if it is new.
    fn intern_text(&mut self, text: &String) -> Result<TextNumber>
        ensures ok { IfOk result (λ x.
            lookup (is_at (string_cmp text.now)) self.new.texts.entries ≡ Some x) }
        ensures nodes { OnOk result (self.new.nodes ≡ self.old.nodes) }
        ensures numbers { OnOk result (self.new.numbers ≡ self.old.numbers) }
        ensures err { IsOkUnless result Error.Memory }
    {
        if let Some(number) = self.texts.get(text) {
            return Ok(*number);
        }
        let number = TextNumber {
            number: self.texts.len(),
        };
        let own = text.clone()?;
        let _none = self.texts.insert(own, number)?;
        Ok(number)
    }

    /// Adds one piece to the node with this number. Fails with `TooLarge` if its sums don't fit; the node then stays as it was.
    fn add_piece(&mut self, number: NodeNumber, own_start: NanoSecond, duration: u64) -> Result<()>
        requires { (0 < number.number) × (number.number ≤ vec_len self.old.nodes) }
        ensures ok { OnOk result (
            AddsPieceAt self.old (number.number - 1) own_start duration self.new) }
        ensures err { IfErr result (λ e.
            (e ≡ Error.TooLarge)
            × (FitsOneMore self.old.nodes.items (number.number - 1) duration → ⊥)) }
    {
        self.record_lookup(number.number - 1);
        let node = &mut self.nodes[number.number - 1];
        match node.sums.with_piece(own_start, duration) {
            None => Err(Error::TooLarge),
            Some(sums) => {
                node.sums = sums;
                Ok(())
            }
        }
    }

    /// Adds a node of one piece, and returns its number. Fails only with `Memory`.
    fn add_node(&mut self, key: Key, own_start: NanoSecond, duration: u64) -> Result<NodeNumber>
        requires { IsNewKey self.old.nodes key }
        ensures number { IfOk result (λ x. x.number ≡ vec_len self.old.nodes + 1) }
        ensures nodes { OnOk result (
            self.new.nodes.items
            ≡ self.old.nodes.items ++ (new_node key own_start duration ∷ [])) }
        ensures err { IsOkUnless result Error.Memory }
    {
        // Each step that can fail comes before the node is added, so that the maps find exactly the nodes also after an error.
        self.guesses.push(0)?;
        let place = self.nodes.len();
        self.record_lookup(place);
        let text = self.intern_text(&key.text)?;
        let numbered = NumberedKey {
            parent: key.parent,
            id: key.id,
            text,
        };
        self.nodes.reserve(1)?;
        let number = NodeNumber { number: place + 1 };
        let _none = self.numbers.insert(numbered, number)?;
        self.nodes.push_reserved(Node {
            key,
            sums: PieceTotals::one(own_start, duration),
        });
        Ok(number)
    }

    /// Adds one piece to the node with this key, and returns the node's number. If there is no such node, adds it, with its own
    /// copy of the text. Fails with `TooLarge` if the node's sums don't fit, and with `Memory`.
    pub(crate) fn add(
        &mut self,
        alloc: Global,
        key: KeyRef,
        own_start: NanoSecond,
        duration: u64,
    ) -> Result<NodeNumber>
        requires table { (all : List Occurrence) × IsTableOf all self.old }
        requires small { duration < 2 ^ 63 }
        requires id { 0 < key.id }
        requires parent { key.parent.number ≤ vec_len self.old.nodes }
        ensures ok { IfOk result (λ x.
            AddsAt self.old (occurrence_of_key self.old key.entry own_start duration)
            x.number self.new) }
        ensures err { IfErr result (λ e.
            (e ≡ Error.Memory)
            ⊎ ((e ≡ Error.TooLarge)
            × ((all : List Occurrence) → IsTableOf all self.old →
            SumsFit all (occurrence_of_key self.old key.entry own_start duration) → ⊥))) }
    {
        let found = self.find(&key);
        match found {
            Some(number) => {
                self.add_piece(number, own_start, duration)?;
                Ok(number)
            }
            None => {
                let text = key.text.to_string(alloc)?;
                let own = Key {
                    parent: key.parent,
                    id: key.id,
                    text,
                };
                self.add_node(own, own_start, duration)
            }
        }
    }
}
