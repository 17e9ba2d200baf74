//! Marked numbers, of which the first from a bound on is found without a walk.
//!
//! The marks are the leaves of a binary tree, and each inner node says whether a number below it is marked:
//!
//! ```text
//!              1
//!        2           3
//!     4     5     6     7        node i has the children 2 * i and 2 * i + 1
//!     0     1     2     3        leaf room + k is the mark of number k
//! ```
//!
//! A mark is set in log time: the nodes above its leaf are made anew. The first marked number is found in log time: a
//! node that is not marked is not gone into.

ghost use Rattle.std.specs.Prelude.{◌≡◌, ℕ, ◌+◌, ◌*◌, ◌/◌, ◌^◌, ◌<◌, ◌≤◌, false, length, drop, slice_set, IfOk};
ghost use Rattle.lk_task_runs.specs.Below.{first_from, first_below};
ghost use Rattle.lk_task_board.specs.Trees.{mark, is_marked_from, IsSum, IsSummed, IsNode};

use lk_report::NoMemory;
use std::alloc::Global;
use std::marker::Model;

/// Which of the numbers below a bound are marked. Contracts see it as the list of the marks.
#[derive(Drop)]
pub struct MarkTree {
    nodes: Vec<bool>,
    room: usize,
    levels: u32,
}

impl Model for MarkTree {
    ghost use Rattle.std.specs.Prelude.{Bool, List, drop};
    ghost use Rattle.lk_task_board.specs.Trees.{IsTree};

    ghost Value = { List Bool };

    ghost view = { λ t. drop t.room t.nodes.items };

    ghost invariant = { λ t. IsTree t.room t.levels t.nodes.items };
}

/// Two to the number of levels: as many numbers are below a node so many levels above the leaves.
fn power(levels: u32) -> usize
    requires { levels ≤ 32 }
    ensures value { result ≡ 2 ^ levels }
    ensures few { result ≤ 2 ^ 32 }
{
    1 << levels
}

/// The least number of levels, up to 32, at which so many numbers have leaves.
fn levels_for(count: usize) -> u32
    requires { count < 2 ^ 32 }
    ensures shallow { result ≤ 32 }
    ensures enough { count ≤ 2 ^ result }
{
    let mut levels = 0;
    while levels < 32 && power(levels) < count {
        levels += 1;
    }
    levels
}

/// Makes the nodes above a leaf anew.
fn raise(nodes: &mut [bool], room: usize, leaf: usize)
    requires size { length nodes.old ≡ 2 * room }
    requires from { room ≤ leaf }
    requires below { leaf < 2 * room }
    requires others { (i : ℕ) → 1 ≤ i → i < room → (i ≡ leaf / 2 → ⊥) → IsSum nodes.old i }
    ensures summed { IsSummed room nodes.new }
    ensures leaves { drop room nodes.new ≡ drop room nodes.old }
{
    let mut at = leaf / 2;
    while at > 0 {
        nodes[at] = nodes[2 * at] || nodes[2 * at + 1];
        at /= 2;
    }
}

/// Marks a leaf, or takes its mark away.
fn mark_leaf(nodes: &mut [bool], room: usize, number: usize, marked: bool)
    requires size { length nodes.old ≡ 2 * room }
    requires there { number < room }
    requires summed { IsSummed room nodes.old }
    ensures summed { IsSummed room nodes.new }
    ensures leaves { drop room nodes.new ≡ slice_set (drop room nodes.old) number marked }
{
    nodes[room + number] = marked;
    raise(nodes, room, room + number);
}

/// The first marked number from a bound on among the numbers below a node, which are those from `start` on.
fn first_in(
    nodes: &[bool],
    room: usize,
    node: usize,
    level: u32,
    start: usize,
    from: usize,
) -> Option<usize>
    requires { IsNode room nodes.now node level start }
    ensures { result ≡ first_from (is_marked_from (drop room nodes.now) from) start (2 ^ level) }
{
    if !nodes[node] {
        return None;
    }
    if start + power(level) <= from {
        return None;
    }
    if level == 0 {
        return Some(start);
    }
    let half = power(level - 1);
    match first_in(nodes, room, 2 * node, level - 1, start, from) {
        Some(found) => Some(found),
        None => first_in(nodes, room, 2 * node + 1, level - 1, start + half, from),
    }
}

impl MarkTree {
    /// At least so many numbers, none of them marked.
    ///
    /// # Errors
    /// Out of memory.
    pub fn new(alloc: Global, count: usize) -> Result<Self, NoMemory>
        requires { count < 2 ^ 32 }
        ensures room { IfOk result (λ t. count ≤ length t) }
        ensures none { IfOk result (λ t. (k : ℕ) → mark t k ≡ false) }
    {
        let levels = levels_for(count);
        let room = power(levels);
        match Vec::from_elem(alloc, false, 2 * room) {
            Ok(nodes) => Ok(MarkTree {
                nodes,
                room,
                levels,
            }),
            Err(_) => Err(NoMemory),
        }
    }

    /// Marks a number, or takes its mark away.
    pub fn set(&mut self, number: usize, marked: bool)
        requires { number < length self.old }
        ensures { self.new ≡ slice_set self.old number marked }
    {
        mark_leaf(&mut self.nodes, self.room, number, marked);
    }

    /// The first marked number from a bound on.
    pub fn first_from(&self, from: usize) -> Option<usize>
        ensures { result ≡ first_below (is_marked_from self.now from) (length self.now) }
    {
        first_in(&self.nodes, self.room, 1, self.levels, 0, from)
    }
}
