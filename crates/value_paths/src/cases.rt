//! Which of many lists of values may be the same as another one.

use crate::comparing::same_until;
use crate::place::differ_at;
use std::alloc::Global;
use value_types::ScVal;
use xdr_core::NoMemory;

/// Lists of values by numbers.
pub trait Numbered {
    /// Returns the list with a number.
    fn values(&self, number: usize) -> &[ScVal];
}

/// Lists that are alike at a place.
#[derive(Clone, Copy, Debug)]
struct Branch {
    /// The number of one of them.
    like: usize,
    /// The index of the node that they all come to.
    node: usize,
}

/// What the lists that come to a node have in common.
#[derive(Drop)]
enum Kind {
    /// They are the same. These are their numbers.
    Same(Vec<usize>),
    /// They differ at a place, and go on to other nodes.
    Apart {
        place: Vec<usize>,
        branches: Vec<Branch>,
    },
}

#[derive(Drop)]
struct Node {
    /// The index of the node above.
    above: Option<usize>,
    /// The number of nodes above.
    depth: usize,
    kind: Kind,
}

/// Tells lists of values apart by the places at which they differ, in a tree. So a list is compared with one other list as a
/// whole, however many there are, also where they differ at their ends alone.
///
/// No contract says what it names: it only advises. Who asks compares with the lists that it names, and looks whether others
/// differ at the places that it names.
#[derive(Drop)]
pub struct Cases {
    /// The index of the node that every list comes to first.
    root: Option<usize>,
    nodes: Vec<Node>,
    /// The index of the node that each list comes to last, by their numbers.
    ends: Vec<Option<usize>>,
}

impl Cases {
    /// Knows no list. Takes no memory.
    pub fn new(alloc: Global) -> Cases {
        Cases {
            root: None,
            nodes: Vec::new(alloc),
            ends: Vec::new(alloc),
        }
    }

    /// Adds the list with a number. It takes the time of one comparison of lists at most, and O(1) for each list that is known,
    /// and memory for all numbers up to this one.
    pub fn add<N: Numbered>(&mut self, all: &N, number: usize) -> Result<(), NoMemory> {
        let end = match self.end(all, all.values(number)) {
            None => self.begin(number)?,
            Some(node) => self.add_at(all, number, node)?,
        };
        for _ in self.ends.len()..number.saturating_add(1) {
            self.ends.push(None)?;
        }
        if let Some(known) = self.ends.get_mut(number) {
            *known = Some(end);
        }
        Ok(())
    }

    /// Returns the numbers of the lists that may be the same as this one.
    pub fn like<N: Numbered>(&self, all: &N, values: &[ScVal]) -> &[usize] {
        match self.end(all, values) {
            None => &[],
            Some(node) => self.same_at(node),
        }
    }

    /// Returns the index of the last node that a list comes to.
    pub fn end<N: Numbered>(&self, all: &N, values: &[ScVal]) -> Option<usize> {
        let mut node = self.root?;
        for _ in 0..self.nodes.len() {
            match self.below(all, values, node) {
                None => return Some(node),
                Some(next) => node = next,
            }
        }
        Some(node)
    }

    /// Returns a place at which the list with a number differs from those that come to a node last.
    pub fn place_between(&self, number: usize, end: usize) -> Option<&[usize]> {
        let own = self.ends.get(number).copied()??;
        self.place_at(self.meeting(own, end)?)
    }

    /// Returns the lowest node that is above both nodes, or one of them.
    fn meeting(&self, one: usize, other: usize) -> Option<usize> {
        let (mut one, mut other) = (one, other);
        for _ in 0..self.nodes.len().saturating_mul(2) {
            if one == other {
                return Some(one);
            }
            let (a, b) = (self.nodes.get(one)?, self.nodes.get(other)?);
            if a.depth >= b.depth {
                one = a.above?;
            } else {
                other = b.above?;
            }
        }
        None
    }

    /// Returns the node below a node that a list comes to.
    fn below<N: Numbered>(&self, all: &N, values: &[ScVal], node: usize) -> Option<usize> {
        let Kind::Apart { place, branches } = &self.nodes.get(node)?.kind else {
            return None;
        };
        for branch in branches {
            if !differ_at(all.values(branch.like), values, place) {
                return Some(branch.node);
            }
        }
        None
    }

    /// Returns the place of a node.
    fn place_at(&self, node: usize) -> Option<&[usize]> {
        match &self.nodes.get(node)?.kind {
            Kind::Apart { place, .. } => Some(place.as_slice()),
            Kind::Same(_) => None,
        }
    }

    /// Returns the numbers of a node.
    fn same_at(&self, node: usize) -> &[usize] {
        match self.nodes.get(node) {
            Some(
                Node {
                    kind: Kind::Same(numbers),
                    ..
                },
            ) => numbers.as_slice(),
            _ => &[],
        }
    }

    /// Adds a node for one list alone, and returns its index.
    fn add_end(
        &mut self,
        above: Option<usize>,
        depth: usize,
        number: usize,
    ) -> Result<usize, NoMemory> {
        let mut numbers = Vec::new(*self.nodes.allocator());
        numbers.push(number)?;
        let node = self.nodes.len();
        self.nodes.push(Node {
            above,
            depth,
            kind: Kind::Same(numbers),
        })?;
        Ok(node)
    }

    /// Adds the first list, and returns the node that it comes to last. So do the functions below.
    fn begin(&mut self, number: usize) -> Result<usize, NoMemory> {
        let node = self.add_end(None, 0, number)?;
        self.root = Some(node);
        Ok(node)
    }

    /// Adds a list that comes to a node last.
    fn add_at<N: Numbered>(
        &mut self,
        all: &N,
        number: usize,
        node: usize,
    ) -> Result<usize, NoMemory> {
        let Some(like) = self.same_at(node).first().copied() else {
            return self.add_branch(node, number);
        };
        let mut place = Vec::new(*self.nodes.allocator());
        if same_until(all.values(like), all.values(number), &mut place)? {
            self.join(node, number)
        } else {
            self.split(node, place, like, number)
        }
    }

    /// Adds a list that is the same as those of a node.
    fn join(&mut self, node: usize, number: usize) -> Result<usize, NoMemory> {
        if let Some(
            Node {
                kind: Kind::Same(numbers),
                ..
            },
        ) = self.nodes.get_mut(node)
        {
            numbers.push(number)?;
        }
        Ok(node)
    }

    /// Adds a list that differs at the place of a node from all that go on from there.
    fn add_branch(&mut self, node: usize, number: usize) -> Result<usize, NoMemory> {
        let depth = self.depth(node).saturating_add(1);
        let end = self.add_end(Some(node), depth, number)?;
        if let Some(
            Node {
                kind: Kind::Apart { branches, .. },
                ..
            },
        ) = self.nodes.get_mut(node)
        {
            branches.push(Branch {
                like: number,
                node: end,
            })?;
        }
        Ok(end)
    }

    /// Adds a list that differs at a place from those of a node, one of which has the number `like`.
    fn split(
        &mut self,
        node: usize,
        place: Vec<usize>,
        like: usize,
        number: usize,
    ) -> Result<usize, NoMemory> {
        let apart = self.nodes.len();
        let depth = self.depth(node);
        let above = self.above(node);
        let mut branches = Vec::new(*self.nodes.allocator());
        branches.push(Branch { like, node })?;
        branches.reserve(1)?;
        self.nodes.push(Node {
            above,
            depth,
            kind: Kind::Apart { place, branches },
        })?;
        let end = self.add_branch(apart, number)?;
        self.lower(node, apart);
        self.lead(above, node, apart);
        Ok(end)
    }

    /// Puts a node below another one.
    fn lower(&mut self, node: usize, above: usize) {
        if let Some(node) = self.nodes.get_mut(node) {
            node.above = Some(above);
            node.depth = node.depth.saturating_add(1);
        }
    }

    /// Lets what leads to one node lead to another one.
    fn lead(&mut self, from: Option<usize>, old: usize, new: usize) {
        let Some(from) = from else {
            self.root = Some(new);
            return;
        };
        if let Some(
            Node {
                kind: Kind::Apart { branches, .. },
                ..
            },
        ) = self.nodes.get_mut(from)
        {
            for branch in branches.iter_mut() {
                if branch.node == old {
                    branch.node = new;
                }
            }
        }
    }

    fn depth(&self, node: usize) -> usize {
        match self.nodes.get(node) {
            None => 0,
            Some(node) => node.depth,
        }
    }

    fn above(&self, node: usize) -> Option<usize> {
        self.nodes.get(node)?.above
    }
}
