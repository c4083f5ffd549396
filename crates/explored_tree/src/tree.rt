//! The boxes of a search in memory, and which is explored next.
ghost use Rattle.std.specs.Prelude.{◌≡◌, length};
ghost use Rattle.row_kit.specs.Area.{present};

use crate::caps::{exceeds, number_of};
use crate::node::{NONE, Node};
use chain_simplex::Basis;
use dual_bound::{Cert, cap, trim};
use fixed_point::numbered;
use row_kit::{Area, Domain, Program};
use std::alloc::{AllocError, Global};
use std::collections::BinaryHeap;

/// The boxes that are known, parts after the box that is split, and those of them that are still to be explored: the one with the
/// greatest cap first, of several the deepest. It counts about what it holds in memory: once that is 2 GiB, no box is explored any
/// more, so that those with the least caps are left open.
#[derive(Drop)]
pub struct Tree {
    pub nodes: Vec<Node>,
    open: BinaryHeap<(i128, u32, u32)>,
    slots: u64,
    basis: u64,
    held: u64,
}

// From so many bytes on no box is explored.
const MOST_HELD: u64 = 2_147_483_648;

// The bytes of a box without its lists, with room for the list of boxes to grow.
const BOX_BYTES: u64 = 512;

// The bytes of a domain, of where a bound has ended for each slot, beside one for each row, and of a multiplier.
const DOMAIN_BYTES: u64 = 3;

const BASIS_BYTES: u64 = 26;

const MULT_BYTES: u64 = 16;

impl Tree {
    /// A tree of no boxes yet.
    pub fn empty(alloc: Global, program: &Program) -> Tree {
        let slots = program.root.len() as u64;
        let rows = program.rows.len() as u64;
        Tree {
            nodes: Vec::new(alloc),
            open: BinaryHeap::new(alloc),
            slots,
            basis: BASIS_BYTES.saturating_mul(slots).saturating_add(rows),
            held: 0,
        }
    }

    /// A tree whose root is still to be explored.
    pub fn new(alloc: Global, program: &Program) -> Result<Tree, AllocError> {
        let mut tree = Tree::empty(alloc, program);
        let domains = Vec::from_slice(alloc, program.root.as_slice())?;
        tree.put_root(0, i128::MAX, domains)?;
        Ok(tree)
    }

    /// Puts a box that is a part of no split, below so many, with this cap and these domains. All such boxes come before any box is
    /// explored.
    pub fn put_root(
        &mut self,
        depth: u32,
        cap: i128,
        domains: Vec<Domain>,
    ) -> Result<(), AllocError> {
        self.put(Node::new(NONE, depth, cap, NONE, domains))
    }

    // Puts a box that is still to be explored.
    fn put(&mut self, node: Node) -> Result<(), AllocError> {
        let number = numbered(self.nodes.len());
        let place = (node.cap, node.depth, number);
        self.nodes.push(node)?;
        self.open.push(place)?;
        self.hold(BOX_BYTES, 1);
        self.hold(DOMAIN_BYTES, self.slots);
        Ok(())
    }

    // Counts so many bytes more for each item.
    fn hold(&mut self, bytes: u64, items: u64) {
        self.held = self.held.saturating_add(bytes.saturating_mul(items));
    }

    // Counts so many bytes less.
    fn release(&mut self, bytes: u64) {
        self.held = self.held.saturating_sub(bytes);
    }

    /// Puts an area as a part of a box that is split.
    pub fn put_part(
        &mut self,
        alloc: Global,
        program: &Program,
        area: &Area,
        parent: u32,
    ) -> Result<(), AllocError>
        requires { length (present area.now) ≡ length program.now.root }
    {
        let Some(above) = self.node(parent) else {
            return Ok(());
        };
        let depth = above.depth.saturating_add(1);
        let source = above.source;
        let cap = self.cap_by(program, area, source);
        let domains = domains_of(alloc, area)?;
        self.put(Node::new(parent, depth, cap, source, domains))
    }

    /// Notes the certificate of a box, which says more of it than any above.
    pub fn put_cert(&mut self, number: u32, cert: Option<Cert>) {
        let place = number as usize;
        let count = mult_count(&cert);
        if place < self.nodes.len() {
            let node = &mut self.nodes[place];
            node.cert = cert;
            node.source = number;
            self.hold(MULT_BYTES, count);
        }
    }

    /// Notes the slot at which a box is split whose bound has ended there, and the value that is advised. Its parts are the boxes that are put next.
    pub fn put_split(&mut self, number: u32, slot: u32, max: Option<u8>, basis: Basis) {
        let place = number as usize;
        let parts = numbered(self.nodes.len());
        if place < self.nodes.len() {
            let node = &mut self.nodes[place];
            node.slot = Some(slot);
            node.max = max;
            node.basis = Some(basis);
            node.parts = parts;
            self.hold(self.basis, 1);
        }
    }

    /// The box to explore next; none where no cap leaves anything above the worth of the best plan, or too much is held.
    pub fn next(&mut self, best: Option<i128>) -> Option<u32> {
        if self.held >= MOST_HELD {
            return None;
        }
        match self.open.pop() {
            Some((cap, _, number)) if exceeds(cap, best) => Some(number),
            _ => None,
        }
    }

    // The box of a number.
    fn node(&self, number: u32) -> Option<&Node> {
        self.nodes.get(number as usize)
    }

    /// Begins to explore a box: its domains.
    pub fn begin(&mut self, alloc: Global, number: u32) -> Vec<Domain> {
        let place = number as usize;
        if place >= self.nodes.len() {
            return Vec::new(alloc);
        }
        let node = &mut self.nodes[place];
        node.explored = true;
        let domains = std::mem::replace(&mut node.domains, Vec::new(alloc));
        self.release(DOMAIN_BYTES.saturating_mul(self.slots));
        domains
    }

    /// Where the bound of a box begins: where that of the split above it has ended.
    pub fn start_of(
        &mut self,
        alloc: Global,
        program: &Program,
        number: u32,
    ) -> Result<Basis, AllocError> {
        let mut basis = Basis::new(alloc, program)?;
        let parent = self.parent_of(number) as usize;
        if parent < self.nodes.len() {
            if let Some(above) = &self.nodes[parent].basis {
                basis.copy_from(above);
            }
            if self.has_explored_parts(parent) {
                self.nodes[parent].basis = None;
                self.release(self.basis);
            }
        }
        Ok(basis)
    }

    // The box whose split a box is a part of.
    fn parent_of(&self, number: u32) -> u32 {
        match self.node(number) {
            None => NONE,
            Some(node) => node.parent,
        }
    }

    // Whether both parts of the box at a place are explored.
    fn has_explored_parts(&self, place: usize) -> bool {
        match self.nodes.get(place) {
            None => false,
            Some(node) => {
                self.is_explored(node.parts) && self.is_explored(node.parts.saturating_add(1))
            }
        }
    }

    // Whether there is such a box, and it is explored.
    fn is_explored(&self, number: u32) -> bool {
        match self.node(number) {
            None => false,
            Some(node) => node.explored,
        }
    }

    /// The cap of the area of a box by the certificate that says most of the split above it.
    pub fn cap_above(&self, program: &Program, area: &Area, number: u32) -> i128
        requires { length (present area.now) ≡ length program.now.root }
    {
        match self.node(number) {
            None => i128::MAX,
            Some(node) => self.cap_by(program, area, node.source),
        }
    }

    // The cap of an area by the certificate of a box.
    fn cap_by(&self, program: &Program, area: &Area, number: u32) -> i128
        requires { length (present area.now) ≡ length program.now.root }
    {
        match self.node(number) {
            None => i128::MAX,
            Some(node) => cap_of(program, area, &node.cert),
        }
    }

    /// Takes away what the certificate that says most of a box shows to be worth no more than a floor.
    pub fn trim(&self, program: &Program, area: &mut Area, number: u32, floor: i128)
        requires { length (present area.old) ≡ length program.now.root }
        ensures { length (present area.new) ≡ length (present area.old) }
    {
        let Some(node) = self.node(number) else {
            return;
        };
        let Some(source) = self.node(node.source) else {
            return;
        };
        if let Some(cert) = &source.cert {
            trim(program, area, cert, floor);
        }
    }

    /// How many boxes the loop counts: the explored ones whose cap leaves something above the worth of the best plan.
    pub fn count(&self, best: Option<i128>) -> u32 {
        let mut count = 0u32;
        for node in &self.nodes {
            if node.explored && exceeds(node.cap, best) {
                count = count.saturating_add(1);
            }
        }
        count
    }
}

/// The cap of an area by a certificate, the greatest where there is none.
pub fn cap_of(program: &Program, area: &Area, cert: &Option<Cert>) -> i128
    requires { length (present area.now) ≡ length program.now.root }
{
    match cert {
        None => i128::MAX,
        Some(cert) => number_of(cap(program, area, cert)),
    }
}

// The number of multipliers of a certificate.
fn mult_count(cert: &Option<Cert>) -> u64 {
    match cert {
        None => 0,
        Some(cert) => cert.mults.len() as u64,
    }
}

// The domains of an area.
fn domains_of(alloc: Global, area: &Area) -> Result<Vec<Domain>, AllocError> {
    let mut domains = Vec::with_capacity(alloc, area.slot_count() as usize)?;
    for slot in 0..area.slot_count() {
        domains.push(area.domain(slot))?;
    }
    Ok(domains)
}
