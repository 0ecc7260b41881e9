//! The plain walk.
use crate::search::Search;
use crate::search_node::SearchNode;
use hp_cells::{Cell, Cells};
use hp_net::{Step, Walk};
use hp_syntax::{Domain, Pair};
use hp_tree::root::Root;
use hp_world::World;
use std::alloc::{AllocError, Global};
use std::marker::Model;

/// A walk that copies the world and the network for each node, and takes lists of satisfiers by their definition, each
/// up to its first fault.
#[derive(Drop)]
pub struct PlainWalk<'a> {
    search: Search<'a>,
    live: bool,
}

impl<'a> Model for PlainWalk<'a> {
    ghost use Rattle.hp_plain.specs.Walked.{Walked};
    ghost use Rattle.hp_syntax.specs.contracts.domain.Domain as domains;
    ghost use Rattle.hp_plain.specs.contracts.frame.Frame as frames;
    ghost use Rattle.hp_cells.specs.TermCode.{terms_code};
    ghost use Rattle.std.specs.Coded.{codes};

    ghost Value = { Walked };

    ghost coded = { Prim.hlevel (codes, domains.the_row.coded, frames.the_row.coded, terms_code) };

    ghost use Rattle.hp_plain.specs.Walked.{walked, IsWalked};

    ghost view = { λ w. walked w.search w.live };

    ghost invariant = { λ w. IsWalked w.search w.live };
}

impl<'a> PlainWalk<'a> {
    ghost use Rattle.std.specs.Prelude.{◌≡◌, ◌≤◌, [], true, false, None, IfOk};
    ghost use Rattle.hp_syntax.specs.declared.limits.TheConstants.{GREATEST_PLAIN_DEPTH, MOST_LEVELS};
    ghost use Rattle.hp_syntax.specs.Checks.{domain_faults, first_of};
    ghost use Rattle.hp_syntax.specs.GroundPatterns.{IsGroundPair};
    ghost use Rattle.hp_syntax.specs.Views.{domain_of, pair_of};
    ghost use Rattle.hp_syntax.specs.Walk.{root, visits};
    ghost use Rattle.hp_net.specs.Standings.{standing};
    ghost use Rattle.hp_plain.specs.Walked.{tree_walked, stands_walked};

    /// A walk of the tree of a pair at a depth, where axioms may call one another so deep. It stands at the root, and
    /// all visits are left.
    pub fn new(
        alloc: Global,
        domain: &'a Domain,
        pair: &Pair,
        depth: u32,
        nest: u32,
    ) -> Result<PlainWalk<'a>, AllocError>
        requires checked { first_of (domain_faults (domain_of domain.now)) ≡ None }
        requires pair { IsGroundPair (pair_of pair.now) }
        requires depth { depth ≤ GREATEST_PLAIN_DEPTH }
        requires nest { nest ≤ MOST_LEVELS }
        ensures tree { IfOk result (λ w. tree_walked w ≡ record {
          rules = (domain_of domain.now).rules;
          nest = nest;
          root = root (pair_of pair.now) depth;
        }) }
        ensures stands { IfOk result (λ w. stands_walked w ≡ standing []
            (visits (domain_of domain.now).rules nest (root (pair_of pair.now) depth) []) false) }
        ensures live { IfOk result (λ w. w.live ≡ true) }
    {
        let mut cells = Cells::new(alloc)?;
        let Root { world, net } = Root::new(alloc, pair, &mut cells)?;
        let node = SearchNode {
            world,
            net,
            steps: Vec::new(alloc),
            cost: 0,
            depth,
        };
        let search = Search::new(alloc, domain, nest, node, cells)?;
        Ok(PlainWalk { search, live: true })
    }
}

impl Walk for PlainWalk<'_> {
    ghost use Rattle.std.specs.Prelude.{None};
    ghost use Rattle.hp_plain.specs.Walked.{tree_walked, stands_walked};

    ghost tree = { tree_walked };

    ghost stands = { stands_walked };

    ghost terms = { λ w. w.terms };

    ghost is_live = { λ w. w.live };

    ghost root_cells = { λ w. None };

    fn step(&mut self) -> Result<Option<Step>, AllocError> {
        self.live = false;
        let step = self.search.step()?;
        self.live = true;
        Ok(step)
    }

    fn back(&mut self) {
        self.search.back();
    }

    fn prune(&mut self) {
        self.search.prune();
    }

    fn plan(&self) -> &[Cell] {
        self.search.top.node.steps.as_slice()
    }

    fn cost(&self) -> i128 {
        self.search.top.node.cost
    }

    fn world(&self) -> &World {
        &self.search.top.node.world
    }

    fn cells(&self) -> &Cells {
        &self.search.cells
    }

    fn path(&self) -> &[u64] {
        self.search.path.as_slice()
    }

    fn live(&self) -> bool {
        self.live
    }
}
