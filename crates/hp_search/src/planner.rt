//! The planner.
use crate::decomposition::Decomposition;
use crate::search::Search;
use hp_cells::{Cell, Cells};
use hp_choice::{Conjuncts, Finding, Prefix, Rooms, Start, Test};
use hp_code::{Code, asked_parts};
use hp_gen::Scene;
use hp_net::{Net, Step, Walk};
use hp_site::Site;
use hp_syntax::{Ground, Pair};
use hp_tree::root::Root;
use hp_world::World;
use std::alloc::{AllocError, Global};
use std::marker::Model;

/// A walk over one world, one network and one store of terms, which are changed and undone along the path, with
/// satisfiers that are looked for one at a time. Going back takes no memory, and gives all terms back that were made
/// since.
#[derive(Drop)]
pub struct Planner<'a> {
    search: Search<'a>,
    rooms: Rooms,
    live: bool,
}

impl<'a> Model for Planner<'a> {
    ghost use Rattle.hp_search.specs.Planned.{Planned};
    ghost use Rattle.hp_site.specs.contracts.site.Site as sites;
    ghost use Rattle.hp_agenda.specs.contracts.frame.Frame as frames;
    ghost use Rattle.hp_cells.specs.TermCode.{terms_code};
    ghost use Rattle.std.specs.Coded.{codes};
    ghost use denote.Signature.{static_lft};

    ghost Value = { Planned };

    ghost coded = { Prim.hlevel
        (codes, (sites.the_row (static_lft)).coded, (frames.the_row (static_lft)).coded, terms_code) };

    ghost use Rattle.hp_search.specs.Planned.{planned, IsPlanned};

    ghost view = { λ p. planned p.search p.live };

    ghost invariant = { λ p. IsPlanned p.search p.live };
}

impl<'a> Planner<'a> {
    ghost use Rattle.std.specs.Prelude.{◌≡◌, ◌≤◌, ◌<◌, [], Some, true, false, pos, IfOk, MatchOption, OnErr, OnOk, length};
    ghost use Rattle.hp_syntax.specs.declared.limits.TheConstants.{GREATEST_DEPTH, MOST_LEVELS};
    ghost use Rattle.hp_syntax.specs.GroundPatterns.{IsGroundPair};
    ghost use Rattle.hp_syntax.specs.Views.{pair_of};
    ghost use Rattle.hp_syntax.specs.Walk.{root, visits};
    ghost use Rattle.hp_code.specs.Codes.{code_of};
    ghost use Rattle.hp_choice.specs.Asking.{AreConjuncts};
    ghost use Rattle.hp_choice.specs.Questions.{Finds, GivesFirst, GoesAlong};
    ghost use Rattle.hp_choice.specs.Starting.{CanStart};
    ghost use Rattle.hp_choice.specs.Tests.{CanTest};
    ghost use Rattle.hp_code.specs.CodeViews.{rules_in};
    ghost use Rattle.hp_links.specs.Linked.{PartBelow, focused};
    ghost use Rattle.hp_net.specs.Standings.{node_reached, standing, tree_visits};
    ghost use Rattle.std.specs.List.{All};
    ghost use Rattle.hp_search.specs.Led.{IsLedAt, IsStageAt, TellsDecomposition, node_on};
    ghost use Rattle.hp_search.specs.Planned.{HasMarks, tree_planned, stands_planned, with_depth};

    /// A walk of the tree of a pair at a depth, by the rules of a code, where axioms may call one another so deep. It
    /// stands at the root, and all visits are left.
    pub fn new(
        alloc: Global,
        code: &'a Code,
        pair: &Pair,
        depth: u32,
        nest: u32,
    ) -> Result<Planner<'a>, AllocError>
        requires pair { IsGroundPair (pair_of pair.now) }
        requires depth { depth ≤ GREATEST_DEPTH }
        requires nest { nest ≤ MOST_LEVELS }
        ensures tree { IfOk result (λ p. tree_planned p ≡ record {
          rules = rules_in (code_of code.now);
          nest = nest;
          root = root (pair_of pair.now) depth;
        }) }
        ensures stands { IfOk result (λ p. stands_planned p ≡ standing []
            (visits (rules_in (code_of code.now)) nest (root (pair_of pair.now) depth) []) false) }
        ensures live { IfOk result (λ p. p.live ≡ true) }
    {
        let parts = asked_parts(alloc, code)?;
        let mut cells = Cells::new(alloc)?;
        let Root { world, net } = Root::indexed(alloc, parts.as_slice(), pair, &mut cells)?;
        let site = Site {
            scene: Scene { world, code },
            net,
            steps: Vec::new(alloc),
            cost: 0,
            depth,
        };
        let mut rooms = Rooms::new(alloc);
        let search = Search::new(alloc, &mut rooms, nest, site, cells)?;
        Ok(Planner {
            search,
            rooms,
            live: true,
        })
    }

    /// Walks the tree of the same root once more, where so many decompositions may follow from it, over the memory that
    /// the walk has. It stands at the root, which nothing has cost yet, whatever is left there; all visits of that tree
    /// are left then.
    pub fn begin_again(&mut self, depth: u32) -> Result<(), AllocError>
        requires live { self.old.live ≡ true }
        requires root { (stands_planned self.old).path ≡ [] }
        requires cost { (tree_planned self.old).root.cost ≡ pos 0 }
        requires depth { depth ≤ GREATEST_DEPTH }
        ensures tree { OnOk result (tree_planned self.new ≡ with_depth depth (tree_planned self.old)) }
        ensures stands { OnOk result (stands_planned self.new
            ≡ standing [] (tree_visits (with_depth depth (tree_planned self.old))) false) }
        ensures cells { self.new.terms ≡ self.old.terms }
        ensures live { OnOk result (self.new.live ≡ true) }
        ensures dead { OnErr result (self.new.live ≡ false) }
    {
        self.live = false;
        self.search.begin_again(&mut self.rooms, depth)?;
        self.live = true;
        Ok(())
    }

    /// What parts of a conjunction of any code come to together in the state of the node reached, from the bindings of a
    /// start; where there are none, there is nothing. The parts are told by nodes of that code. The walk stays as it is,
    /// after an error too.
    pub fn ask(
        &mut self,
        code: &Code,
        asked: Conjuncts,
        start: &Start<'_>,
    ) -> Result<Finding, AllocError>
        requires live { self.old.live ≡ true }
        requires asked { AreConjuncts (code_of code.now) asked }
        requires start { CanStart (code_of code.now) start.now }
        ensures found { IfOk result (λ f. MatchOption (node_reached (tree_planned self.old) (stands_planned self.old)) ⊥
            (λ n. Finds (code_of code.now) self.old.nest n.state asked start.now f)) }
        ensures same { self.new ≡ self.old }
    {
        self.search.ask(code, asked, start)
    }

    /// How many of the first parts of a conjunction of any code are satisfied one after another in the state of the
    /// node reached, and the index behind them: the first by its first event under the bindings of a start, each other
    /// under those that the one before gave. There is no answer where there are no bindings to start from. The walk
    /// stays as it is, after an error too.
    pub fn ask_along(
        &mut self,
        code: &Code,
        asked: Conjuncts,
        start: &Start<'_>,
    ) -> Result<Option<Prefix>, AllocError>
        requires live { self.old.live ≡ true }
        requires asked { AreConjuncts (code_of code.now) asked }
        requires start { CanStart (code_of code.now) start.now }
        ensures along { IfOk result (λ o. MatchOption (node_reached (tree_planned self.old) (stands_planned self.old)) ⊥
            (λ n. GoesAlong (code_of code.now) self.old.nest n.state asked start.now o)) }
        ensures same { self.new ≡ self.old }
    {
        self.search.ask_along(code, asked, start)
    }

    /// The values of the variables of a rule by the first satisfier of parts of its conjunction together that passes a
    /// test, in the state of the node reached, from the bindings of a start. There are none where no such satisfier comes
    /// before a fault, and where there are no bindings to start from. The walk stays as it is, after an error too.
    pub fn first_satisfier(
        &mut self,
        code: &Code,
        asked: Conjuncts,
        start: &Start<'_>,
        test: &Test<'_>,
    ) -> Result<Option<Vec<Option<Ground>>>, AllocError>
        requires live { self.old.live ≡ true }
        requires asked { AreConjuncts (code_of code.now) asked }
        requires start { CanStart (code_of code.now) start.now }
        requires test { CanTest (code_of code.now) test.now }
        ensures values { IfOk result (λ o. MatchOption (node_reached (tree_planned self.old) (stands_planned self.old)) ⊥
            (λ n. GivesFirst (code_of code.now) self.old.nest n.state asked start.now test.now o)) }
        ensures same { self.new ≡ self.old }
    {
        self.search.first_satisfier(code, asked, start, test)
    }

    /// The network of the node reached, with its focus. Its pasts at the moments of the path are the networks of the
    /// nodes on the path, as those of the world are their states and protections.
    pub fn net(&self) -> &Net
        requires live { self.now.live ≡ true }
        ensures node { MatchOption (node_reached (tree_planned self.now) (stands_planned self.now)) ⊥
            (λ n. focused self.now.terms result.now.now ≡ (n.network, n.focus)) }
        ensures is { result.now ≡ self.now.site.net }
        ensures below { All (PartBelow (length self.now.terms)) result.now.now.parts }
        ensures marks { HasMarks self.now }
    {
        &self.search.site.net
    }

    /// The decomposition that led to the node reached. It takes no memory.
    pub fn decomposition(&self) -> Option<Decomposition>
        requires live { self.now.live ≡ true }
        ensures { TellsDecomposition self.now result }
    {
        self.search.decomposition()
    }

    /// The decomposition that led from the node which so many of the path's first numbers reach to the next one. It
    /// takes no memory.
    pub fn decomposition_at(&self, level: usize) -> Decomposition
        requires live { self.now.live ≡ true }
        requires level { level < length (stands_planned self.now).path }
        ensures { IsLedAt self.now level result }
    {
        self.search.decomposition_at(level)
    }

    /// The sum of the costs of the steps of the node which so many of the path's first numbers reach, in thousandths.
    pub fn cost_at(&self, level: usize) -> i128
        requires live { self.now.live ≡ true }
        requires level { level ≤ length (stands_planned self.now).path }
        ensures { MatchOption (node_on self.now level) ⊥ (λ n. result ≡ n.cost) }
    {
        self.search.mark_at(level).cost
    }

    /// The world of the node which so many of the path's first numbers reach, and the cells. The walk ends with it.
    pub fn into_world_at(self, level: usize) -> (World, Cells)
        requires live { self.live ≡ true }
        requires level { level ≤ length (stands_planned self).path }
        ensures stage { IsStageAt self.entry level result.0.now }
        ensures cells { result.1 ≡ self.entry.terms }
    {
        let Planner {
            mut search,
            rooms,
            live: _,
        } = self;
        drop(rooms);
        let world = search.take_world_at(level);
        (world, search.into_cells())
    }
}

impl Walk for Planner<'_> {
    ghost use Rattle.std.specs.Prelude.{◌≡◌, ◌≢◌, [], None, Some, IfOk, OnErr, OnOk, false, option_map, true};
    ghost use Rattle.hp_net.specs.Standings.{HasCells, gone_back, next_below, step_of, stepped};
    ghost use Rattle.hp_search.specs.Searches.{root_base};
    ghost use Rattle.hp_search.specs.Planned.{DropsFloor, StepCells, tree_planned, stands_planned};

    ghost tree = { tree_planned };

    ghost stands = { stands_planned };

    ghost terms = { λ p. p.terms };

    ghost is_live = { λ p. p.live };

    ghost root_cells = { λ p. Some (root_base p.top p.above) };

    fn step(&mut self) -> Result<Option<Step>, AllocError>
        requires live { self.old.live ≡ true }
        ensures answer { IfOk result (λ s. s
            ≡ option_map step_of (next_below (stands_planned self.old).path (stands_planned self.old).rest)) }
        ensures stands { OnOk result (stands_planned self.new ≡ stepped (stands_planned self.old)) }
        ensures tree { tree_planned self.new ≡ tree_planned self.old }
        ensures root_cells { Some (root_base self.new.top self.new.above)
            ≡ Some (root_base self.old.top self.old.above) }
        ensures given_back { IfOk result (λ s. s ≡ None → (stands_planned self.old).path ≡ []
            → HasCells (Some (root_base self.new.top self.new.above)) self.new.terms) }
        ensures live { OnOk result (self.new.live ≡ true) }
        ensures dead { OnErr result (self.new.live ≡ false) }
        ensures cells { IfOk result (λ s. StepCells self.old s self.new) }
    {
        self.live = false;
        let step = self.search.step(&mut self.rooms)?;
        self.live = true;
        Ok(step)
    }

    fn back(&mut self)
        requires live { self.old.live ≡ true }
        requires below { (stands_planned self.old).path ≢ [] }
        requires done { next_below (stands_planned self.old).path (stands_planned self.old).rest ≡ None }
        ensures stands { stands_planned self.new ≡ gone_back (stands_planned self.old) }
        ensures tree { tree_planned self.new ≡ tree_planned self.old }
        ensures root_cells { Some (root_base self.new.top self.new.above)
            ≡ Some (root_base self.old.top self.old.above) }
        ensures live { self.new.live ≡ true }
        ensures cells { DropsFloor self.old self.new }
    {
        self.search.back(&mut self.rooms);
    }

    fn prune(&mut self) {
        self.search.prune();
    }

    fn plan(&self) -> &[Cell] {
        self.search.site.steps.as_slice()
    }

    fn cost(&self) -> i128 {
        self.search.site.cost
    }

    fn world(&self) -> &World {
        &self.search.site.scene.world
    }

    fn cells(&self) -> &Cells {
        &self.search.cells
    }

    fn path(&self) -> &[u64] {
        self.search.path.as_slice()
    }

    fn live(&self) -> bool {
        self.live
    }
}
