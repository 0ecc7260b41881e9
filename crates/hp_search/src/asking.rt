//! What parts of a conjunction of another code find in the state of the node reached, how many of the first are
//! satisfied one after another, and the values by the first satisfier of all.
ghost use Rattle.std.specs.Prelude.{◌≡◌, IfOk};
ghost use Rattle.hp_choice.specs.Asking.{AreConjuncts};
ghost use Rattle.hp_choice.specs.Questions.{Finds, GivesFirst, GoesAlong};
ghost use Rattle.hp_choice.specs.Starting.{CanStart};
ghost use Rattle.hp_choice.specs.Tests.{CanTest};
ghost use Rattle.hp_code.specs.Codes.{code_of};
ghost use Rattle.hp_search.specs.Searches.{IsSearch};
ghost use Rattle.hp_site.specs.Sites.{held_now};
ghost use Rattle.hp_tree.specs.SearchNodes.{node_of};

use crate::search::Search;
use hp_choice::{Conjuncts, Finding, Prefix, Start, Test, ask, ask_along, first_satisfier};
use hp_code::Code;
use hp_gen::Scene;
use hp_syntax::Ground;
use hp_world::World;
use std::alloc::AllocError;
use std::mem;

impl Search<'_> {
    /// What parts of a conjunction find from a start in the world as it stands, which is lent out and taken back, with
    /// the cells that there were.
    pub(crate) fn ask(
        &mut self,
        code: &Code,
        asked: Conjuncts,
        start: &Start<'_>,
    ) -> Result<Finding, AllocError>
        requires search { IsSearch self.old }
        requires asked { AreConjuncts (code_of code.now) asked }
        requires start { CanStart (code_of code.now) start.now }
        ensures found { IfOk result (Finds (code_of code.now) self.old.nest
            (node_of self.old.cells (held_now self.old.site)).state asked start.now) }
        ensures same { self.new ≡ self.old }
    {
        let floor = self.cells.len();
        let world = mem::replace(&mut self.site.scene.world, World::new(self.alloc));
        let mut scene = Scene { world, code };
        let found = ask(self.alloc, &scene, self.nest, asked, start, &mut self.cells);
        mem::swap(&mut self.site.scene.world, &mut scene.world);
        self.cells.give_back(floor);
        found
    }

    /// How many of the first parts of a conjunction are satisfied one after another from a start in the world as it
    /// stands, which is lent out and taken back, with the cells that there were.
    pub(crate) fn ask_along(
        &mut self,
        code: &Code,
        asked: Conjuncts,
        start: &Start<'_>,
    ) -> Result<Option<Prefix>, AllocError>
        requires search { IsSearch self.old }
        requires asked { AreConjuncts (code_of code.now) asked }
        requires start { CanStart (code_of code.now) start.now }
        ensures along { IfOk result (GoesAlong (code_of code.now) self.old.nest
            (node_of self.old.cells (held_now self.old.site)).state asked start.now) }
        ensures same { self.new ≡ self.old }
    {
        let floor = self.cells.len();
        let world = mem::replace(&mut self.site.scene.world, World::new(self.alloc));
        let mut scene = Scene { world, code };
        let prefix = ask_along(self.alloc, &scene, self.nest, asked, start, &mut self.cells);
        mem::swap(&mut self.site.scene.world, &mut scene.world);
        self.cells.give_back(floor);
        prefix
    }

    /// The values of the variables of a rule by the first satisfier of parts of its conjunction that passes a test, from
    /// a start in the world as it stands, which is lent out and taken back, with the cells that there were.
    pub(crate) fn first_satisfier(
        &mut self,
        code: &Code,
        asked: Conjuncts,
        start: &Start<'_>,
        test: &Test<'_>,
    ) -> Result<Option<Vec<Option<Ground>>>, AllocError>
        requires search { IsSearch self.old }
        requires asked { AreConjuncts (code_of code.now) asked }
        requires start { CanStart (code_of code.now) start.now }
        requires test { CanTest (code_of code.now) test.now }
        ensures values { IfOk result (GivesFirst (code_of code.now) self.old.nest
            (node_of self.old.cells (held_now self.old.site)).state asked start.now test.now) }
        ensures same { self.new ≡ self.old }
    {
        let floor = self.cells.len();
        let world = mem::replace(&mut self.site.scene.world, World::new(self.alloc));
        let mut scene = Scene { world, code };
        let values = first_satisfier(
            self.alloc,
            &scene,
            self.nest,
            asked,
            start,
            test,
            &mut self.cells,
        );
        mem::swap(&mut self.site.scene.world, &mut scene.world);
        self.cells.give_back(floor);
        values
    }
}
