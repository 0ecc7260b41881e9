//! Numbers in an order, as a chain from each to the next.

ghost use Rattle.std.specs.Prelude.{◌≡◌, ℕ, ◌+◌, ◌<◌, List, [], ◌∷◌, Option, Some, IfOk, OnOk, length, slice_get};
ghost use Rattle.hp_derivation.specs.Chains.{IsMidway, Reads};
ghost use Rattle.hp_derivation.specs.Orders.{put_behind, put_in};

use std::alloc::{AllocError, Global};

/// The numbers below a count in an order: the first, and behind each the next.
pub(crate) struct Chain {
    first: Option<usize>,
    links: Vec<Option<usize>>,
}

impl Drop for Chain {
    fn drop(self) {
        let Chain { first: _, links } = self;
        drop(links);
    }
}

impl Chain {
    /// No numbers.
    pub(crate) fn new(alloc: Global) -> Chain
        ensures reads { Reads result [] }
        ensures links { length result.links.items ≡ 0 }
    {
        Chain {
            first: None,
            links: Vec::new(alloc),
        }
    }

    /// How many numbers there are.
    pub(crate) fn len(&self) -> usize
        ensures { result ≡ length self.now.links.items }
    {
        self.links.len()
    }

    /// Puts the next number in front of all.
    fn put_first(&mut self) -> Result<(), AllocError>
        ensures reads { OnOk result ((xs : List ℕ) → Reads self.old xs
            → Reads self.new (length self.old.links.items ∷ xs)) }
        ensures links { OnOk result (length self.new.links.items ≡ length self.old.links.items + 1) }
    {
        let number = self.links.len();
        self.links.push(self.first)?;
        self.first = Some(number);
        Ok(())
    }

    /// Puts the next number right behind another one.
    fn put_behind(&mut self, other: usize) -> Result<(), AllocError>
        requires other { other < length self.old.links.items }
        ensures reads { OnOk result ((xs : List ℕ) → Reads self.old xs
            → Reads self.new (put_behind other (length self.old.links.items) xs)) }
        ensures links { OnOk result (length self.new.links.items ≡ length self.old.links.items + 1) }
    {
        let number = self.links.len();
        let next = self.links[other];
        self.links.push(next)?;
        self.links[other] = Some(number);
        Ok(())
    }

    /// Leaves the next number out of the order.
    fn put_apart(&mut self) -> Result<(), AllocError>
        ensures reads { OnOk result ((xs : List ℕ) → Reads self.old xs → Reads self.new xs) }
        ensures links { OnOk result (length self.new.links.items ≡ length self.old.links.items + 1) }
    {
        self.links.push(None)?;
        Ok(())
    }

    /// Puts the next number right behind another one, or in front of all. One that is to be behind a number that isn't
    /// there is left out.
    pub(crate) fn put(&mut self, behind: Option<usize>) -> Result<(), AllocError>
        ensures reads { OnOk result ((xs : List ℕ) → Reads self.old xs
            → Reads self.new (put_in behind (length self.old.links.items) xs)) }
        ensures links { OnOk result (length self.new.links.items ≡ length self.old.links.items + 1) }
    {
        let Some(other) = behind else {
            return self.put_first();
        };
        if other < self.links.len() {
            self.put_behind(other)
        } else {
            self.put_apart()
        }
    }

    /// The number behind another one, if one is.
    fn next_of(&self, number: usize) -> Option<usize>
        ensures { (next : Option ℕ) → slice_get self.now.links.items number ≡ Some next → result ≡ next }
    {
        if number < self.links.len() {
            self.links[number]
        } else {
            None
        }
    }

    /// Lists the number that is come to, if one is, and says which one is behind it.
    fn read(&self, at: Option<usize>, order: &mut Vec<usize>) -> Result<Option<usize>, AllocError>
        ensures { IfOk result (λ next. (i : ℕ) (xs : List ℕ) → i < length self.now.links.items
            → IsMidway self.now i order.old.items at xs → IsMidway self.now (i + 1) order.new.items next xs) }
    {
        match at {
            None => Ok(None),
            Some(number) => {
                order.push(number)?;
                Ok(self.next_of(number))
            }
        }
    }

    /// All numbers in their order.
    pub(crate) fn list(&self, alloc: Global) -> Result<Vec<usize>, AllocError>
        ensures { IfOk result (λ order. (xs : List ℕ) → Reads self.now xs → order.items ≡ xs) }
    {
        let mut order = Vec::new(alloc);
        let mut at = self.first;
        for _ in 0..self.links.len() {
            at = self.read(at, &mut order)?;
        }
        Ok(order)
    }
}
