//! Stores.
ghost use Rattle.std.specs.Prelude.{◌≡◌, ◌↔◌, ◌≤◌, ◌+◌, true, IfOk, Contains, filter, length};
ghost use Rattle.std.specs.List.{filter_map};
ghost use Rattle.fx_terms.specs.Graphs.{IsGraph};
ghost use Rattle.fx_algebra.specs.Answers.{has_rows};
ghost use Rattle.fx_algebra.specs.BasicGraphPatterns.{bgp, forced, parts_of};
ghost use Rattle.fx_algebra.specs.Evaluation.{extended};
ghost use Rattle.fx_algebra.specs.Operators.{merges};
ghost use Rattle.fx_store.specs.Lookups.{has_parts, known_of, most_steps, most_tries};
ghost use Rattle.fx_store.specs.Stores.{alone};

use crate::evaluation::rows_of;
use crate::finding::some_fits;
use crate::lookups::{Sought, count, run};
use crate::orders::{Orders, Steps};
use fx_algebra::Solution;
use fx_terms::{Graph, Memory, Pattern, Triple};
use std::alloc::Global;
use std::marker::{Brand, Model};
use std::sync::ledger::{Blank, Ledger};

/// A graph, in which the triples that fit a pattern are found. Contracts see the list of its triples.
///
/// It is kept in three orders. Whichever parts of a pattern are known, one of them has the triples with these parts side by side,
/// so they are found by halves.
#[derive(Drop)]
pub struct Store {
    orders: Orders,
}

impl Model for Store {
    ghost use Rattle.std.specs.Prelude.{List};
    ghost use Rattle.fx_terms.specs.declared.triples.Triple.{Triple as TripleTree};

    ghost Value = { List TripleTree };

    ghost view = { λ s. s.orders };
}

impl Store {
    /// The store of a graph.
    pub fn load(alloc: Global, graph: Graph) -> Result<Store, Memory>
        ensures { IfOk result (λ store. store ≡ graph) }
    {
        Ok(Store {
            orders: Orders::of(alloc, graph)?,
        })
    }

    /// That its triples are those of a graph, for a proof that needs to know. It does nothing.
    pub fn known(&self)
        ensures { IsGraph self.now }
    {
        self.orders.known();
    }

    /// A solution with each triple that fits a pattern under it: what it merges to with each solution of the pattern that it
    /// agrees with (SPARQL 1.1 section 18.3), in the order of the triples.
    pub fn matches(
        &self,
        alloc: Global,
        pattern: &Pattern,
        solution: &Solution,
    ) -> Result<Vec<Solution>, Memory>
        ensures fitting { IfOk result (λ more. more.items ≡ filter_map (λ t. forced solution.now (parts_of pattern.now t)) self.now) }
        ensures merged { IfOk result (λ more. more.items ≡ merges (bgp self.now (alone pattern.now)) solution.now) }
    {
        self.matches_from::<Brand>(alloc, pattern, solution, Blank::new(1))
    }

    fn matches_from<L: Ledger>(
        &self,
        alloc: Global,
        pattern: &Pattern,
        solution: &Solution,
        blank: Blank,
    ) -> Result<Vec<Solution>, Memory>
        requires name { blank.name ≡ L.name }
        requires parts { blank.parts ≡ L.parts }
        requires one { blank.parts ≡ 1 }
        ensures fitting { IfOk result (λ more. more.items ≡ filter_map (λ t. forced solution.now (parts_of pattern.now t)) self.now) }
        ensures merged { IfOk result (λ more. more.items ≡ merges (bgp self.now (alone pattern.now)) solution.now) }
    {
        let (book, share) = blank.open::<L>();
        let mut steps = Steps::of(book, share);
        self.matches_counted(alloc, pattern, solution, &mut steps)
    }

    /// The same, where each triple that is looked at is a step. It takes twice as many steps at most as the number of triples has
    /// binary digits, and one for each triple that is equal to the pattern at each place where that has a constant, or a variable
    /// that the solution binds.
    pub fn matches_counted<L: Ledger>(
        &self,
        alloc: Global,
        pattern: &Pattern,
        solution: &Solution,
        steps: &mut Steps<L>,
    ) -> Result<Vec<Solution>, Memory>
        ensures fitting { IfOk result (λ more. more.items ≡ filter_map (λ t. forced solution.now (parts_of pattern.now t)) self.now) }
        ensures merged { IfOk result (λ more. more.items ≡ merges (bgp self.now (alone pattern.now)) solution.now) }
        ensures steps { steps.new ≤ steps.old + most_steps self.now pattern.now solution.now }
    {
        // That the names of a solution rise is what its pairs promise.
        let _pairs = solution.pairs();
        rows_of(alloc, &self.orders, pattern, solution, steps)
    }

    /// Each row with each triple that fits a pattern under it, in the order of the rows and then of the triples. From row to row
    /// this is the join with the solutions of the pattern, so one pattern after another gives the join with those of a run.
    ///
    /// It looks the triples of each row up as `matches_counted` does.
    pub fn extend(
        &self,
        alloc: Global,
        pattern: &Pattern,
        rows: &[Solution],
    ) -> Result<Vec<Solution>, Memory>
        ensures { IfOk result (λ more. more.items ≡ extended self.now pattern.now rows.now) }
    {
        self.extend_from::<Brand>(alloc, pattern, rows, Blank::new(1))
    }

    fn extend_from<L: Ledger>(
        &self,
        alloc: Global,
        pattern: &Pattern,
        rows: &[Solution],
        blank: Blank,
    ) -> Result<Vec<Solution>, Memory>
        requires name { blank.name ≡ L.name }
        requires parts { blank.parts ≡ L.parts }
        requires one { blank.parts ≡ 1 }
        ensures { IfOk result (λ more. more.items ≡ extended self.now pattern.now rows.now) }
    {
        let (book, share) = blank.open::<L>();
        let mut steps = Steps::of(book, share);
        self.extend_counted(alloc, pattern, rows, &mut steps)
    }

    fn extend_counted<L: Ledger>(
        &self,
        alloc: Global,
        pattern: &Pattern,
        rows: &[Solution],
        steps: &mut Steps<L>,
    ) -> Result<Vec<Solution>, Memory>
        ensures { IfOk result (λ more. more.items ≡ extended self.now pattern.now rows.now) }
    {
        let mut more = Vec::new(alloc);
        for row in rows {
            let mut found = self.matches_counted(alloc, pattern, row, steps)?;
            more.append(&mut found)?;
        }
        Ok(more)
    }

    /// Whether some triple fits a pattern under a solution: whether some solution of the pattern agrees with that one (SPARQL 1.1
    /// section 18.3). It stops at the first that fits, and takes no memory.
    pub fn some_fits(&self, pattern: &Pattern, solution: &Solution) -> bool
        ensures fitting { result ≡ has_rows (filter_map (λ t. forced solution.now (parts_of pattern.now t)) self.now) }
        ensures merged { result ≡ has_rows (merges (bgp self.now (alone pattern.now)) solution.now) }
    {
        self.some_fits_from::<Brand>(pattern, solution, Blank::new(1))
    }

    fn some_fits_from<L: Ledger>(
        &self,
        pattern: &Pattern,
        solution: &Solution,
        blank: Blank,
    ) -> bool
        requires name { blank.name ≡ L.name }
        requires parts { blank.parts ≡ L.parts }
        requires one { blank.parts ≡ 1 }
        ensures fitting { result ≡ has_rows (filter_map (λ t. forced solution.now (parts_of pattern.now t)) self.now) }
        ensures merged { result ≡ has_rows (merges (bgp self.now (alone pattern.now)) solution.now) }
    {
        let (book, share) = blank.open::<L>();
        let mut steps = Steps::of(book, share);
        self.some_fits_counted(pattern, solution, &mut steps)
    }

    /// The same, where each triple that is looked at is a step. It takes twice as many steps at most as the number of triples has
    /// binary digits, and one for each triple up to the first that fits, among those that are equal to the pattern at each place where
    /// that has a constant, or a variable that the solution binds.
    pub fn some_fits_counted<L: Ledger>(
        &self,
        pattern: &Pattern,
        solution: &Solution,
        steps: &mut Steps<L>,
    ) -> bool
        ensures fitting { result ≡ has_rows (filter_map (λ t. forced solution.now (parts_of pattern.now t)) self.now) }
        ensures merged { result ≡ has_rows (merges (bgp self.now (alone pattern.now)) solution.now) }
        ensures steps { steps.new ≤ steps.old + most_tries self.now pattern.now solution.now }
    {
        // As in `matches_counted`, the names rise.
        let _pairs = solution.pairs();
        some_fits(&self.orders, pattern, solution, steps)
    }

    /// How many triples are equal to a pattern at each place where that has a constant, or a variable that the solution binds: no more than
    /// so many fit it. It takes no memory, and goes over no triples: they stand side by side.
    pub fn count(&self, pattern: &Pattern, solution: &Solution) -> u64
        ensures { result ≡ length (filter (has_parts (known_of pattern.now solution.now)) self.now) }
    {
        self.count_from::<Brand>(pattern, solution, Blank::new(1))
    }

    fn count_from<L: Ledger>(&self, pattern: &Pattern, solution: &Solution, blank: Blank) -> u64
        requires name { blank.name ≡ L.name }
        requires parts { blank.parts ≡ L.parts }
        requires one { blank.parts ≡ 1 }
        ensures { result ≡ length (filter (has_parts (known_of pattern.now solution.now)) self.now) }
    {
        let (book, share) = blank.open::<L>();
        let mut steps = Steps::of(book, share);
        count(&self.orders, pattern, solution, &mut steps)
    }

    /// Whether a triple is in it. It takes no memory.
    pub fn has(&self, triple: &Triple) -> bool
        ensures { (result ≡ true) ↔ Contains self.now triple.now }
    {
        self.has_from::<Brand>(triple, Blank::new(1))
    }

    fn has_from<L: Ledger>(&self, triple: &Triple, blank: Blank) -> bool
        requires name { blank.name ≡ L.name }
        requires parts { blank.parts ≡ L.parts }
        requires one { blank.parts ≡ 1 }
        ensures { (result ≡ true) ↔ Contains self.now triple.now }
    {
        let (book, share) = blank.open::<L>();
        let mut steps = Steps::of(book, share);
        let found = run(&self.orders, &Sought::triple(triple), &mut steps);
        found.start < found.end
    }
}
