//! A search for a page that was begun.

ghost use Rattle.std.specs.Prelude.{◌≡◌, ◌≤◌, length, option_map};
ghost use Rattle.cad_run.specs.Slices.{identifier, later};

use crate::counted_source::CountedSource;
use crate::counted_test::CountedTest;
use crate::later_one::later_of;
use crate::stepped_source::Step;
use cad_feature::Feature;
use cad_versions::ObjectId;
use std::alloc::{AllocError, Global};

/// How far a search is.
#[derive(Clone, Copy, Debug, PartialEq, Eq)]
pub enum Progress {
    /// The budget is used up, and the search is not over.
    Part,
    /// The rows of the page are found, and whether more features are left.
    Whole { more: bool },
}

/// A search for a page: the first features that pass a test after a named one. It holds identifiers alone.
#[derive(Debug, Drop)]
pub struct Search {
    /// The rows found so far.
    found: Vec<(ObjectId, u32)>,
    /// Everything up to this identifier was tested, or was passed.
    after: Option<(ObjectId, u32)>,
    /// The most rows that are wanted.
    limit: u32,
    /// How many features were tested.
    examined: u64,
    pub ghost within: { length found.items ≤ limit },
}

/// Drops what is left up to the named feature, if there is one.
fn seek_after<'a, S: CountedSource<'a>>(source: &mut S, after: Option<(ObjectId, u32)>)
    ensures left { S.left source.new ≡ later (option_map identifier after) (S.left source.old) }
    ensures ahead { S.ahead source.new ≡ later (option_map identifier after) (S.ahead source.old) }
    ensures steps { S.steps source.new ≡ S.steps source.old }
{
    if let Some(last) = after {
        source.seek(last);
    }
}

impl Search {
    ghost use Rattle.std.specs.Prelude.{◌≡◌, ◌+◌, ◌<◌, ◌^◌, [], ◌∷◌, Bool, List, IfOk, OnOk, Some, min, option_map};
    ghost use Rattle.std.specs.List.Sorted.{IsStrictlySortedBy};
    ghost use Rattle.cad_feature.specs.Features.{Item, by_identifier, identifier_of};
    ghost use Rattle.cad_run.specs.Counts.{counted};
    ghost use Rattle.cad_run.specs.Owed.{owed, owes, page_in, page_after, remaining, Advances, IfPart, IsPlaced, Keeps};
    ghost use Rattle.cad_run.specs.Steps.{AreAmong};
    ghost use Rattle.cad_run.specs.Slices.{identifier, later};

    /// A search that was not begun: for the page of at most `limit` features after the named one.
    pub fn new(alloc: Global, after: Option<(ObjectId, u32)>, limit: u32) -> Search
        ensures after { result.after ≡ after }
        ensures limit { result.limit ≡ limit }
        ensures none { result.examined ≡ 0 × result.found.items ≡ [] }
        ensures owes { (passes : Item → Bool) (all : List Item) → owes passes all result ≡ page_after passes (option_map identifier after) limit all }
    {
        Search {
            found: Vec::new(alloc),
            after,
            limit,
            examined: 0,
        }
    }

    /// The identifiers of the rows that were found so far.
    pub fn found(&self) -> &[(ObjectId, u32)]
        ensures { result.now ≡ self.now.found.items }
    {
        &self.found
    }

    /// How many features were tested so far.
    pub fn examined(&self) -> u64
        ensures { result ≡ self.now.examined }
    {
        self.examined
    }

    /// Everything up to this identifier is done.
    fn pass(&mut self, last: (ObjectId, u32))
        ensures after { (xs : List Item) → later (option_map identifier self.new.after) xs ≡ later (Some (identifier last)) (later (option_map identifier self.old.after) xs) }
        ensures found { self.new.found ≡ self.old.found }
        ensures limit { self.new.limit ≡ self.old.limit }
        ensures examined { self.new.examined ≡ self.old.examined }
    {
        self.after = Some(later_of(self.after, last));
    }

    /// Tests a feature, which is the first that is left.
    fn take<T: CountedTest>(
        &mut self,
        feature: &Feature,
        test: &mut T,
    ) -> Result<Progress, AllocError>
        requires few { self.old.examined + 1 < 2 ^ 64 }
        ensures owed { IfOk result (λ progress. (rest : List Item) → Keeps (owed (T.passes test.old) self.old (feature.now ∷ rest)) progress (owed (T.passes test.old) self.new rest) (page_in self.new)) }
        ensures after { OnOk result ((xs : List Item) → later (option_map identifier self.new.after) xs ≡ later (Some (identifier_of feature.now)) (later (option_map identifier self.old.after) xs)) }
        ensures limit { self.new.limit ≡ self.old.limit }
        ensures examined { self.new.examined ≡ self.old.examined + 1 }
        ensures same { T.passes test.new ≡ T.passes test.old }
        ensures tested { T.tested test.new ≤ T.tested test.old + 1 }
    {
        let last = (feature.object, feature.number);
        self.examined += 1;
        self.pass(last);
        if !test.test(feature)? {
            return Ok(Progress::Part);
        }
        if self.found.len() == self.limit as usize {
            return Ok(Progress::Whole { more: true });
        }
        self.found.push(last)?;
        Ok(Progress::Part)
    }

    /// One step of the source.
    fn one_step<'a, S: CountedSource<'a>, T: CountedTest>(
        &mut self,
        source: &mut S,
        test: &mut T,
    ) -> Result<Progress, AllocError>
        requires few { self.old.examined + length (S.left source.old) < 2 ^ 64 }
        requires ascending { IsStrictlySortedBy by_identifier (S.left source.old) }
        ensures ascending { OnOk result (IsStrictlySortedBy by_identifier (S.left source.new)) }
        ensures owed { IfOk result (λ progress. Keeps (owed (T.passes test.old) self.old (S.left source.old)) progress (owed (T.passes test.old) self.new (S.left source.new)) (page_in self.new)) }
        ensures place { IfOk result (λ progress. IfPart progress (IsPlaced self.old self.new (S.left source.old) (S.left source.new))) }
        ensures onward { IfOk result (λ progress. IfPart progress (Advances self.old self.new 1 (S.ahead source.old) (S.ahead source.new))) }
        ensures few { OnOk result (self.new.examined + length (S.left source.new) ≤ self.old.examined + length (S.left source.old)) }
        ensures limit { self.new.limit ≡ self.old.limit }
        ensures same { T.passes test.new ≡ T.passes test.old }
        ensures steps { S.steps source.new ≡ counted (S.steps source.old) }
        ensures tested { T.tested test.new ≤ T.tested test.old + 1 }
        ensures progress { self.new.examined ≤ self.old.examined + 1 }
    {
        match source.step()? {
            Step::Over => Ok(Progress::Whole { more: false }),
            Step::Passed(last) => {
                self.pass(last);
                Ok(Progress::Part)
            }
            Step::Found(feature) => self.take(feature, test),
        }
    }

    /// Goes on by at most so many steps of the source, which gives what was not tested yet.
    fn go_on<'a, S: CountedSource<'a>, T: CountedTest>(
        &mut self,
        source: &mut S,
        test: &mut T,
        budget: u32,
    ) -> Result<Progress, AllocError>
        requires few { self.old.examined + length (S.left source.old) < 2 ^ 64 }
        requires ascending { IsStrictlySortedBy by_identifier (S.left source.old) }
        ensures owed { IfOk result (λ progress. Keeps (owed (T.passes test.old) self.old (S.left source.old)) progress (owed (T.passes test.old) self.new (S.left source.new)) (page_in self.new)) }
        ensures place { IfOk result (λ progress. IfPart progress (IsPlaced self.old self.new (S.left source.old) (S.left source.new))) }
        ensures onward { IfOk result (λ progress. IfPart progress (Advances self.old self.new budget (S.ahead source.old) (S.ahead source.new))) }
        ensures few { OnOk result (self.new.examined + length (S.left source.new) ≤ self.old.examined + length (S.left source.old)) }
        ensures limit { self.new.limit ≡ self.old.limit }
        ensures same { T.passes test.new ≡ T.passes test.old }
        ensures steps { S.steps source.new ≤ S.steps source.old + budget }
        ensures used { IfOk result (λ progress. IfPart progress (min (S.steps source.old + budget) 18446744073709551615 ≤ S.steps source.new)) }
        ensures tested { T.tested test.new ≤ T.tested test.old + budget }
        ensures progress { self.new.examined ≤ self.old.examined + budget }
    {
        for step in 0..budget {
            match self.one_step(source, test)? {
                Progress::Part => {}
                Progress::Whole { more } => return Ok(Progress::Whole { more }),
            }
        }
        Ok(Progress::Part)
    }

    /// A piece of the search, with a source that gives all features, as at the beginning. At most `budget` steps of the source are made, and
    /// at most so many features tested. If the search is not over then, it has passed at least so many features. An error means out of
    /// memory.
    pub fn piece<'a, S: CountedSource<'a>, T: CountedTest>(
        &mut self,
        source: &mut S,
        test: &mut T,
        budget: u32,
    ) -> Result<Progress, AllocError>
        requires few { self.old.examined + length (remaining self.old (S.left source.old)) < 2 ^ 64 }
        requires ascending { IsStrictlySortedBy by_identifier (S.left source.old) }
        ensures owes { IfOk result (λ progress. Keeps (owes (T.passes test.old) (S.left source.old) self.old) progress (owes (T.passes test.old) (S.left source.old) self.new) (page_in self.new)) }
        ensures few { IfOk result (λ progress. IfPart progress (self.new.examined + length (remaining self.new (S.left source.old)) < 2 ^ 64)) }
        ensures smaller { IfOk result (λ progress. IfPart progress ((all : List Item) → AreAmong (S.ahead source.old) all → length (remaining self.new all) + budget ≤ length (remaining self.old all))) }
        ensures limit { self.new.limit ≡ self.old.limit }
        ensures same { T.passes test.new ≡ T.passes test.old }
        ensures steps { S.steps source.new ≤ S.steps source.old + budget }
        ensures used { IfOk result (λ progress. IfPart progress (min (S.steps source.old + budget) 18446744073709551615 ≤ S.steps source.new)) }
        ensures tested { T.tested test.new ≤ T.tested test.old + budget }
        ensures progress { self.new.examined ≤ self.old.examined + budget }
    {
        seek_after(source, self.after);
        self.go_on(source, test, budget)
    }
}
