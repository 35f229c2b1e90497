//! Sets of names.
ghost use Rattle.std.specs.Prelude.{◌≡◌, ◌++◌, not, IfOk, OnOk};
ghost use Rattle.std.specs.List.Sorted.{IsStrictlySortedBy};
ghost use Rattle.std.specs.FinSet as set;
ghost use Rattle.hm_tree.specs.Names.{name_cmp};
ghost use Rattle.hm_tree.specs.Sets.{ArePassed};

use crate::memory::Memory;
use crate::name::Name;
use std::marker::Model;

/// A finite set of names, kept in the order of names.
#[derive(Drop)]
pub struct NameSet {
    names: Vec<Name>,
}

impl Model for NameSet {
    ghost use Rattle.std.specs.Coded.{coded_ℕ, coded_list};
    ghost use Rattle.std.specs.FinSet as set;
    ghost use Rattle.std.specs.List.Sorted.{IsStrictlySortedBy};
    ghost use Rattle.hm_tree.specs.Names.{name_cmp};

    ghost Value = { set.FinSet name_cmp };

    ghost coded = { set.code (coded_list coded_ℕ) };

    ghost view = { λ s. set.from_list s.names.items };

    ghost invariant = { λ s. IsStrictlySortedBy name_cmp s.names.items };
}

impl NameSet {
    /// The set of the names in a list, which may hold doubles.
    pub fn from_list(mut names: Vec<Name>) -> Result<NameSet, Memory>
        ensures { IfOk result (λ s. s ≡ set.from_list names.items) }
    {
        names.sort_by(|one, two| one.order(two))?;
        names.dedup_by(|one, two| one.order(two).is_eq());
        Ok(NameSet { names })
    }

    /// Whether a name is in it.
    pub fn has(&self, name: &Name) -> bool
        ensures { result ≡ set.contains self.now name.now }
    {
        self.names
            .binary_search_by(|other| other.order(name))
            .is_ok()
    }

    /// An equal set.
    pub fn copy(&self) -> Result<NameSet, Memory>
        ensures { IfOk result (λ s. s ≡ self.now) }
    {
        let mut names = Vec::with_capacity(*self.names.allocator(), self.names.len())?;
        for name in &self.names {
            names.push(name.copy()?)?;
        }
        Ok(NameSet { names })
    }

    /// Its names that are in another set, and its other names.
    pub fn parts(&self, names: &NameSet) -> Result<(NameSet, NameSet), Memory>
        ensures inside { IfOk result (λ p. p.0 ≡ set.retain self.now (λ k. set.contains names.now k)) }
        ensures outside { IfOk result (λ p. p.1 ≡ set.retain self.now (λ k. not (set.contains names.now k))) }
    {
        let alloc = *self.names.allocator();
        let mut inside = Vec::new(alloc);
        let mut outside = Vec::new(alloc);
        for name in &self.names {
            if names.has(name) {
                inside.push(name.copy()?)?;
            } else {
                outside.push(name.copy()?)?;
            }
        }
        Ok((NameSet { names: inside }, NameSet { names: outside }))
    }

    /// The set with a name more.
    pub fn with(&self, name: &Name) -> Result<NameSet, Memory>
        ensures { IfOk result (λ s. s ≡ set.insert self.now name.now) }
    {
        let mut names = Vec::with_capacity(*self.names.allocator(), self.names.len() + 1)?;
        push_copies(&mut names, &self.names)?;
        names.push(name.copy()?)?;
        Ok(NameSet::from_list(names)?)
    }

    /// The set without a name.
    pub fn without(&self, name: &Name) -> Result<NameSet, Memory>
        ensures { IfOk result (λ s. s ≡ set.remove self.now name.now) }
    {
        let mut alone = Vec::new(*self.names.allocator());
        alone.push(name.copy()?)?;
        let (_, others) = self.parts(&NameSet::from_list(alone)?)?;
        Ok(others)
    }

    /// The names of both sets.
    pub fn union(&self, other: &NameSet) -> Result<NameSet, Memory>
        ensures { IfOk result (λ s. s ≡ set.union self.now other.now) }
    {
        let mut names = Vec::new(*self.names.allocator());
        push_copies(&mut names, &self.names)?;
        push_copies(&mut names, &other.names)?;
        Ok(NameSet::from_list(names)?)
    }

    /// Its names, in ascending order and each once, which it gives up.
    pub fn into_names(self) -> Vec<Name>
        ensures ascending { IsStrictlySortedBy name_cmp result.items }
        ensures same { set.from_list result.items ≡ self }
    {
        self.names
    }

    /// Its names, in ascending order and each once.
    pub fn names(&self) -> &[Name]
        ensures ascending { IsStrictlySortedBy name_cmp result.now }
        ensures same { set.from_list result.now ≡ self.now }
    {
        &self.names
    }
}

// Puts copies of names behind names.
fn push_copies(names: &mut Vec<Name>, more: &[Name]) -> Result<(), Memory>
    ensures { OnOk result (names.new.items ≡ names.old.items ++ more.now) }
{
    for name in more {
        names.push(name.copy()?)?;
    }
    Ok(())
}

/// Whether a name is among names that rise, where those before a place are less: the search goes on from there, to the
/// first that isn't less. So a walk over names that rise passes each name once.
pub fn has_from(names: &[Name], at: &mut usize, name: &Name) -> bool
    requires ascending { IsStrictlySortedBy name_cmp names.now }
    requires passed { ArePassed names.now at.old name.now }
    ensures found { result ≡ set.contains (set.from_list {R = name_cmp} names.now) name.now }
    ensures passed { ArePassed names.now at.new name.now }
{
    while *at < names.len() && names[*at].order(name).is_lt() {
        *at += 1;
    }
    *at < names.len() && names[*at].same(name)
}
