//! That classes are told where there is memory.
ghost use Rattle.std.specs.Prelude.{◌≡◌, IfOk};
ghost use Rattle.hm_alike.specs.Groups.{lent};

use crate::classes;
use hm_tree::{Memory, Name, NameSet};
use std::alloc::Global;
use std::test::Fail;

// The names, lent.
fn lent_names(alloc: Global, names: &[Name]) -> Result<Vec<&Name>, Memory>
    ensures { IfOk result (λ names_lent. lent names_lent.items ≡ names.now) }
{
    let mut all = Vec::new(alloc);
    for name in names {
        all.push(name)?;
    }
    Ok(all)
}

#[test]
fn two_classes(rt: HostRuntime) -> Result<(), Fail> {
    let alloc = rt.alloc();
    let mut names = Vec::new(alloc);
    for text in ["bob", "Eve", "BOB", " Bob  Smith", "bob smith"] {
        names.push(Name::from_text(alloc, text)?)?;
    }
    let names = NameSet::from_list(names)?;
    let names = lent_names(alloc, names.names())?;
    let mut told = String::new(alloc);
    for class in &classes(alloc, &names)? {
        for name in class {
            told.push_str(name.text())?;
            told.push('/')?;
        }
        told.push('.')?;
    }
    assert_eq!(rt; told.as_str(), " Bob  Smith/bob smith/.BOB/bob/.");
    Ok(())
}
