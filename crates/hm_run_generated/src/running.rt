//! A run of made-up files.
ghost use Rattle.std.specs.Prelude.{◌≡◌};
ghost use Rattle.hm_run_effects.specs.Effects.{output_value};
ghost use Rattle.hm_run_files.specs.Steps.{Computes};
ghost use Rattle.hm_run_handed.specs.Handed.{handed_in};
ghost use Rattle.hm_run_sides.specs.Sides.{seen};
ghost use Rattle.hm_outside.specs.Shown.{stored_in};
ghost use Rattle.hm_run_generated.specs.Calm.{calmed};
ghost use Rattle.hm_run_generated.specs.Stored.{names_value, store_names, generated_contents};
ghost use Rattle.hm_run_generated.specs.Generating.{Generates};

use crate::line::numbers_line;
use crate::names::{Names, store_names};
use crate::store::stored;
use hm_outside::MemStore;
use hm_run_files::{Stop, load_all, write_all};
use hm_run_handed::HandedIn;
use hm_run_sync::plan;
use hm_run_words::Output;
use std::alloc::Global;

// A call of a store in memory fails where it is to, and in no other case; here none is to, so a fault is no other answer than want
// of memory.
fn calm<T>(made: Result<T, Stop>) -> Result<T, Stop>
    ensures { result ≡ calmed made }
{
    match made {
        Err(Stop::Fault(_, _)) => Err(Stop::Memory),
        made => made,
    }
}

// The same over a store that holds these files under these names, and nothing else.
fn run_over(
    alloc: Global,
    number: usize,
    names: &Names,
    store: &mut MemStore,
    given: HandedIn<'_>,
) -> Result<Output, Stop>
    requires names { names_value names.now ≡ store_names }
    requires store { stored_in store.now ≡ generated_contents number }
    ensures { Computes (Generates (handed_in given.entry means meaning) number) (seen output_value result) }
{
    let loads = calm(load_all(alloc, store, &names.slots()))?;
    let (news, summary) = plan(alloc, names.written(), given, loads)?;
    calm(write_all(store, &news))?;
    let text = numbers_line(alloc, number, &summary)?;
    Ok(Output { status: 0, text })
}

/// The numbers of a synchronisation of the files of so many contacts, which is carried out in memory.
pub fn run_generated(alloc: Global, number: usize, given: HandedIn<'_>) -> Result<Output, Stop>
    ensures { Computes (Generates (handed_in given.entry means meaning) number) (seen output_value result) }
{
    let names = store_names(alloc)?;
    let mut store = stored(alloc, number, &names)?;
    run_over(alloc, number, &names, &mut store, given)
}
