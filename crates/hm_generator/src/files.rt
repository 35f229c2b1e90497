//! The six files of so many contacts.
ghost use Rattle.std.specs.Prelude.{◌≡◌, IfOk};
ghost use Rattle.hm_generator.specs.Generated.{archive_bytes, left_bytes, right_bytes, generated, generated_value};

use crate::contacts::{put_card, put_entry, put_row};
use crate::texts::{left_lens, right_lens, schema};
use hm_tree::Memory;
use std::alloc::Global;

/// The bytes of the files of a run: A is the left one, of CSV, and B the right one, of vCards.
#[derive(Drop)]
pub struct Generated {
    pub schema: Vec<u8>,
    pub lens_a: Vec<u8>,
    pub lens_b: Vec<u8>,
    pub archive: Vec<u8>,
    pub left: Vec<u8>,
    pub right: Vec<u8>,
}

/// The files of so many contacts, in time and memory linear in their number. Names ascend while they have five digits,
/// that is up to 99,999 contacts.
pub fn generate(alloc: Global, number: usize) -> Result<Generated, Memory>
    ensures { IfOk result (λ files. generated_value files ≡ generated number) }
{
    Ok(Generated {
        schema: schema(alloc)?,
        lens_a: left_lens(alloc)?,
        lens_b: right_lens(alloc)?,
        archive: archive(alloc, number)?,
        left: left(alloc, number)?,
        right: right(alloc, number)?,
    })
}

fn archive(alloc: Global, number: usize) -> Result<Vec<u8>, Memory>
    ensures { IfOk result (λ file. file.items ≡ archive_bytes number) }
{
    let mut file = String::new(alloc);
    file.push_str("{")?;
    for before in 0..number {
        if before > 0 {
            file.push_str(",")?;
        }
        put_entry(&mut file, before + 1)?;
    }
    file.push_str("}\n")?;
    Ok(file.into_bytes())
}

fn left(alloc: Global, number: usize) -> Result<Vec<u8>, Memory>
    ensures { IfOk result (λ file. file.items ≡ left_bytes number) }
{
    let mut file = String::new(alloc);
    file.push_str("Name,Phone,Email\n")?;
    for before in 0..number {
        put_row(&mut file, before + 1)?;
    }
    Ok(file.into_bytes())
}

fn right(alloc: Global, number: usize) -> Result<Vec<u8>, Memory>
    ensures { IfOk result (λ file. file.items ≡ right_bytes number) }
{
    let mut file = String::new(alloc);
    for before in 0..number {
        put_card(&mut file, before + 1)?;
    }
    Ok(file.into_bytes())
}
