//! The texts that are the same for any number of contacts.
ghost use Rattle.std.specs.Prelude.{◌≡◌, IfOk};
ghost use Rattle.hm_generator.specs.Generated.{schema_bytes, left_lens, right_lens};

use hm_tree::Memory;
use std::alloc::Global;

const SCHEMA: &[u8] = b"harmony schema 1
root Book
node Book
  other filled Cards
  shape + 0..
node Cards
  edge *h Card
  edge *t More
  shape *h *t
node More
  edge *h Card
  edge *t More
  shape
  shape *h *t
node Card
  edge EMAIL Texts
  edge TEL Texts
  shape ? EMAIL TEL
node Texts
  other filled Empty
  shape + 1..
";

const LEFT_LENS: &[u8] = b"harmony lens 1
format csv key=Name many=Phone,Email
main = map(list(acond(Email,EMAIL,rename(Email,EMAIL),id);acond(Phone,TEL,rename(Phone,TEL),id)))
";

const RIGHT_LENS: &[u8] = b"harmony lens 1
format vcard show=EMAIL,TEL
main = id
";

pub fn schema(alloc: Global) -> Result<Vec<u8>, Memory>
    ensures { IfOk result (λ file. file.items ≡ schema_bytes) }
{
    Ok(Vec::from_slice(alloc, SCHEMA)?)
}

pub fn left_lens(alloc: Global) -> Result<Vec<u8>, Memory>
    ensures { IfOk result (λ file. file.items ≡ left_lens) }
{
    Ok(Vec::from_slice(alloc, LEFT_LENS)?)
}

pub fn right_lens(alloc: Global) -> Result<Vec<u8>, Memory>
    ensures { IfOk result (λ file. file.items ≡ right_lens) }
{
    Ok(Vec::from_slice(alloc, RIGHT_LENS)?)
}
