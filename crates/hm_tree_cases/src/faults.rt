//! Want of memory in words, which no program shows that ends for it.
use crate::setting::expect;
use hm_schema_text::SchemaFault;
use hm_tree_text::TextFault;
use std::test::Fail;

#[test]
fn want_of_memory_is_told(rt: HostRuntime) -> Result<(), Fail> {
    let alloc = rt.alloc();
    let text = TextFault::Memory;
    let schema = SchemaFault::Memory;
    expect(
        format!(in alloc; "{text}, {schema}")?.as_str()
            == "there was no memory, there was no memory",
        "memory",
    )
}
