//! Whether a schema has twins.
ghost use Rattle.std.specs.Prelude.{◌≡◌, ◌↔◌, IsTrue, All, [], map};
ghost use Rattle.hm_schema.specs.Values.{node_value};

use hm_schema::{Node, Schema};

/// Whether no node of a schema has twins.
pub fn is_plain(schema: &Schema) -> bool
    ensures { IsTrue result ↔ All (λ n. n.twins ≡ []) schema.now.nodes }
{
    are_plain(schema.nodes())
}

fn are_plain(nodes: &[Node]) -> bool
    ensures { IsTrue result ↔ All (λ n. n.twins ≡ []) (map node_value nodes.now) }
{
    for node in nodes {
        if !node.twins.is_empty() {
            return false;
        }
    }
    true
}
