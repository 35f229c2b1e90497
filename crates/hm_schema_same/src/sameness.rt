//! Whether two schemas are the same.
ghost use Rattle.std.specs.Prelude.{◌≡◌, ◌↔◌, ◌++◌, ◌^◌, IsTrue, IfOk, length, map};
ghost use Rattle.hm_schema.specs.Values.{node_value};
ghost use Rattle.hm_schema.specs.Tidied.{tidied};
ghost use Rattle.hm_schema.specs.WellFormed.{IsWellFormed};
ghost use Rattle.hm_schema.specs.Sameness.{AreSame};
ghost use Rattle.hm_types_forms.specs.Forms.{form};
ghost use Rattle.hm_types_forms.specs.SameForms.{IsSame};
ghost use Rattle.hm_schema_same.specs.JointGraphs.{LeadBelow, AllLeadBelow, HasVertices, begins, edges_from};

use hm_graph::Vertex;
use hm_schema::{Node, Schema, label_numbers};
use hm_tree::Memory;
use std::alloc::Global;

/// Whether two schemas are the same: some pairing of their nodes holds the two roots, and paired nodes, tidied, have equal
/// sets of shapes and of twins, the same listed names, one class of all other names, and lead to paired nodes. They are
/// the same exactly where the forms of their roots are.
pub fn same(alloc: Global, one: &Schema, two: &Schema) -> Result<bool, Memory>
    ensures same { IfOk result (λ yes. IsTrue yes ↔ AreSame one.now two.now) }
    ensures forms { IfOk result (λ _. AreSame one.now two.now ↔ IsSame (form one.now.nodes one.now.root) (form two.now.nodes two.now.root)) }
{
    let count = one.nodes().len();
    let nodes = all_nodes(alloc, one, two)?;
    let labels = label_numbers(alloc, &nodes)?;
    let graph = vertices(alloc, &nodes, count, &labels)?;
    hm_graph::same(alloc, &graph, one.root().place, count + two.root().place)
}

// The nodes of both schemas.
fn all_nodes<'a>(alloc: Global, one: &'a Schema, two: &'a Schema) -> Result<Vec<&'a Node>, Memory>
    ensures nodes { IfOk result (λ nodes. map (λ node. node_value node.now) nodes.items ≡ one.now.nodes ++ two.now.nodes) }
    ensures well_formed { IfOk result (λ _. IsWellFormed one.now × IsWellFormed two.now) }
{
    let mut nodes = Vec::new(alloc);
    for node in one.nodes() {
        nodes.push(node)?;
    }
    for node in two.nodes() {
        nodes.push(node)?;
    }
    Ok(nodes)
}

// A vertex for each node, of which the first so many are of the first schema.
fn vertices(
    alloc: Global,
    nodes: &[&Node],
    count: usize,
    labels: &[u64],
) -> Result<Vec<Vertex>, Memory>
    requires labels { length labels.now ≡ length nodes.now }
    requires edges { AllLeadBelow (2 ^ 64) count (map (λ node. node_value node.now) nodes.now) }
    ensures size { IfOk result (λ graph. length graph.items ≡ length nodes.now) }
    ensures vertices { IfOk result (λ graph. HasVertices graph.items labels.now count (map (λ node. node_value node.now) nodes.now)) }
{
    let mut graph = Vec::with_capacity(alloc, nodes.len())?;
    for i in 0..nodes.len() {
        let next = edges(alloc, nodes[i], begin_of(i, count))?;
        graph.push(Vertex {
            label: labels[i],
            next,
        })?;
    }
    Ok(graph)
}

// Where the nodes of the schema of a node begin, of which the first has so many.
fn begin_of(i: usize, count: usize) -> usize
    ensures { result ≡ begins count i }
{
    if i < count { 0 } else { count }
}

// Where the edges of a node lead, tidied, if the nodes of its schema begin at a place.
fn edges(alloc: Global, node: &Node, first: usize) -> Result<Vec<usize>, Memory>
    requires { LeadBelow (2 ^ 64) first (tidied (node_value node.now)) }
    ensures { IfOk result (λ edges. edges.items ≡ edges_from first (tidied (node_value node.now))) }
{
    let node = node.tidied(alloc)?;
    let mut edges = Vec::with_capacity(alloc, node.children.len())?;
    for child in &node.children {
        edges.push(first + child.1.place)?;
    }
    if let Some(other) = &node.other {
        edges.push(first + other.1.place)?;
    }
    Ok(edges)
}
