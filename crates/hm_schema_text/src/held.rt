//! What is known of nodes, since they are held in memory. Nothing is done here: a proof knows it once this was called.
ghost use Rattle.std.specs.Prelude.{◌<◌, ◌^◌, All, IsUtf8, map};
ghost use Rattle.hm_schema.specs.Values.{node_value};
ghost use Rattle.hm_schema_writer.specs.WrittenNodes.{IsWritableShape};
ghost use Rattle.hm_schema_text.specs.Writing.{IsHeld};

use hm_schema::{Node, NodeId, Shape};
use hm_tree::Name;

/// The names that nodes list are UTF-8, as each name is, and the counts of their shapes are below 2 to the power of 64.
pub fn nodes_are_held(nodes: &[Node])
    ensures { All IsHeld (map node_value nodes.now) }
{
    for node in nodes {
        names_are_texts(&node.children);
        counts_are_numbers(&node.shapes);
    }
}

fn names_are_texts(children: &[(Name, NodeId)])
    ensures { All (λ child. IsUtf8 child.0) children.now }
{
    for child in children {
        child.0.text();
    }
}

fn counts_are_numbers(shapes: &[Shape])
    ensures { All IsWritableShape shapes.now }
{
    for shape in shapes {
        count_is_number(shape);
    }
}

fn count_is_number(shape: &Shape)
    ensures { IsWritableShape shape.now }
{
    is_number(shape.least);
    if let Some(most) = shape.most {
        is_number(most);
    }
}

fn is_number(number: u64)
    ensures { number < 2 ^ 64 }
{}
