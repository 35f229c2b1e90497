//! Whether two schemas are the same.
//!
//! The nodes of both are the vertices of one graph (`specs/JointGraphs`), whose labels are those of the nodes, tidied.
//! Two schemas are the same, as `hm_schema` defines it, exactly where the vertices of their roots are (`hm_graph`). So
//! what is asked about schemas alone needs no graphs.
//!
//! Proved: `same` answers exactly whether two schemas are the same (`hm_schema/specs/Sameness`). They are so exactly
//! where the forms of their roots are (`hm_types_forms/specs/SameForms`), which is what nodes are the same by where
//! lenses are typed.
#![tactic(auto)]

mod sameness;

pub use sameness::same;
