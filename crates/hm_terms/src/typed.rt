//! Programs that are typed.
use crate::term::Program;
use hm_schema::Schema;

/// A program, the schema of the trees that its main lens shows views of, and that of these views.
#[derive(Drop)]
pub struct Typed {
    pub program: Program,
    pub source: Schema,
    pub view: Schema,
}
