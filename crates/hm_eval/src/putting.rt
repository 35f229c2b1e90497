//! What programs put.
ghost use Rattle.std.specs.Prelude.{IfOk, Some, map, option_copied};
ghost use Rattle.hm_terms.specs.Programs.{program_value, setting_of};
ghost use Rattle.hm_terms.specs.Put.{Puts};
ghost use Rattle.hm_eval_terms.specs.Conditions.{IsPut};

use hm_eval_terms::{Run, bodies_of, put_by, put_changed};
use hm_terms::Program;
use hm_text_lens::TextLens;
use hm_tree::{Memory, Tree};
use hm_tree_parts::copied;

/// What the lens of a program puts of a view, with the tree from before or with none.
pub fn put(
    program: &Program,
    texts: &[Box<dyn TextLens>],
    shown: &Tree,
    before: Option<&Tree>,
) -> Result<Tree, Memory>
    requires { IsPut (setting_of (map (λ b. meaning b) texts.now) (program_value program.now)) (program_value program.now).main shown.now (option_copied before) }
    ensures { IfOk result (Puts (setting_of (map (λ b. meaning b) texts.now) (program_value program.now)) (program_value program.now).main shown.now (option_copied before.entry)) }
{
    put_owned(program, texts, shown.copy()?, copied(before)?)
}

/// The same of a view and a tree that are handed over.
pub fn put_owned(
    program: &Program,
    texts: &[Box<dyn TextLens>],
    shown: Tree,
    before: Option<Tree>,
) -> Result<Tree, Memory>
    requires { IsPut (setting_of (map (λ b. meaning b) texts.now) (program_value program.now)) (program_value program.now).main shown before }
    ensures { IfOk result (Puts (setting_of (map (λ b. meaning b) texts.now) (program_value program.now)) (program_value program.now).main shown before) }
{
    let bodies = bodies_of(shown.allocator(), &program.definitions)?;
    let run = Run {
        definitions: &program.definitions,
        bodies: &bodies,
        texts,
    };
    put_by(u64::MAX, &run, &program.main, shown, before)
}

/// What the lens of a program puts of a view over the tree from before. The view that was shown of that is put back as it,
/// so where both views are alike the tree from before is handed on.
pub fn put_changes(
    program: &Program,
    texts: &[Box<dyn TextLens>],
    shown: Tree,
    before: Tree,
    old: Tree,
) -> Result<Tree, Memory>
    requires put { IsPut (setting_of (map (λ b. meaning b) texts.now) (program_value program.now)) (program_value program.now).main shown (Some before) }
    requires back { Puts (setting_of (map (λ b. meaning b) texts.now) (program_value program.now)) (program_value program.now).main old (Some before) before }
    ensures { IfOk result (Puts (setting_of (map (λ b. meaning b) texts.now) (program_value program.now)) (program_value program.now).main shown (Some before)) }
{
    let bodies = bodies_of(shown.allocator(), &program.definitions)?;
    let run = Run {
        definitions: &program.definitions,
        bodies: &bodies,
        texts,
    };
    put_changed(
        u64::MAX,
        &run,
        &program.main,
        shown,
        Some(before),
        Some(old),
    )
}
