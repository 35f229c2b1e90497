//! What programs show.
ghost use Rattle.std.specs.Prelude.{IfOk, map};
ghost use Rattle.hm_terms.specs.Programs.{program_value, setting_of};
ghost use Rattle.hm_terms.specs.Shown.{Shows};
ghost use Rattle.hm_eval_terms.specs.Conditions.{IsShown};

use hm_eval_terms::{Run, bodies_of, show};
use hm_terms::Program;
use hm_text_lens::TextLens;
use hm_tree::{Memory, Tree};

/// What the lens of a program shows of a tree.
pub fn get(program: &Program, texts: &[Box<dyn TextLens>], concrete: &Tree) -> Result<Tree, Memory>
    requires { IsShown (setting_of (map (λ b. meaning b) texts.now) (program_value program.now)) (program_value program.now).main concrete.now }
    ensures { IfOk result (Shows (setting_of (map (λ b. meaning b) texts.now) (program_value program.now)) (program_value program.now).main concrete.now) }
{
    get_owned(program, texts, concrete.copy()?)
}

/// The same of a tree that is handed over.
pub fn get_owned(
    program: &Program,
    texts: &[Box<dyn TextLens>],
    concrete: Tree,
) -> Result<Tree, Memory>
    requires { IsShown (setting_of (map (λ b. meaning b) texts.now) (program_value program.now)) (program_value program.now).main concrete }
    ensures { IfOk result (Shows (setting_of (map (λ b. meaning b) texts.now) (program_value program.now)) (program_value program.now).main concrete) }
{
    let bodies = bodies_of(concrete.allocator(), &program.definitions)?;
    let run = Run {
        definitions: &program.definitions,
        bodies: &bodies,
        texts,
    };
    show(u64::MAX, &run, &program.main, concrete)
}
