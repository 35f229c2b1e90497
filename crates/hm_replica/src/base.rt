//! What a new view of a replica is put over.
ghost use Rattle.std.specs.Prelude.{◌≡◌, IsTrue, IfOk, IfSome, MatchOption, Some, map};
ghost use Rattle.std.specs.Option.{option_map};
ghost use Rattle.hm_terms.specs.Put.{Puts};
ghost use Rattle.hm_eval_terms.specs.Conditions.{IsPut};
ghost use Rattle.hm_schema.specs.Membership.{IsMemberTree};
ghost use Rattle.hm_replica.specs.Replicas.{ReplicaValue, main_in, setting_in, typed_value, IsFitting, IsReplica, Closes};

use crate::boxed::{laws, write};
use crate::leaving::leave;
use hm_eval::{put_changes, put_owned};
use hm_format::{Format, FormatFault};
use hm_terms::Typed;
use hm_text_lens::TextLens;
use hm_tree::{Memory, Tree};
use std::alloc::Global;

/// What a new view of a replica is put over, and written behind.
#[derive(Drop)]
pub struct Base {
    pub bytes: Vec<u8>,
    /// The tree, and what is shown of it; none where the program's lens is oblivious, which needs neither.
    pub kept: Option<(Tree, Tree)>,
}

impl Base {
    ghost use Rattle.hm_replica.specs.Bases.{IsBase};

    /// The bytes of a view, behind those of the base, which are handed on where they are kept with the same view.
    /// `TooDeep` where the tree that the program puts is over the limit of the format. That tree is left where it is
    /// (`leave`).
    pub fn close(
        self,
        alloc: Global,
        format: &Box<dyn Format>,
        typed: &Typed,
        texts: &[Box<dyn TextLens>],
        shown: Tree,
    ) -> Result<Vec<u8>, FormatFault>
        requires typed { IsFitting (means format.now) (map (λ b. meaning b) texts.now) (typed_value typed.now) }
        requires replica { (r : ReplicaValue) × IsBase r self × IsReplica (means format.now) (map (λ b. meaning b) texts.now) (typed_value typed.now) r }
        requires member { IsMemberTree typed.now.view shown }
        ensures { (r : ReplicaValue) → IsBase r self → IsReplica (means format.now) (map (λ b. meaning b) texts.now) (typed_value typed.now) r → Closes (means format.now) (map (λ b. meaning b) texts.now) (typed_value typed.now) r shown result }
    {
        laws(format);
        let Base { bytes, kept } = self;
        if is_kept(&kept, &shown) {
            return Ok(bytes);
        }
        let tree = put_back(typed, texts, shown, kept)?;
        let made = write(format, alloc, &typed.program.options, &tree, &bytes);
        leave(tree.into_edges());
        made
    }
}

// Whether a view is the one that is kept.
fn is_kept(kept: &Option<(Tree, Tree)>, shown: &Tree) -> bool
    ensures { IsTrue result → MatchOption kept.now ⊥ (λ k. shown.now ≡ k.1) }
{
    match kept {
        Some((_, view)) => shown.same(view),
        None => false,
    }
}

// The tree that is put of a view over the one that is kept; where none is, the lens needs none.
fn put_back(
    typed: &Typed,
    texts: &[Box<dyn TextLens>],
    shown: Tree,
    kept: Option<(Tree, Tree)>,
) -> Result<Tree, Memory>
    requires put { IsPut (setting_in (map (λ b. meaning b) texts.now) (typed_value typed.now)) (main_in (typed_value typed.now)) shown (option_map (λ k. k.0) kept) }
    requires back { IfSome kept (λ k. Puts (setting_in (map (λ b. meaning b) texts.now) (typed_value typed.now)) (main_in (typed_value typed.now)) k.1 (Some k.0) k.0) }
    ensures { IfOk result (Puts (setting_in (map (λ b. meaning b) texts.now) (typed_value typed.now)) (main_in (typed_value typed.now)) shown (option_map (λ k. k.0) kept)) }
{
    match kept {
        Some((concrete, view)) => put_changes(&typed.program, texts, shown, concrete, view),
        None => put_owned(&typed.program, texts, shown, None),
    }
}
