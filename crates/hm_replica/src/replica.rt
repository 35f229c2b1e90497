//! Replicas.
ghost use Rattle.std.specs.Prelude.{◌≡◌, IfOk, map};
ghost use Rattle.hm_schema.specs.Membership.{IsMemberTree};
ghost use Rattle.hm_replica.specs.Replicas.{replica_value, typed_value, IsFitting, IsReplica, Opens, Closes};

use crate::base::Base;
use crate::boxed::{laws, read};
use hm_eval::{get, get_owned, is_oblivious};
use hm_format::{Format, FormatFault};
use hm_terms::Typed;
use hm_text_lens::TextLens;
use hm_tree::{Memory, Tree};
use std::alloc::Global;

/// A file, the tree that it is read as, and what a program shows of that.
#[derive(Drop)]
pub struct Replica {
    pub bytes: Vec<u8>,
    /// None where the program's lens is oblivious: it puts a view without the tree from before, so no tree is copied.
    pub concrete: Option<Tree>,
    pub view: Tree,
}

impl Replica {
    ghost use Rattle.hm_replica.specs.Bases.{IsBase};

    /// The replica of a file. It is refused where the format refuses to read it.
    pub fn from_bytes(
        alloc: Global,
        format: &Box<dyn Format>,
        typed: &Typed,
        texts: &[Box<dyn TextLens>],
        bytes: Vec<u8>,
    ) -> Result<Replica, FormatFault>
        requires { IsFitting (means format.now) (map (λ b. meaning b) texts.now) (typed_value typed.now) }
        ensures { Opens (means format.now) (map (λ b. meaning b) texts.now) (typed_value typed.now) bytes.items result }
    {
        laws(format);
        let concrete = read(format, alloc, &typed.program.options, &bytes)?;
        if is_oblivious(&typed.program.main) {
            let view = get_owned(&typed.program, texts, concrete)?;
            return Ok(Replica {
                bytes,
                concrete: None,
                view,
            });
        }
        let view = get(&typed.program, texts, &concrete)?;
        Ok(Replica {
            bytes,
            concrete: Some(concrete),
            view,
        })
    }

    /// What a new view is put over. The view of the replica is let go where that needs none.
    pub fn into_base(self) -> Base
        ensures { IsBase (replica_value self) result }
    {
        let Replica {
            bytes,
            concrete,
            view,
        } = self;
        let kept = match concrete {
            Some(tree) => Some((tree, view)),
            None => None,
        };
        Base { bytes, kept }
    }

    /// The view, and what a new one is put over. The view is copied where that needs it.
    pub fn parted(self) -> Result<(Tree, Base), Memory>
        ensures view { IfOk result (λ parts. parts.0 ≡ self.view) }
        ensures base { IfOk result (λ parts. IsBase (replica_value self) parts.1) }
    {
        let Replica {
            bytes,
            concrete,
            view,
        } = self;
        let Some(tree) = concrete else {
            return Ok((view, Base { bytes, kept: None }));
        };
        let shown = view.copy()?;
        Ok((
            shown,
            Base {
                bytes,
                kept: Some((tree, view)),
            },
        ))
    }

    /// The bytes of a view, behind those of the replica, which are handed on where the view is that of the replica.
    /// `TooDeep` where the tree that the program puts is over the limit of the format.
    pub fn close(
        self,
        alloc: Global,
        format: &Box<dyn Format>,
        typed: &Typed,
        texts: &[Box<dyn TextLens>],
        shown: Tree,
    ) -> Result<Vec<u8>, FormatFault>
        requires typed { IsFitting (means format.now) (map (λ b. meaning b) texts.now) (typed_value typed.now) }
        requires replica { IsReplica (means format.now) (map (λ b. meaning b) texts.now) (typed_value typed.now) (replica_value self) }
        requires member { IsMemberTree typed.now.view shown }
        ensures { Closes (means format.now) (map (λ b. meaning b) texts.now) (typed_value typed.now) (replica_value self) shown result }
    {
        laws(format);
        // A base that keeps a view is compared with when it is closed.
        if self.concrete.is_none() && shown.same(&self.view) {
            return Ok(self.bytes);
        }
        self.into_base().close(alloc, format, typed, texts, shown)
    }
}
