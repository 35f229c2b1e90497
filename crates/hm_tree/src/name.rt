//! Names, which are texts in the order of their UTF-8 bytes.
ghost use Rattle.std.specs.Prelude.{◌≡◌, ◌↔◌, IsTrue, IfOk, IsUtf8, string_bytes};
ghost use Rattle.std.specs.Prelude.{refl};
ghost use Rattle.std.specs.Cmp.{partial_equiv_from_equiv, partial_order_from_total};
ghost use Rattle.std.specs.Ordering.{eq_by_cmp, as_partial_cmp};
ghost use Rattle.std.proofs.lemmas.Cmp.{eq_by_cmp_equiv};
ghost use Rattle.hm_tree.specs.Names.{name_cmp};
ghost use Rattle.hm_tree.specs.NameLaws.{name_total};
ghost use Rattle.hm_tree.specs.Cleaned.{cleaned};
ghost use Rattle.hm_tree.specs.Classes.{IsClean, IsInClass, is_text};

use crate::class::{Class, is_filled, is_trimmed};
use crate::cleaning::{clean_bytes, is_clean};
use crate::folding::is_own_folding;
use crate::memory::Memory;
use crate::text::Text;
use std::alloc::Global;
use std::cmp::Ordering;
use std::marker::Model;

/// A name: a text, seen by contracts as its UTF-8 bytes.
#[derive(Drop)]
pub struct Name {
    text: Text,
}

impl Model for Name {
    ghost use Rattle.std.specs.Prelude.{List, ℕ, IsUtf8};
    ghost use Rattle.hm_tree.specs.Texts.{text_bytes};

    ghost Value = { List ℕ };

    ghost view = { λ n. text_bytes n.text };

    ghost invariant = { λ n. IsUtf8 (text_bytes n.text) };
}

impl Name {
    /// The name with the bytes of a text.
    pub fn from_text(alloc: Global, text: &str) -> Result<Name, Memory>
        ensures value { IfOk result (λ name. name ≡ text.now) }
        ensures utf8 { IfOk result (λ name. IsUtf8 name) }
    {
        Ok(Name {
            text: Text::of_str(alloc, text)?,
        })
    }

    /// The name with the bytes of a text, which it takes over.
    pub fn from_string(alloc: Global, text: String) -> Result<Name, Memory>
        ensures value { IfOk result (λ name. name ≡ string_bytes text) }
        ensures utf8 { IfOk result (λ name. IsUtf8 name) }
    {
        Ok(Name {
            text: Text::of_string(text),
        })
    }

    /// The name of what is left of a text where each CRLF and each other CR is made LF, and the control characters of
    /// ASCII other than tab and LF are dropped.
    pub fn cleaned(alloc: Global, text: &str) -> Result<Name, Memory>
        ensures value { IfOk result (λ name. name ≡ cleaned text.now) }
        ensures clean { IfOk result (λ name. IsClean name) }
        ensures utf8 { IfOk result (λ name. IsUtf8 name) }
    {
        if is_clean(text.as_bytes()) {
            return Name::from_text(alloc, text);
        }
        let bytes = clean_bytes(alloc, text.as_bytes())?;
        match String::from_utf8(bytes) {
            Ok(text) => Name::from_string(alloc, text),
            Err(_) => unreachable!(),
        }
    }

    /// The same of the bytes of a text.
    pub fn cleaned_bytes(alloc: Global, bytes: &[u8]) -> Result<Name, Memory>
        requires { IsUtf8 bytes.now }
        ensures { IfOk result (λ name. name ≡ cleaned bytes.now) }
    {
        match std::str::from_utf8(bytes) {
            Ok(text) => Name::cleaned(alloc, text),
            Err(_) => unreachable!(),
        }
    }

    /// Whether it isn't of spaces alone.
    pub fn is_text(&self) -> bool
        ensures { result ≡ is_text self.now }
    {
        self.bytes().iter().any(|byte| *byte != b' ')
    }

    /// Whether it is in a class.
    pub fn in_class(&self, class: Class) -> bool
        ensures { IsTrue result ↔ IsInClass class self.now }
    {
        match class {
            Class::Any => true,
            Class::Clean => is_clean(self.bytes()),
            Class::Filled => is_filled(self.bytes()),
            Class::Trimmed => is_trimmed(self.bytes()),
            Class::Folded => is_trimmed(self.bytes()) && is_own_folding(self.text()),
        }
    }

    // A name's bytes are UTF-8, which a proof knows once this was called. It does nothing.
    pub(crate) fn utf8(&self)
        ensures { IsUtf8 self.now }
    {
        let _ = &self.text;
    }

    /// Its text.
    pub fn text(&self) -> &str
        ensures value { result.now ≡ self.now }
        ensures utf8 { IsUtf8 self.now }
    {
        self.text.as_str()
    }

    /// Its UTF-8 bytes.
    pub fn bytes(&self) -> &[u8]
        ensures value { result.now ≡ self.now }
        ensures utf8 { IsUtf8 self.now }
    {
        self.text.as_str().as_bytes()
    }

    /// An equal name.
    pub fn copy(&self) -> Result<Name, Memory>
        ensures value { IfOk result (λ name. name ≡ self.now) }
        ensures utf8 { IfOk result (λ name. IsUtf8 name) }
    {
        Ok(Name {
            text: self.text.copy()?,
        })
    }

    /// How it stands to another name in the order of bytes.
    #[tactic(auto, unfolding(crate::specs::Names::name_cmp))]
    pub fn order(&self, other: &Name) -> Ordering
        ensures { result ≡ name_cmp self.now other.now }
    {
        self.text.as_str().cmp(&other.text.as_str())
    }

    /// Whether the two are equal.
    pub fn same(&self, other: &Name) -> bool
        ensures { IsTrue result ↔ (self.now ≡ other.now) }
    {
        self.text.as_str() == other.text.as_str()
    }
}

impl PartialEq for Name {
    ghost eq = { eq_by_cmp name_cmp };

    ghost laws = { partial_equiv_from_equiv (eq_by_cmp_equiv name_total) };

    fn eq(&self, other: &Name) -> bool {
        self.order(other).is_eq()
    }
}

impl Eq for Name {
    ghost laws = { eq_by_cmp_equiv name_total };
}

impl PartialOrd for Name {
    ghost partial_cmp = { as_partial_cmp name_cmp };

    ghost laws = { partial_order_from_total name_total };

    fn partial_cmp(&self, other: &Name) -> Option<Ordering> {
        Some(self.order(other))
    }
}

impl Ord for Name {
    ghost cmp = { name_cmp };

    ghost total = { name_total };

    ghost matches_partial_cmp = { λ x y. refl };

    ghost matches_eq = { λ x y. refl };

    fn cmp(&self, other: &Name) -> Ordering {
        self.order(other)
    }
}
