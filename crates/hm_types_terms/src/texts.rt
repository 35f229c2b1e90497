//! The classes between which text lenses go.
ghost use Rattle.std.specs.Prelude.{◌≡◌, IfOk, OnOk, All, map};
ghost use Rattle.std.specs.Ordering.{eq_by_cmp};
ghost use Rattle.hm_tree.specs.Names.{name_cmp};
ghost use Rattle.hm_text_lens.specs.Meanings.{IsLawful};
ghost use Rattle.hm_types_terms.specs.Courses.{classes_of};
ghost use Rattle.hm_types_terms.specs.TextTypes.{text_type};

use hm_text_lens::TextLens;
use hm_tree::{Class, Memory, Name};
use std::alloc::Global;
use std::cmp::Ordering;

/// The name of a text lens, and the classes of the texts that it reads and of those that it shows.
#[derive(Drop)]
pub struct TextType {
    pub name: Name,
    pub from: Class,
    pub into: Class,
}

/// The types of text lenses, in their order. They are lawful, which a proof knows then.
pub fn text_types(alloc: Global, texts: &[Box<dyn TextLens>]) -> Result<Vec<TextType>, Memory>
    ensures types { IfOk result (λ v. v.items ≡ map text_type (map (λ b. meaning b) texts.now)) }
    ensures lawful { OnOk result (All IsLawful (map (λ b. meaning b) texts.now)) }
{
    let mut types = Vec::with_capacity(alloc, texts.len())?;
    for text in texts {
        types.push(type_of(text)?)?;
    }
    Ok(types)
}

fn type_of(text: &Box<dyn TextLens>) -> Result<TextType, Memory>
    ensures text_type { IfOk result (λ t. t ≡ text_type (meaning text.now)) }
    ensures lawful { OnOk result (IsLawful (meaning text.now)) }
{
    Ok(TextType {
        name: text.name().copy()?,
        from: text.from_class(),
        into: text.into_class(),
    })
}

/// The classes of the first text lens of a name, where there is one.
pub fn classes_named(types: &[TextType], name: &Name) -> Option<(Class, Class)>
    ensures { result ≡ classes_of types.now name.now }
{
    for text in types {
        if has_name(text, name) {
            return Some((text.from, text.into));
        }
    }
    None
}

fn has_name(text: &TextType, name: &Name) -> bool
    ensures { result ≡ eq_by_cmp name_cmp name.now text.now.name }
{
    matches!(name.order(&text.name), Ordering::Equal)
}
