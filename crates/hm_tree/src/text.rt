//! Texts, the short ones of which need no memory of their own.
ghost use Rattle.std.specs.Prelude.{◌≡◌, IfOk, string_bytes};

use crate::memory::Memory;
use arrayvec::ArrayString;
use std::alloc::Global;

/// A text. Most names are short, and one that lies in the value itself costs no allocation.
#[derive(Drop)]
pub enum Text {
    Short(ArrayString<16>),
    Long(String),
}

impl Text {
    ghost use Rattle.hm_tree.specs.Texts.{text_bytes};

    /// A copy of a text.
    pub fn of_str(alloc: Global, text: &str) -> Result<Text, Memory>
        ensures { IfOk result (λ kept. text_bytes kept ≡ text.now) }
    {
        match ArrayString::from(text) {
            Ok(short) => Ok(Text::Short(short)),
            Err(_) => Ok(Text::Long(String::from_str(alloc, text)?)),
        }
    }

    /// The text of a string, whose memory a long one keeps.
    pub fn of_string(text: String) -> Text
        ensures { text_bytes result ≡ string_bytes text }
    {
        match ArrayString::from(text.as_str()) {
            Ok(short) => Text::Short(short),
            Err(_) => Text::Long(text),
        }
    }

    /// Its text.
    pub fn as_str(&self) -> &str
        ensures { result.now ≡ text_bytes self.now }
    {
        match self {
            Text::Short(text) => text.as_str(),
            Text::Long(text) => text.as_str(),
        }
    }

    /// An equal text.
    pub fn copy(&self) -> Result<Text, Memory>
        ensures { IfOk result (λ text. text_bytes text ≡ text_bytes self.now) }
    {
        match self {
            Text::Short(text) => Ok(Text::Short(*text)),
            Text::Long(text) => Ok(Text::Long(text.clone()?)),
        }
    }
}
