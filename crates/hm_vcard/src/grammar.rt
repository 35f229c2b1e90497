//! The form of files of vCards.

use crate::opening::cards_in;
use hm_lines_cards::Line;
use hm_lines_files::{Grammar, Layout, LayoutFault, Template};
use hm_tree::{Memory, Name};
use std::alloc::Global;

/// The form of files of vCards (RFC 6350).
#[derive(Clone, Copy, Debug)]
pub(crate) struct VCards;

impl Grammar for VCards {
    ghost use Rattle.hm_vcard.specs.Cards.{vcards};

    ghost form = { λ g. vcards };

    fn tag(&self) -> u8 {
        3
    }

    fn properties(&self, alloc: Global) -> Result<Vec<(Name, bool)>, Memory> {
        Ok(vec![in alloc;
            (Name::from_text(alloc, "BDAY")?, false),
            (Name::from_text(alloc, "EMAIL")?, true),
            (Name::from_text(alloc, "NOTE")?, true),
            (Name::from_text(alloc, "ROLE")?, true),
            (Name::from_text(alloc, "TEL")?, true),
            (Name::from_text(alloc, "TITLE")?, true),
        ]?)
    }

    fn template(&self, alloc: Global) -> Result<Template<'static>, Memory> {
        Ok(Template {
            key: Name::from_text(alloc, "FN")?,
            front: vec![in alloc; Line::bare("BEGIN:VCARD"), Line::bare("VERSION:4.0")]?,
            more: Vec::new(alloc),
            end: "END:VCARD",
        })
    }

    fn layout<'a>(
        &self,
        alloc: Global,
        _shown: &[(Name, bool)],
        lines: &[&'a str],
    ) -> Result<Layout<'a>, LayoutFault> {
        cards_in(alloc, lines)
    }
}
