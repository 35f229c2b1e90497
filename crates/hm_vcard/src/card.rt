//! Cards by their lines.
ghost use Rattle.std.specs.Prelude.{◌≡◌, IfOk, length};
ghost use Rattle.hm_lines_cards.specs.Lent.{AreLines};
ghost use Rattle.hm_lines_files.specs.Lent.{component_of};
ghost use Rattle.hm_vcard.specs.Cards.{lines_of, component_with};
ghost use Rattle.hm_vcard.specs.Lent.{card_lines};

use hm_lines_cards::Line;
use hm_lines_files::Component;
use hm_tree::Memory;

/// The lines of a card, unfolded and without their ends.
#[derive(Drop)]
pub struct Card<'a> {
    pub begin: &'a str,
    pub version: &'a str,
    /// The lines between those and the last, each with its parts.
    pub properties: Vec<Line<'a>>,
    pub end: &'a str,
}

impl<'a> Card<'a> {
    /// How many lines there are.
    pub fn count(&self) -> usize
        ensures { result ≡ length (lines_of (card_lines self.now)) }
    {
        self.properties.len() + 3
    }

    /// The card as a component of a file.
    pub fn into_component(self) -> Result<Component<'a>, Memory>
        requires { AreLines self.properties.items }
        ensures component { IfOk result (λ made. component_of made ≡ component_with (card_lines self.entry)) }
        ensures lines { IfOk result (λ made. AreLines made.lines.items) }
    {
        let mut lines = self.properties;
        lines.insert(0, Line::bare(self.version))?;
        lines.insert(0, Line::bare(self.begin))?;
        Ok(Component {
            lines,
            end: self.end,
        })
    }
}
