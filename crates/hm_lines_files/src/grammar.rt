//! What a form of files tells of its own lines.
ghost use Rattle.std.specs.Prelude.{◌≡◌, IfOk, IfErr};
ghost use Rattle.hm_schema.specs.Values.{OptionsValue};
ghost use Rattle.hm_lines_cards.specs.Lent.{AreLines};
ghost use Rattle.hm_lines_files.specs.Forms.{Form, shown_of};
ghost use Rattle.hm_lines_files.specs.FormLaws.{IsForm};
ghost use Rattle.hm_lines_files.specs.Stops.{AreOf, IsStop};
ghost use Rattle.hm_lines_files.specs.Lent.{texts, layout_of, template_of, HaveLines};

use crate::component::{Layout, Template};
use crate::layout_fault::LayoutFault;
use hm_tree::{Memory, Name};
use std::alloc::Global;

/// How the lines of files of a form are laid out.
pub trait Grammar {
    /// The form.
    ghost form: { Self → Form };

    /// The number of its format.
    fn tag(&self) -> u8
        ensures tag { result ≡ (form self.now).tag }
        ensures lawful { IsForm (form self.now) };

    /// The properties that may be shown, whose names rise, each with whether a component may have many texts of it.
    fn properties(&self, alloc: Global) -> Result<Vec<(Name, bool)>, Memory>
        ensures { IfOk result (λ found. found.items ≡ (form self.now).properties) };

    /// What a new component has.
    fn template(&self, alloc: Global) -> Result<Template<'static>, Memory>
        ensures template { IfOk result (λ found. template_of found ≡ (form self.now).template) }
        ensures front { IfOk result (λ found. AreLines found.front.items) }
        ensures more { IfOk result (λ found. AreLines found.more.items) };

    /// The layout of lines, of which none is empty, or the place at which they stop to be those of a file. Some properties are
    /// shown.
    fn layout<'a>(
        &self,
        alloc: Global,
        shown: &[(Name, bool)],
        lines: &[&'a str],
    ) -> Result<Layout<'a>, LayoutFault>
        ensures layout { (o : OptionsValue) → shown.now ≡ shown_of (form self.now) o → IfOk result (λ found. AreOf (form self.now) o (texts lines.now) (layout_of found)) }
        ensures lines { IfOk result (λ found. HaveLines found.pieces.items) }
        ensures stop { (o : OptionsValue) → shown.now ≡ shown_of (form self.now) o → IfErr result (IsStop (form self.now) o (texts lines.now)) };
}
