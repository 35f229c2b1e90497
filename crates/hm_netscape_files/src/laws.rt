//! Laws of files.
ghost use Rattle.std.specs.Prelude.{◌≡◌, ℕ, List, None, Result, Ok};
ghost use Rattle.hm_existence.specs.Existence.{IsThere};
ghost use Rattle.hm_tree.specs.Nodes.{Tree as SeenTree};
ghost use Rattle.hm_format.specs.declared.fault.FormatFault.{FormatFault as SeenFault};
ghost use Rattle.hm_schema.specs.Membership.{IsMemberTree};
ghost use Rattle.hm_marks_schema.specs.Schema.{marks_schema};
ghost use Rattle.hm_marks_schema.specs.Bookmarks.{AreBookmarks};
ghost use Rattle.hm_marks_schema.specs.Nesting.{marks_over};
ghost use Rattle.hm_marks_tokens.specs.Grammar.{Contents};
ghost use Rattle.hm_netscape_entries.specs.Entries.{html, MayStand};
ghost use Rattle.hm_netscape_entries.specs.Toolbars.{bar_of, other_of};
ghost use Rattle.hm_netscape_files.specs.Anew.{IsAnew};
ghost use Rattle.hm_netscape_files.specs.Files.{NetscapeReads};
ghost use Rattle.hm_netscape_files.specs.Writing.{IsWrittenAnew, NetscapeWrites};

/// Bytes are read as one tree, or refused for one fault.
pub fn files_are_known()
    ensures { (bytes : List ℕ) (r s : Result SeenTree SeenFault) → NetscapeReads bytes r → NetscapeReads bytes s → r ≡ s }
{}

/// The tree of a file is a member of the schema of bookmarks.
pub fn files_have_members()
    ensures { (bytes : List ℕ) (t : SeenTree) → NetscapeReads bytes (Ok t) → IsMemberTree marks_schema t }
{}

/// What is written anew of the outermost folder for a tree shows it in the bookmarks bar and beside it, and may stand in a file.
pub fn folders_show_their_tree()
    ensures tree { (old : Contents) (t : SeenTree) (new : Contents) → MayStand old → IsAnew old t new → AreBookmarks html (bar_of new) (other_of new) t }
    ensures sound { (old : Contents) (t : SeenTree) (new : Contents) → MayStand old → IsAnew old t new → MayStand new }
{}

/// A file that is written anew for a tree within the limits is read as that tree.
pub fn files_are_read_again()
    ensures { (t : SeenTree) (before after : List ℕ) → IsWrittenAnew t before after → marks_over t ≡ None → NetscapeReads after (Ok t) }
{}

/// All bytes are read as a tree, or refused for a fault.
pub fn files_are_told()
    ensures { (bytes : List ℕ) → IsThere (NetscapeReads bytes) }
{}

/// Of a tree one text is written behind the bytes from before.
pub fn files_are_written_once()
    ensures { (t : SeenTree) (before one other : List ℕ) → NetscapeWrites t before one → NetscapeWrites t before other → one ≡ other }
{}

/// Behind each file there is what is written of each member of the schema.
pub fn files_are_written()
    ensures { (before : List ℕ) (old t : SeenTree) → NetscapeReads before (Ok old) → IsMemberTree marks_schema t → IsThere (NetscapeWrites t before) }
{}
