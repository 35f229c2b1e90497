//! Laws of links and folders, and of what is written of them.
ghost use Rattle.std.specs.Prelude.{ℕ, List, ◌++◌};
ghost use Rattle.hm_tree.specs.Nodes.{Tree};
ghost use Rattle.hm_marks.specs.Layouts.{IsLayout};
ghost use Rattle.hm_marks.specs.Writing.{AreWrittenAnew};
ghost use Rattle.hm_marks_tokens.specs.Lines.{laid_list};
ghost use Rattle.hm_marks_tokens.specs.Grammar.{Contents, IsListOf};
ghost use Rattle.hm_netscape_entries.specs.Entries.{html, IsLinkEntry, IsEntry, IsSameLink, MayStand};
ghost use Rattle.hm_netscape_entries.specs.Written.{tidied, list_lines, IsReadAgain};

/// Links and folders are read as they are made, and a link with another address is the same but for that.
pub fn entries_are_read()
    ensures { IsLayout html IsLinkEntry IsEntry IsSameLink }
{}

/// What is read of a file may stand in one.
pub fn lists_may_stand()
    ensures { (bytes : List ℕ) (c : Contents) (rest : List ℕ) → IsListOf bytes c rest → MayStand c }
{}

/// What stands in the outermost folder, with all that stands in folders in it, and is written anew for a tree, by lines and with
/// notes without the white space at their end, is read as that tree again, whatever stands behind it.
pub fn folders_are_read_again()
    ensures { (old : Contents) (t : Tree) (new : Contents) (rest : List ℕ) → MayStand old → AreWrittenAnew html old t new → IsReadAgain (laid_list 0 (list_lines (tidied new)) ++ rest) (tidied new) t rest }
{}
