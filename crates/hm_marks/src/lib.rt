//! Bookmarks in folders within folders: their tree, what is written of another tree, and what stays of them then.
//!
//! A browser keeps links and folders in an order, and the same again in each folder; some files have separators between
//! them. `specs/Contents` has them over what a format keeps of a link, of a folder and of a separator, and
//! `specs/Layouts` how it reads and makes these, so that one law serves each format. Links and folders are the items of
//! a folder, by their titles, and its tree is that of `hm_book_items`, at each depth (`specs/FolderTrees`).
//!
//! Where a folder is written anew for a tree, its items survive as `hm_book_items` tells, separators keep their places
//! among them, and new items stand behind all (`specs/Pieces`). A link that survives gets another address where it has
//! to, and a folder gets what it is to have in it in the same way; where a link is to be a folder, or a folder a link,
//! a new one stands in its place (`specs/Writing`). What has to stay of a folder is said without that, of what stood in
//! it and what does now (`specs/Kept`). Which tree a folder may have is told of one link or folder after the other: each is
//! among the items with its key, and there are no more keys than these (`specs/Among`). This crate has definitions and
//! theorems alone.
//!
//! Proved, for each layout that reads what it makes: what is written anew for a tree shows this tree, at each depth
//! (`put_get`, `proofs/ReadBack`), and may stand in a file where what stood before could (`anew_sound`,
//! `proofs/Sound`); a folder has one tree at the most, and one folder at the most is written for a tree (`tree_once`,
//! `anew_once`, `proofs/Once`); a folder's tree has each link and each folder of it, so one that a tree lacks tells that it
//! is another (`tree_has_all`, `proofs/Among`); and all stays that has to (`anew_kept`, `proofs/KeptContents`): a link but for its
//! address, a folder but for what goes from it and comes into it, each separator in its place, and the order of what
//! survives. A folder that stays as it is keeps all of itself (`keeps_itself`, `proofs/KeptItself`). Small folders in which
//! one of these isn't kept are told apart (`proofs/Examples`).
#![tactic(auto)]
