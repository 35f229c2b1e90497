//! Which items of an old file survive where a new tree is written over it, and which are new.
ghost use Rattle.std.specs.Prelude.{◌≡◌, ◌++◌, ◌∷◌, ℕ, List, ◌<◌, T, IfOk, IfSome, OnOk, [], length};
ghost use Rattle.std.specs.Option.{option_map};
ghost use Rattle.std.specs.FinMap.{is_sorted};
ghost use Rattle.hm_tree.specs.Names.{Name as NameValue, name_cmp};
ghost use Rattle.hm_book_items.specs.Items.{IsRewritten, kept};
ghost use Rattle.hm_book_items.specs.LentKeys.{lent_counts};
ghost use Rattle.hm_book_items.specs.Plans.{numbered, places, slots_of, AreCounts, AreWithin, past, past_at, next_survivor, place_for, IsPlaceUnder};

use crate::wanted::{count_at, place_near};
use hm_tree::{Memory, Name};
use std::alloc::Global;

/// An item of the new file.
#[derive(Clone, Copy, Debug, PartialEq, Eq)]
pub struct NewItem {
    /// Its key, by where this stands among the keys of the new tree.
    pub edge: usize,
    /// The old item that survives as this one, by where it stood in its file; none where the item is new.
    pub from: Option<usize>,
    /// Where it stands in the list of its key.
    pub place: usize,
}

/// The items of the new file, in its order: of the keys of the old items, in file order, and of the keys of the new tree in
/// ascending order, each with how many items it is to have. One search for each old item at the most, and no more steps than there
/// are items.
pub fn plan(alloc: Global, keys: &[Name], wanted: &[(&Name, usize)]) -> Result<Vec<NewItem>, Memory>
    requires { T (is_sorted name_cmp (lent_counts wanted.now)) }
    ensures within { IfOk result (λ slots. AreWithin (lent_counts wanted.now) (length keys.now) slots.items) }
    ensures plan { IfOk result (λ slots. IsRewritten name_cmp (numbered 0 keys.now) (places (lent_counts wanted.now)) (slots_of (lent_counts wanted.now) slots.items)) }
{
    let mut counts = no_counts(alloc, wanted)?;
    let mut slots = Vec::new(alloc);
    survivors(keys, wanted, &mut counts, &mut slots)?;
    newcomers(wanted, &counts, &mut slots)?;
    Ok(slots)
}

// The old items that survive; how many old items have each key is counted.
fn survivors(
    keys: &[Name],
    wanted: &[(&Name, usize)],
    counts: &mut Vec<usize>,
    slots: &mut Vec<NewItem>,
) -> Result<(), Memory>
    requires sorted { T (is_sorted name_cmp (lent_counts wanted.now)) }
    requires counts { AreCounts (lent_counts wanted.now) [] counts.old.items }
    requires slots { slots.old.items ≡ [] }
    ensures counts { OnOk result (AreCounts (lent_counts wanted.now) keys.now counts.new.items) }
    ensures slots { OnOk result (slots_of (lent_counts wanted.now) slots.new.items ≡ kept name_cmp (places (lent_counts wanted.now)) [] (numbered 0 keys.now)) }
    ensures within { OnOk result (AreWithin (lent_counts wanted.now) (length keys.now) slots.new.items) }
{
    for item in 0..keys.len() {
        visit(wanted, &keys[item], item, counts, slots)?;
    }
    Ok(())
}

/// How many old items have each key, before the first one.
pub fn no_counts(alloc: Global, wanted: &[(&Name, usize)]) -> Result<Vec<usize>, Memory>
    ensures { IfOk result (λ counts. AreCounts (lent_counts wanted.now) [] counts.items) }
{
    Ok(vec![in alloc; 0; wanted.len()]?)
}

// The next old item: it survives where the tree has something at its place.
fn visit(
    wanted: &[(&Name, usize)],
    key: &Name,
    item: usize,
    counts: &mut Vec<usize>,
    slots: &mut Vec<NewItem>,
) -> Result<(), Memory>
    requires sorted { T (is_sorted name_cmp (lent_counts wanted.now)) }
    requires counts { length counts.old.items ≡ length (lent_counts wanted.now) }
    ensures counts { OnOk result ((keys : List NameValue) → AreCounts (lent_counts wanted.now) keys counts.old.items → AreCounts (lent_counts wanted.now) (keys ++ key.now ∷ []) counts.new.items) }
    ensures slots { OnOk result ((keys : List NameValue) → AreCounts (lent_counts wanted.now) keys counts.old.items → slots_of (lent_counts wanted.now) slots.new.items ≡ slots_of (lent_counts wanted.now) slots.old.items ++ next_survivor (lent_counts wanted.now) keys key.now item) }
    ensures within { OnOk result ((count : ℕ) → item < count → AreWithin (lent_counts wanted.now) count slots.old.items → AreWithin (lent_counts wanted.now) count slots.new.items) }
{
    if let Some((edge, place)) = next_place(wanted, key, last_edge(slots), counts)? {
        slots.push(NewItem {
            edge,
            from: Some(item),
            place,
        })?;
    }
    Ok(())
}

// Where the key of the last survivor stands.
fn last_edge(slots: &[NewItem]) -> usize {
    match slots.last() {
        Some(slot) => slot.edge,
        None => 0,
    }
}

/// Where the next old item survives, by its key, behind others that were counted: where its key stands among those of the new
/// tree, and its place in the list there. None where the list is too short, or where there is none. The item is counted. Its key
/// is looked for at a place and just behind it first, whichever this is: near that of the item before most searches are spared.
pub fn next_place(
    wanted: &[(&Name, usize)],
    key: &Name,
    near: usize,
    counts: &mut Vec<usize>,
) -> Result<Option<(usize, usize)>, Memory>
    requires sorted { T (is_sorted name_cmp (lent_counts wanted.now)) }
    requires counts { length counts.old.items ≡ length (lent_counts wanted.now) }
    ensures counts { OnOk result ((keys : List NameValue) → AreCounts (lent_counts wanted.now) keys counts.old.items → AreCounts (lent_counts wanted.now) (keys ++ key.now ∷ []) counts.new.items) }
    ensures place { IfOk result (λ found. (keys : List NameValue) → AreCounts (lent_counts wanted.now) keys counts.old.items → option_map (λ p. p.1) found ≡ place_for (lent_counts wanted.now) keys key.now) }
    ensures edge { IfOk result (λ found. IfSome found (λ p. IsPlaceUnder (lent_counts wanted.now) key.now p.0 p.1)) }
{
    if let Ok(edge) = place_near(wanted, key, near) {
        let place = counts[edge];
        let Some(after) = place.checked_add(1) else {
            return Err(Memory);
        };
        counts[edge] = after;
        if place < count_at(wanted, edge) {
            return Ok(Some((edge, place)));
        }
    }
    Ok(None)
}

// The new items, which stand at places past the old ones.
fn newcomers(
    wanted: &[(&Name, usize)],
    counts: &[usize],
    slots: &mut Vec<NewItem>,
) -> Result<(), Memory>
    requires { length counts.now ≡ length (lent_counts wanted.now) }
    ensures slots { OnOk result (slots_of (lent_counts wanted.now) slots.new.items ≡ slots_of (lent_counts wanted.now) slots.old.items ++ past (lent_counts wanted.now) counts.now) }
    ensures within { OnOk result ((count : ℕ) → AreWithin (lent_counts wanted.now) count slots.old.items → AreWithin (lent_counts wanted.now) count slots.new.items) }
{
    for edge in 0..wanted.len() {
        append_past(wanted, edge, counts[edge], slots)?;
    }
    Ok(())
}

// The new items of an edge.
fn append_past(
    wanted: &[(&Name, usize)],
    edge: usize,
    count: usize,
    slots: &mut Vec<NewItem>,
) -> Result<(), Memory>
    requires { edge < length (lent_counts wanted.now) }
    ensures slots { OnOk result (slots_of (lent_counts wanted.now) slots.new.items ≡ slots_of (lent_counts wanted.now) slots.old.items ++ past_at (lent_counts wanted.now) edge count) }
    ensures within { OnOk result ((items : ℕ) → AreWithin (lent_counts wanted.now) items slots.old.items → AreWithin (lent_counts wanted.now) items slots.new.items) }
{
    for place in count..count_at(wanted, edge) {
        slots.push(NewItem {
            edge,
            from: None,
            place,
        })?;
    }
    Ok(())
}
