//! The two folders at the root of a file.
ghost use Rattle.std.specs.Prelude.{◌≡◌, MatchOption, Some, option_map};
ghost use Rattle.serde_json.specs.View.{view};
ghost use Rattle.hm_json_marks.specs.Roots.{root_at, bar_key, other_key};
ghost use Rattle.hm_json_marks.specs.Reading.{HasNoRoots};

use serde_json::Value;

// The bar and the other folder, if a file has both.
pub(crate) fn roots_of(file: &Value) -> Option<(&Value, &Value)>
    ensures { MatchOption result (HasNoRoots (view file.now)) (λ found. (root_at bar_key (view file.now) ≡ Some (view found.0.now)) × (root_at other_key (view file.now) ≡ Some (view found.1.now))) }
{
    match (root_at(file, "bookmark_bar"), root_at(file, "other")) {
        (Some(bar), Some(other)) => Some((bar, other)),
        _ => None,
    }
}

// A member of the member `roots`.
fn root_at<'a>(file: &'a Value, key: &str) -> Option<&'a Value>
    ensures { option_map (λ value. view value.now) result ≡ root_at key.now (view file.now) }
{
    file.get("roots").and_then(|roots| roots.get(key))
}
