//! What is known of the options of a lens file, since their values are names.
ghost use Rattle.std.specs.Prelude.{All, IsUtf8, List, map};
ghost use Rattle.hm_tree.specs.Names.{Name as NameValue};
ghost use Rattle.hm_schema.specs.Values.{pair_value};

use hm_tree::Name;

/// The values of options are UTF-8, as each name is.
pub fn values_are_texts(pairs: &[(Name, Vec<Name>)])
    ensures { All (λ (p : NameValue × List NameValue). All IsUtf8 p.1) (map pair_value pairs.now) }
{
    for pair in pairs {
        names_are_texts(&pair.1);
    }
}

fn names_are_texts(names: &[Name])
    ensures { All IsUtf8 names.now }
{
    for name in names {
        name.text();
    }
}
