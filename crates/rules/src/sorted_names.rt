//! A search in names that are sorted.

ghost use Rattle.std.specs.Prelude.{◌≡◌, true, map};
ghost use Rattle.std.specs.List.{list_any};
ghost use Rattle.std.specs.Str.{bytes_eq};
ghost use Rattle.rules.specs.NameOrder.{is_sorted};

/// Whether a name is one of these, which are in the order of their bytes.
pub(crate) fn is_among(name: &str, names: &[&str]) -> bool
    requires { is_sorted (map (λ known. known.now) names.now) ≡ true }
    ensures { result ≡ list_any (λ known. bytes_eq name.now known.now) names.now }
{
    names.binary_search(&name).is_ok()
}
