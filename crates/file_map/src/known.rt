ghost use Rattle.std.specs.Prelude.{◌≡◌};
ghost use Rattle.file_map.specs.Kinds.{is_source_kind, is_module_kind, is_known};

fn is_source_kind(kind: &str) -> bool
    ensures { result ≡ is_source_kind kind.now }
{
    kind == "object" || kind == "swiftmodule" || kind == "swift-dependencies"
}

fn is_module_kind(kind: &str) -> bool
    ensures { result ≡ is_module_kind kind.now }
{
    kind == "swiftmodule"
        || kind == "swift-dependencies"
        || kind == "image"
        || kind == "priors"
        || kind == "gate"
}

// Whether a kind of output is known under a key.
pub(crate) fn is_known(key: &str, kind: &str) -> bool
    ensures { result ≡ is_known key.now kind.now }
{
    if key.len() == 0 {
        is_module_kind(kind)
    } else {
        is_source_kind(kind)
    }
}
