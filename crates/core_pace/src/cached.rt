ghost use Rattle.std.specs.Prelude.{◌≡◌, ℕ, List, reverse, is_some};
ghost use Rattle.data_cache.specs.Accesses as cache;
ghost use Rattle.core_pace.specs.Pace.{addresses, is_loaded};

/// Whether a cached word is present depends on the addresses of the cached loads alone, and on no value. A law: it does
/// nothing.
pub fn presence_by_addresses()
    ensures { (accesses : List cache.Access) (address : ℕ)
        → is_some (cache.cached_word accesses address) ≡ is_loaded address (addresses (reverse accesses)) }
{}
