ghost use Rattle.std.specs.Prelude.{◌≡◌};
ghost use Rattle.method_cache.specs.declared.cache.TheConstants.{BURST, METHOD_CACHE_WORDS, MOST_METHODS};

/// The limits of the cache, in numbers: functions and words; and the words of a transaction. A law: it does nothing.
pub fn limits()
    ensures methods { MOST_METHODS ≡ 16 }
    ensures words { METHOD_CACHE_WORDS ≡ 4096 }
    ensures burst { BURST ≡ 4 }
{}
