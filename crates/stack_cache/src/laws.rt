ghost use Rattle.std.specs.Prelude.{◌≡◌};
ghost use Rattle.stack_cache.specs.declared.slots.TheConstants.{STACK_CACHE_WORDS};
ghost use Rattle.stack_cache.specs.declared.stack.TheConstants.{STACK_END, STACK_LOWEST};

/// The words of the cache, and the region of private memory that a stack has, in numbers. A law: it does nothing.
pub fn limits()
    ensures words { STACK_CACHE_WORDS ≡ 128 }
    ensures lowest { STACK_LOWEST ≡ 49152 }
    ensures end { STACK_END ≡ 65536 }
{}
