ghost use Rattle.std.specs.Prelude.{◌≡◌};
ghost use Rattle.local_store.specs.declared.map.TheConstants.{COMM_WORDS, SHARED_WORDS};
ghost use Rattle.local_store.specs.declared.store.TheConstants.{DATA_WORDS, FIRST_DATA_WORD, INPUT_WORDS, PRIVATE_WORDS, SCRATCH_WORDS};

/// The sizes of the memories, in words, in numbers. A law: it does nothing.
pub fn limits()
    ensures scratchpad { SCRATCH_WORDS ≡ 2048 }
    ensures communication { COMM_WORDS ≡ 512 }
    ensures shared { SHARED_WORDS ≡ 4096 }
    ensures private { PRIVATE_WORDS ≡ 65536 }
    ensures data { DATA_WORDS ≡ 49152 }
    ensures first { FIRST_DATA_WORD ≡ 4 }
    ensures input { INPUT_WORDS ≡ 4096 }
{}
