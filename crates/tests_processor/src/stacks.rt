ghost use Rattle.std.specs.Prelude.{◌≡◌, length, IfOk};

use crate::expect::expect_same;
use stack_cache::{StackCache, StackFault};
use std::alloc::{AllocError, Global};
use std::test::Fail;

fn zeros(alloc: Global, count: usize) -> Result<Vec<u32>, AllocError>
    ensures { IfOk result (λ words. length words.items ≡ count) }
{
    vec![in alloc; 0; count]
}

#[test]
fn spilled_words_come_back(rt: HostRuntime) -> Result<(), Fail> {
    let mut private = zeros(rt.alloc(), 65_536)?;
    let mut cache = StackCache::new();
    expect_same(&rt, (cache.st(), cache.ss()), (65_536, 65_536));
    expect_same(&rt, cache.reserve(100, private.as_mut_slice()), Ok(0));
    expect_same(&rt, (cache.set(99, 7), cache.set(100, 8)), (Some(()), None));
    expect_same(&rt, cache.reserve(60, private.as_mut_slice()), Ok(32));
    expect_same(&rt, (cache.st(), cache.ss()), (65_376, 65_504));
    expect_same(&rt, private.as_slice().get(65_535), Some(&7));
    expect_same(&rt, cache.free(60), Ok(()));
    expect_same(&rt, cache.get(99), None);
    expect_same(&rt, cache.ensure(100, private.as_slice()), Ok(32));
    expect_same(&rt, (cache.get(0), cache.get(99)), (Some(0), Some(7)));
    expect_same(
        &rt,
        cache.reserve(129, private.as_mut_slice()),
        Err(StackFault::Over),
    );
    Ok(())
}

#[test]
fn ends_of_the_region(rt: HostRuntime) -> Result<(), Fail> {
    let mut private = zeros(rt.alloc(), 65_536)?;
    let mut cache = StackCache::new();
    expect_same(&rt, cache.free(1), Err(StackFault::Under));
    expect_same(
        &rt,
        cache.ensure(1, private.as_slice()),
        Err(StackFault::Under),
    );
    for count in 0..128 {
        let moved = if count == 0 { 0 } else { 128 };
        expect_same(&rt, cache.reserve(128, private.as_mut_slice()), Ok(moved));
    }
    expect_same(&rt, (cache.st(), cache.ss()), (49_152, 49_280));
    expect_same(
        &rt,
        cache.reserve(1, private.as_mut_slice()),
        Err(StackFault::Under),
    );
    Ok(())
}
