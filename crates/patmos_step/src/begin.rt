ghost use Rattle.std.specs.Prelude.{◌≡◌, ◌≤◌, ◌+◌, IfOk, length, slice_index};
ghost use Rattle.shared_order.specs.Words.{zeros};
ghost use Rattle.patmos_model.specs.Begin.{entry, first_private, overlaid};
ghost use Rattle.patmos_model.specs.Site.{size_at};
ghost use Rattle.patmos_step.specs.Sound.{HasAllWords};

use crate::body::Body;
use crate::code::decode_all;
use argo_ni::Ni;
use data_cache::DataCache;
use local_store::{PRIVATE_WORDS, Store};
use method_cache::MethodCache;
use patmos_code::{Image, MOST_IN_FUNCTION};
use patmos_model::{Status, Then, Transfer};
use patmos_sem::Regs;
use slot_arbiter::Place;
use stack_cache::StackCache;
use std::alloc::Global;
use tc_word::{List, OutOfMemory};

impl Body {
    ghost use Rattle.std.specs.Prelude.{◌≡◌, ◌≤◌, IfOk};
    ghost use Rattle.patmos_model.specs.Apart.{site_of};
    ghost use Rattle.patmos_model.specs.Begin.{begun};
    ghost use Rattle.patmos_step.specs.Ready.{CanGoOn, IsUpTo};
    ghost use Rattle.patmos_step.specs.Shown.{Shows, plain_of};

    /// The core at a place with a task and its input, before the first cycle. Its first transactions, as
    /// many as `trace`, are kept.
    pub fn new(
        alloc: Global,
        place: Place,
        image: &Image,
        input: &[u32],
        trace: u32,
    ) -> Result<Body, OutOfMemory>
        ensures plain { IfOk result (λ b. plain_of b ≡ (begun (site_of place image.now) input.now).plain) }
        ensures shows { IfOk result (λ b. Shows b (begun (site_of place image.now) input.now).seen) }
        ensures can { IfOk result CanGoOn }
        ensures ni { IfOk result (λ b. IsUpTo 0 b.ni) }
        ensures place { IfOk result (λ b. b.place ≡ place) }
        ensures room { IfOk result (λ b. b.room ≡ trace) }
    {
        let image = copy_of(alloc, image)?;
        let code = decode_all(alloc, image.words())?;
        let (base, size) = first_function(&image);
        let mut methods = MethodCache::new();
        methods.touch(base, size);
        Ok(Body {
            place,
            regs: Regs::new(),
            stack: StackCache::new(),
            store: memory_of(alloc, &image, input)?,
            ni: Ni::new(&place),
            methods,
            cache: DataCache::new(),
            base,
            size,
            offset: 0,
            flow: None,
            transfer: Transfer::read(size + 1, Then::Nothing),
            free: place.start,
            status: Status::Running,
            trace: Vec::with_capacity(alloc, trace as usize)?,
            room: trace as usize,
            image,
            code,
        })
    }
}

// an image of the same parts
fn copy_of(alloc: Global, image: &Image) -> Result<Image, OutOfMemory>
    ensures { IfOk result (λ copy. copy ≡ image.now) }
{
    let words = List::of(Vec::from_slice(alloc, image.words())?);
    let starts = List::of(Vec::from_slice(alloc, image.starts())?);
    let initial = List::of(Vec::from_slice(alloc, image.initial())?);
    Ok(Image::of(words, starts, initial, image.input_at(), image.input_room()))
}

// the place of the function that a task begins with, and its size
fn first_function(image: &Image) -> (u32, u32)
    ensures place { result.0 ≡ entry image.now }
    ensures size { result.1 ≡ size_at image.now (entry image.now) }
    ensures small { result.1 ≤ MOST_IN_FUNCTION }
    ensures inside { result.0 + result.1 ≤ length image.now.words }
{
    let base = image.starts()[0];
    let Some(size) = image.function_size(base) else {
        unreachable!()
    };
    (base, size)
}

// the memories of a core at the start of a task with this image and input
fn memory_of(alloc: Global, image: &Image, input: &[u32]) -> Result<Store, OutOfMemory>
    ensures scratch { IfOk result (λ store. slice_index store.scratch ≡ zeros) }
    ensures private { IfOk result (λ store. slice_index store.private ≡ first_private image.now input.now) }
    ensures words { IfOk result HasAllWords }
{
    let mut store = Store::new(alloc)?;
    let count = input.len().min(image.input_room() as usize);
    let (taken, _) = input.split_at(count);
    put(&mut store, 4, image.initial());
    put(&mut store, image.input_at() as usize, taken);
    Ok(store)
}

// puts words into private memory from a place on
fn put(store: &mut Store, from: usize, words: &[u32])
    requires all { HasAllWords store.old }
    requires fits { from + length words.now ≤ PRIVATE_WORDS }
    ensures scratch { store.new.scratch ≡ store.old.scratch }
    ensures private { slice_index store.new.private ≡ overlaid from words.now (slice_index store.old.private) }
    ensures all { HasAllWords store.new }
{
    overlay(store.private(), from, words);
}

// puts words over a part of others
fn overlay(memory: &mut [u32], from: usize, words: &[u32])
    requires fits { from + length words.now ≤ length memory.old }
    ensures words { slice_index memory.new ≡ overlaid from words.now (slice_index memory.old) }
    ensures len { length memory.new ≡ length memory.old }
{
    let (_, rest) = memory.split_at_mut(from);
    let (prefix, _) = rest.split_at_mut(words.len());
    prefix.copy_from_slice(words);
}
