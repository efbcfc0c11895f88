ghost use Rattle.std.specs.Prelude.{◌≡◌, ◌≤◌, ◌<◌, ◌^◌, true, IfSome, None, Some, option_map, length};
ghost use Rattle.patmos_model.specs.Flows as flows;
ghost use Rattle.patmos_model.specs.Site as site;
ghost use Rattle.patmos_step.specs.Shown.{plain_of};
ghost use Rattle.pipe_five.specs.Stages as specs;
ghost use Rattle.pipe_five.specs.Stages.{IsInCode};
ghost use Rattle.pipe_five.specs.Follow.{IsAtStart, HasWords, words_standing};

use crate::point::Point;
use patmos_code::{Image, MOST_IN_IMAGE};
use patmos_model::{Flow, Goal};
use patmos_step::Body;

/// Bit 31 of a bundle's first word says that there is a second.
const TWO_WORDS: u32 = 0x8000_0000;

/// The places in fetch and decode.
#[derive(Clone, Copy, Debug, PartialEq, Eq)]
pub struct Ahead {
    pub fetch: Option<u32>,
    pub decode: Option<u32>,
}

/// A bundle of the code: the point at which it stands, and how many words it has.
#[derive(Clone, Copy, Debug, PartialEq, Eq)]
pub struct BundleAt {
    pub point: Point,
    pub words: u32,
}

/// What stands in fetch and decode after a bundle that left the core so.
#[inline(always)]
pub fn look_ahead(body: &Body) -> Ahead
    ensures decode { IsAtStart body.now
        → result.decode ≡ specs.decode_place body.now.image (specs.point_of (plain_of body.now)) }
    ensures fetch { IsAtStart body.now
        → result.fetch ≡ specs.fetch_place body.now.image (specs.point_of (plain_of body.now)) }
{
    match followed(body, &point_of(body)) {
        Some(decode) => Ahead {
            fetch: place_of(followed(body, &behind(&body.image, &decode))),
            decode: Some(decode.point.base + decode.point.offset),
        },
        None => Ahead {
            fetch: None,
            decode: None,
        },
    }
}

// where a core is in its code
#[inline(always)]
fn point_of(body: &Body) -> Point
    ensures { result ≡ specs.point_of (plain_of body.now) }
{
    Point {
        base: body.base,
        offset: body.offset,
        flow: body.flow,
    }
}

// the place of a bundle in the code
#[inline(always)]
fn place_of(bundle: Option<BundleAt>) -> Option<u32>
    requires { IfSome bundle (λ s. specs.word_of s.point < 2 ^ 32) }
    ensures { result ≡ option_map (λ s. specs.word_of s.point) bundle }
{
    match bundle {
        Some(BundleAt { point, .. }) => Some(point.base + point.offset),
        None => None,
    }
}

// the bundle with which the code goes on from a point: there, or where a flow without a delay slot left goes to; none
// if the task ends, no function starts there, or the bundle is not wholly inside its function
#[inline(always)]
fn followed(body: &Body, point: &Point) -> Option<BundleAt>
    ensures point { IsAtStart body.now
        → option_map (λ s. s.point) result ≡ specs.followed body.now.image point.now }
    ensures words { IfSome result (HasWords body.now.image) }
    ensures within { IfSome result (λ s. IsInCode body.now.image s.point) }
    ensures place { IfSome result (λ s. specs.word_of s.point < 2 ^ 32) }
{
    match turned(point) {
        Some(point) => standing(body, point),
        None => None,
    }
}

// the bundle at the point, if it is one of the code
#[inline(always)]
fn standing(body: &Body, point: Point) -> Option<BundleAt>
    ensures point { IsAtStart body.now
        → option_map (λ s. s.point) result ≡ specs.standing body.now.image (Some point) }
    ensures words { IfSome result (HasWords body.now.image) }
    ensures within { IfSome result (λ s. IsInCode body.now.image s.point) }
    ensures place { IfSome result (λ s. specs.word_of s.point < 2 ^ 32) }
{
    match words_standing(body, &point) {
        Some(words) => Some(BundleAt { point, words }),
        None => None,
    }
}

// the point, or the target of its flow where no delay slot is left
#[inline(always)]
fn turned(point: &Point) -> Option<Point>
    ensures { result ≡ specs.turned point.now }
{
    match point.flow {
        Some(Flow { goal, slots: 0 }) => target_of(point.base, &goal),
        Some(_) | None => Some(*point),
    }
}

// where a flow goes to from a function
fn target_of(base: u32, goal: &Goal) -> Option<Point>
    ensures { result ≡ specs.target_of base goal.now }
{
    match *goal {
        Goal::Within { offset } => Some(plainly(base, offset)),
        Goal::Call { target } => Some(plainly(target, 0)),
        Goal::Fill { target } => Some(plainly(target, 0)),
        Goal::Return { base, offset } => {
            if base == 0 {
                None
            } else {
                Some(plainly(base, offset))
            }
        }
    }
}

// a point without a flow
#[inline(always)]
fn plainly(base: u32, offset: u32) -> Point
    ensures { result ≡ specs.plainly base offset }
{
    Point {
        base,
        offset,
        flow: None,
    }
}

// how many words the bundle at a point has, if the point is one of the code
#[inline(always)]
fn words_standing(body: &Body, point: &Point) -> Option<u32>
    ensures standing { IsAtStart body.now → result ≡ words_standing body.now.image point.now }
    ensures words { IfSome result (λ words. words ≡ specs.words_at body.now.image point.now) }
    ensures within { IfSome result (λ words. IsInCode body.now.image point.now) }
{
    if point.base == body.base {
        words_here(body, point)
    } else {
        words_elsewhere(&body.image, point)
    }
}

// the words of the bundle at a point in the core's own function, whose words are decoded
#[inline(always)]
fn words_here(body: &Body, point: &Point) -> Option<u32>
    requires here { point.now.base ≡ body.now.base }
    ensures standing { IsAtStart body.now → result ≡ words_standing body.now.image point.now }
    ensures words { IfSome result (λ words. words ≡ specs.words_at body.now.image point.now) }
    ensures within { IfSome result (λ words. IsInCode body.now.image point.now) }
{
    has_few_words(&body.image);
    match body.decoded_at(point.offset) {
        Some(found) => Some(found.words),
        None => None,
    }
}

// the words of the bundle at a point in another function
fn words_elsewhere(image: &Image, point: &Point) -> Option<u32>
    ensures standing { result ≡ words_standing image.now point.now }
    ensures words { IfSome result (λ words. words ≡ specs.words_at image.now point.now) }
    ensures within { IfSome result (λ words. IsInCode image.now point.now) }
{
    if stands(image, point) {
        Some(words_at(image, point))
    } else {
        None
    }
}

// whether a function starts at the point's base, and the bundle at the point is wholly inside it
#[tactic(auto, using(patmos_step::proofs::Places::found_start, patmos_step::proofs::Places::no_start))]
fn stands(image: &Image, point: &Point) -> bool
    ensures stands { result ≡ specs.stands image.now point.now }
    ensures within { result ≡ true → IsInCode image.now point.now }
{
    match image.function_size(point.base) {
        Some(size) => {
            u64::from(point.offset) + u64::from(words_at(image, point)) <= u64::from(size)
        }
        None => false,
    }
}

// how many words the bundle at a point has
fn words_at(image: &Image, point: &Point) -> u32
    ensures words { result ≡ specs.words_at image.now point.now }
    ensures few { 1 ≤ result }
    ensures within { length image.now.words ≤ MOST_IN_IMAGE }
{
    if word_at(image, point) < TWO_WORDS {
        1
    } else {
        2
    }
}

// the word at a point
fn word_at(image: &Image, point: &Point) -> u32
    ensures word { result ≡ site.word_at image.now point.now.base point.now.offset }
    ensures within { length image.now.words ≤ MOST_IN_IMAGE }
{
    let at = point.base as usize + point.offset as usize;
    image.words().get(at).copied().unwrap_or(0)
}

/// The words of code have numbers of 32 bits.
#[inline(always)]
pub fn has_few_words(image: &Image)
    ensures { length image.now.words ≤ MOST_IN_IMAGE }
{
    let _ = image.words();
}

// the point after a bundle
#[inline(always)]
fn behind(image: &Image, bundle: &BundleAt) -> Point
    requires words { bundle.now.words ≡ specs.words_at image.now bundle.now.point }
    requires within { IsInCode image.now bundle.now.point }
    ensures { result ≡ specs.behind image.now bundle.now.point }
{
    let point = bundle.point;
    Point {
        base: point.base,
        offset: point.offset + bundle.words,
        flow: counted(point.flow),
    }
}

// a flow with one delay slot less
#[inline(always)]
fn counted(flow: Option<Flow>) -> Option<Flow>
    ensures { result ≡ flows.counted flow None }
{
    match flow {
        Some(flow) => Some(Flow {
            goal: flow.goal,
            slots: flow.slots.saturating_sub(1),
        }),
        None => None,
    }
}
