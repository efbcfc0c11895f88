ghost use Rattle.std.specs.Prelude.{◌<◌};

use crate::expect::expect_same;
use argo_ni::{
    Ni, NiEvent, NiKind, Started, interface_goes_on, interface_keeps_ranges, interface_worked,
    windows_by_cycles,
};
use slot_arbiter::Place;

/// The next event, which is carried out: its kind, cycle, target, first word and count.
fn next_done(ni: &mut Ni, read: [u32; 2]) -> Option<(char, u64, u32, u32, u32)>
    requires cores { 0 < ni.old.interface.cores }
    requires begun { 0 < ni.old.from }
    ensures cores { 0 < ni.new.interface.cores }
    ensures begun { 0 < ni.new.from }
{
    let NiEvent { cycle, kind } = ni.next_after(0)?;
    Some(match kind {
        NiKind::Inject {
            target,
            first,
            count,
        } => {
            ni.inject(read);
            ('i', cycle, target, first, count)
        }
        NiKind::Deliver {
            target,
            first,
            count,
            ..
        } => {
            ni.deliver();
            ('d', cycle, target, first, count)
        }
    })
}

#[test]
fn laws_are_called(rt: HostRuntime) {
    let place = Place::new(2, 0, 6, 0).expect(&rt, "a place");
    expect_same(&rt, Ni::new(&place).next_after(0), None);
    windows_by_cycles();
    interface_goes_on();
    interface_keeps_ranges();
    interface_worked();
}

#[test]
fn core_0_of_2_sends_three_words(rt: HostRuntime) {
    let place = Place::new(2, 0, 6, 0).expect(&rt, "a place");
    let mut ni = Ni::new(&place);
    ni.set_source(1, 4);
    ni.set_target(1, 7);
    expect_same(&rt, ni.start(1, 0, 10), Started::Refused);
    expect_same(&rt, ni.start(1, 506, 10), Started::Refused);
    expect_same(&rt, ni.start(1, 3, 10), Started::Begun);
    expect_same(&rt, ni.start(1, 1, 10), Started::Dropped);
    expect_same(&rt, (ni.accepts(1, 505), ni.accepts(1, 506)), (true, false));
    expect_same(&rt, ni.remaining(1), 3);
    expect_same(&rt, ni.dropped(), 1);
    for want in [
        Some(('i', 12, 1, 4, 2)),
        Some(('i', 15, 1, 6, 1)),
        Some(('d', 21, 1, 7, 2)),
        Some(('d', 24, 1, 9, 1)),
        None,
    ] {
        expect_same(&rt, next_done(&mut ni, [5, 6]), want);
    }
}
