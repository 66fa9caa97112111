use handles::begin::begin;
use handles::calling::release;
use std::alloc::Global;

// The outcome of asking for a reel by its three numbers. One that is made is given back.
fn outcome(heap: Global, format: u32, store: u32, transform: u32) -> u32 {
    match begin(heap, format, store, transform) {
        Ok(reel) => {
            release(reel);
            0
        }
        Err(numbers) => numbers.outcome,
    }
}

#[test]
fn each_reel_is_made(rt: HostRuntime) {
    for format in 1..4 {
        for store in 0..2 {
            for transform in 0..2 {
                assert_eq!(rt; outcome(rt.alloc(), format, store, transform), 0);
            }
        }
    }
}

// A choice that is not known is told as such, and so are two.
#[test]
fn unknown_choices(rt: HostRuntime) {
    assert_eq!(rt; outcome(rt.alloc(), 2, 2, 0), 4);
    assert_eq!(rt; outcome(rt.alloc(), 2, 0, 2), 4);
    assert_eq!(rt; outcome(rt.alloc(), 2, u32::MAX, u32::MAX), 4);
}

// A number that names no format is refused, whatever is chosen.
#[test]
fn unknown_formats(rt: HostRuntime) {
    assert_eq!(rt; outcome(rt.alloc(), 0, 0, 0), 1);
    assert_eq!(rt; outcome(rt.alloc(), 4, 1, 1), 1);
    assert_eq!(rt; outcome(rt.alloc(), 4, 2, 2), 1);
}
