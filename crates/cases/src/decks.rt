//! The corners of the deck check, each with the number and the place that the rules give.

use std::alloc::{AllocError, Global};
use std::test::Fail;

/// Begin and so many plain transistors, if there are to be any, then these bytes: the number and the place of the
/// refusal, or None for an accepted deck.
struct Case(Option<usize>, &'static [u8], Option<(u8, usize)>);

const CASES: [Case; 26] = [
    Case(None, &[], Some((3, 0))),
    Case(None, &[0x10], Some((3, 1))),
    Case(None, &[0x10, 2], Some((5, 1))),
    Case(None, &[0x7F], Some((4, 0))),
    Case(None, &[0x99, 1], Some((4, 0))),
    Case(None, &[0; 16385], Some((1, 16385))),
    Case(None, &[0; 16384], Some((4, 0))),
    Case(Some(0), &[], Some((3, 2))),
    Case(Some(0), &[0x7F], None),
    Case(Some(0), &[0x10], Some((4, 2))),
    Case(Some(0), &[0x99], Some((2, 2))),
    Case(Some(0), &[0x30, 0, 0], Some((3, 5))),
    Case(Some(0), &[0x7F, 0x7F], Some((4, 3))),
    Case(Some(0), &[0x7F, 0x99], Some((4, 3))),
    Case(Some(2), &[0x7F], None),
    Case(
        Some(1),
        &[0x20, 2, 0, 0, 0, 0, 0, 0, 0, 0, 0, 0, 0, 0, 0, 0, 2],
        Some((5, 20)),
    ),
    Case(
        Some(1),
        &[0x20, 1, 0, 0, 0, 0, 0, 0, 0, 0, 0, 0, 0, 0, 0, 0, 2],
        Some((5, 29)),
    ),
    Case(
        Some(1),
        &[0x20, 1, 0, 0, 0, 0, 0, 0, 0, 0, 16, 0, 0, 0, 0, 0, 0],
        Some((5, 29)),
    ),
    Case(
        Some(1),
        &[0x20, 1, 0, 0, 0, 0, 0, 0, 0, 0, 15, 255, 0, 0, 0, 0, 1],
        Some((5, 35)),
    ),
    Case(
        Some(1),
        &[0x20, 1, 0, 0, 0, 0, 0, 0, 0, 0, 15, 255, 0, 0, 0, 9, 2],
        Some((5, 35)),
    ),
    Case(
        Some(1),
        &[0x20, 1, 0, 0, 0, 0, 0, 0, 0, 0, 15, 255, 0, 0, 0, 9, 1],
        Some((3, 36)),
    ),
    Case(Some(256), &[0x7F], None),
    Case(Some(256), &[0x20, 9], Some((3, 4356))),
    Case(
        Some(256),
        &[0x20, 0, 0, 0, 0, 0, 0, 0, 0, 0, 0, 1, 0, 0, 0, 0, 0],
        Some((6, 4354)),
    ),
    Case(
        Some(256),
        &[0x20, 9, 0, 0, 0, 0, 0, 0, 0, 0, 0, 0, 0, 0, 0, 0, 9],
        Some((6, 4354)),
    ),
    Case(
        Some(256),
        &[0x30, 9, 0, 0, 0, 0, 0, 0, 0, 0, 0, 0, 0, 0, 0, 0, 9],
        Some((3, 4371)),
    ),
];

fn deck_of(heap: Global, case: &Case) -> Result<Vec<u8>, AllocError> {
    let mut bytes = Vec::new(heap);
    if let Some(transistors) = case.0 {
        bytes.extend_from_slice(&[0x10, 1])?;
        for _ in 0..transistors {
            bytes.extend_from_slice(&[0x20, 0, 0, 0, 0, 20, 0, 16, 0, 17, 0, 100, 0, 1, 0, 0, 0])?;
        }
    }
    bytes.extend_from_slice(case.1)?;
    Ok(bytes)
}

fn refusal_of(bytes: &[u8]) -> Option<(u8, usize)> {
    let refusal = deck::check(bytes).err()?;
    Some((refusal.number(), refusal.place()))
}

#[test]
fn corners(rt: HostRuntime) -> Result<(), Fail> {
    for case in &CASES {
        let bytes = deck_of(rt.alloc(), case)?;
        assert!(rt; refusal_of(&bytes) == case.2);
    }
    Ok(())
}
