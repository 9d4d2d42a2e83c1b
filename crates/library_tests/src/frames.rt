//! Frames that are given back and taken again.
use frame_arena::FrameArena;
use std::test::Fail;

/// What is found of two frames of an arena, of which the first is given back and taken again: whether no third one was
/// spare, whether the first is zeros then, and whether the second is as it was; a byte that was written to the first;
/// and how many frames were spare before and behind that. None where a frame was wanting.
#[tactic(auto, using(frame_arena::proofs::Callers::frames))]
fn found_again(arena: &mut FrameArena) -> Option<([bool; 3], (u8, [u32; 2]))> {
    let first = arena.take()?;
    let second = arena.take()?;
    arena.bytes_mut(&first).fill(9);
    arena.bytes_mut(&second).fill(5);
    let is_full = arena.take().is_none();
    let seventh = arena.bytes(&first)[7];
    arena.give(first);
    let spare = arena.spare();
    let again = arena.take()?;
    let are_zeros = arena.bytes(&again).iter().all(|byte| *byte == 0);
    let are_fives = arena.bytes(&second).iter().all(|byte| *byte == 5);
    Some((
        [is_full, are_zeros, are_fives],
        (seventh, [spare, arena.spare()]),
    ))
}

#[test]
fn a_frame_is_zeros_when_it_is_taken_again(rt: HostRuntime) -> Result<(), Fail> {
    let mut arena = FrameArena::new(rt.alloc(), 2)?;
    assert_eq!(rt; found_again(&mut arena), Some(([true; 3], (9, [1, 0]))));
    Ok(())
}
