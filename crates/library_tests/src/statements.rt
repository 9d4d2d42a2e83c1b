//! Lines of a listing, each read alone.
use asm_text::{Body, parse_line};
use asm_tokens::AsmFault;
use insn_decode::encode;
use std::alloc::Global;

/// The word of the instruction that a line is, where it is one whose target, if any, is put in.
fn word_of_line(alloc: Global, text: &str) -> Result<Option<u32>, AsmFault> {
    let line = parse_line(alloc, text)?;
    match &line.body {
        Body::Plain(insn) => Ok(Some(encode(insn))),
        Body::Nothing | Body::Aimed(_, _) | Body::Directive(_) => Ok(None),
    }
}

#[test]
fn a_line_is_read_alone(rt: HostRuntime) {
    let alloc = rt.alloc();
    let swap = word_of_line(alloc, "cas x0, x1, [x2]");
    let interleave = word_of_line(alloc, "zip1 z0.s, z1.s, z2.s");
    let few = word_of_line(alloc, "add x0, x1");
    let label = word_of_line(alloc, "here:");
    assert_eq!(rt; swap, Ok(Some(0xC8A0_7C41)));
    assert_eq!(rt; interleave, Ok(Some(0x05A2_6020)));
    assert_eq!(rt; few, Err(AsmFault::BadOperands));
    assert_eq!(rt; label, Ok(None));
}
