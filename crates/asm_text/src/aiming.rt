//! Instructions aimed at addresses.
ghost use Rattle.std.specs.Prelude.{◌≡◌, true, IfSome};
ghost use Rattle.asm_text.specs.Statements.{aimed_at};
ghost use Rattle.asm_text.specs.Targets.{HasTarget, may_have_target};
ghost use Rattle.asm_text.specs.Canonical.{is_canonical};
ghost use Rattle.text_code.specs.Reads.{all_sound};
ghost use Rattle.text_code.specs.Tables.{patterns_of};

use a64_insn::A64Form;
use a64_rows::{decode_a64, encode_a64};
use asm_a64::{A64Texts, lines};
use insn_decode::Insn;
use text_code::{Pattern, Table, aimed, chosen, reach_of, unaimed};

/// The patterns of a form's line, where the line has targets; else none.
fn patterns(form: &A64Form) -> &'static [Pattern]
    ensures patterns { patterns_of result.now ≡ may_have_target form.now }
    ensures sound { all_sound (patterns_of result.now) ≡ true }
{
    match form {
        A64Form::Adr { .. } => A64Texts.line(lines::ADR),
        A64Form::Branch { .. } => A64Texts.line(lines::BRANCH),
        A64Form::BranchCond { .. } => A64Texts.line(lines::BRANCH_COND),
        A64Form::Compare { .. } => A64Texts.line(lines::COMPARE),
        A64Form::Test { .. } => A64Texts.line(lines::TEST),
        A64Form::LsLiteral { .. } => A64Texts.line(lines::LS_LITERAL),
        _ => &[],
    }
}

/// An instruction whose text has a target, aimed at an address from where it stands; none where its field can't reach
/// that.
pub fn aim(i: &Insn, pc: u64, target: u64) -> Option<Insn>
    requires { HasTarget i.now }
    ensures aimed { result ≡ aimed_at i.now pc target }
    ensures canonical { IfSome result (λ j. is_canonical j ≡ true) }
{
    let Insn::A64(base) = i else {
        return None;
    };
    let word = encode_a64(base);
    let pattern = chosen(patterns(base.form()), word)?;
    let reach = reach_of(&pattern.slots())?;
    let word = aimed(reach, unaimed(reach, word), pc, target)?;
    decode_a64(word).map(Insn::A64)
}
