//! Words that call and that return.
ghost use Rattle.std.specs.Prelude.{◌≡◌};
ghost use Rattle.debug_values.specs.Calls.{is_call, is_return};

use emu_bits::bits;

/// Whether a word is that of BL or BLR.
pub fn is_call(word: u32) -> bool
    ensures { result ≡ is_call word }
{
    bits(word, 31, 26) == 37 || (bits(word, 31, 10) == 3_510_208 && bits(word, 4, 0) == 0)
}

/// Whether a word is that of RET.
pub fn is_return(word: u32) -> bool
    ensures { result ≡ is_return word }
{
    bits(word, 31, 10) == 3_512_256 && bits(word, 4, 0) == 0
}
