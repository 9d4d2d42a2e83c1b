//! The bits of a word in other places, by exchanges of runs of them.
ghost use Rattle.std.specs.Prelude.{◌≡◌, ◌<◌, ◌⊎◌, ◌+◌, ◌-◌, ◌&&◌, ◌||◌, ℕ, nat_le};
ghost use Rattle.lane_permute.specs.Places as places;
ghost use Rattle.lane_permute.specs.Places.{is_one, Comes, by_quarters, by_halves, IsField};

/// The bits of a word: those of `stay` where they are, and those of `low` exchanged with the bits `by` above them.
#[inline(always)]
fn exchanged(x: u64, stay: u64, low: u64, by: u32) -> u64
    requires { by < 64 }
    ensures { (s : ℕ) → s < 64 → is_one result s ≡ ((is_one stay s && is_one x s)
        || ((nat_le by s && (is_one low (s - by) && is_one x (s - by))) || (is_one low s && is_one x (s + by)))) }
{
    stay & x | ((low & x) << by | low & x >> by)
}

/// The second and the third quarter of each 4 * by bits exchanged.
#[inline(always)]
fn quarters(x: u64, by: u32) -> u64
    requires { (by ≡ 16) ⊎ IsField by }
    ensures { Comes result x (by_quarters by) }
{
    match by {
        16 => exchanged(x, 0xffff_0000_0000_ffff, 0xffff_0000, 16),
        8 => exchanged(x, 0xff00_00ff_ff00_00ff, 0x0000_ff00_0000_ff00, 8),
        4 => exchanged(x, 0xf00f_f00f_f00f_f00f, 0x00f0_00f0_00f0_00f0, 4),
        2 => exchanged(x, 0xc3c3_c3c3_c3c3_c3c3, 0x0c0c_0c0c_0c0c_0c0c, 2),
        _ => exchanged(x, 0x9999_9999_9999_9999, 0x2222_2222_2222_2222, 1),
    }
}

/// The halves of each 2 * by bits exchanged.
#[inline(always)]
fn halves(x: u64, by: u32) -> u64
    requires { (by ≡ 32) ⊎ (by ≡ 16) ⊎ IsField by }
    ensures { Comes result x (by_halves by) }
{
    match by {
        32 => exchanged(x, 0, 0xffff_ffff, 32),
        16 => exchanged(x, 0, 0x0000_ffff_0000_ffff, 16),
        8 => exchanged(x, 0, 0x00ff_00ff_00ff_00ff, 8),
        4 => exchanged(x, 0, 0x0f0f_0f0f_0f0f_0f0f, 4),
        2 => exchanged(x, 0, 0x3333_3333_3333_3333, 2),
        _ => exchanged(x, 0, 0x5555_5555_5555_5555, 1),
    }
}

#[inline(always)]
fn in_turn8(x: u64) -> u64
    ensures { Comes result x (places.in_turn 8) }
{
    let far = quarters(x, 16);
    quarters(far, 8)
}

#[inline(always)]
fn in_turn4(x: u64) -> u64
    ensures { Comes result x (places.in_turn 4) }
{
    let wide = in_turn8(x);
    quarters(wide, 4)
}

#[inline(always)]
fn in_turn2(x: u64) -> u64
    ensures { Comes result x (places.in_turn 2) }
{
    let wide = in_turn4(x);
    quarters(wide, 2)
}

#[inline(always)]
fn in_turn1(x: u64) -> u64
    ensures { Comes result x (places.in_turn 1) }
{
    let wide = in_turn2(x);
    quarters(wide, 1)
}

/// The fields of w bits of both halves of a word in turn, the lowest first.
#[inline(always)]
pub(crate) fn in_turn(x: u64, w: u32) -> u64
    requires { IsField w }
    ensures { Comes result x (places.in_turn w) }
{
    match w {
        8 => in_turn8(x),
        4 => in_turn4(x),
        2 => in_turn2(x),
        _ => in_turn1(x),
    }
}

#[inline(always)]
fn apart8(x: u64) -> u64
    ensures { Comes result x (places.apart 8) }
{
    let near = quarters(x, 8);
    quarters(near, 16)
}

#[inline(always)]
fn apart4(x: u64) -> u64
    ensures { Comes result x (places.apart 4) }
{
    let near = quarters(x, 4);
    apart8(near)
}

#[inline(always)]
fn apart2(x: u64) -> u64
    ensures { Comes result x (places.apart 2) }
{
    let near = quarters(x, 2);
    apart4(near)
}

#[inline(always)]
fn apart1(x: u64) -> u64
    ensures { Comes result x (places.apart 1) }
{
    let near = quarters(x, 1);
    apart2(near)
}

/// The even fields of w bits of a word, and the odd ones behind them.
#[inline(always)]
pub(crate) fn apart(x: u64, w: u32) -> u64
    requires { IsField w }
    ensures { Comes result x (places.apart w) }
{
    match w {
        8 => apart8(x),
        4 => apart4(x),
        2 => apart2(x),
        _ => apart1(x),
    }
}

#[inline(always)]
fn backwards8(x: u64) -> u64
    ensures { Comes result x (places.backwards 8) }
{
    let far = halves(x, 32);
    let mid = halves(far, 16);
    halves(mid, 8)
}

#[inline(always)]
fn backwards4(x: u64) -> u64
    ensures { Comes result x (places.backwards 4) }
{
    let wide = backwards8(x);
    halves(wide, 4)
}

#[inline(always)]
fn backwards2(x: u64) -> u64
    ensures { Comes result x (places.backwards 2) }
{
    let wide = backwards4(x);
    halves(wide, 2)
}

#[inline(always)]
fn backwards1(x: u64) -> u64
    ensures { Comes result x (places.backwards 1) }
{
    let wide = backwards2(x);
    halves(wide, 1)
}

/// The fields of w bits of a word in reverse order.
#[inline(always)]
pub(crate) fn backwards(x: u64, w: u32) -> u64
    requires { IsField w }
    ensures { Comes result x (places.backwards w) }
{
    match w {
        8 => backwards8(x),
        4 => backwards4(x),
        2 => backwards2(x),
        _ => backwards1(x),
    }
}
