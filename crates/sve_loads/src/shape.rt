//! Lanes and elements by the fields of a row.
ghost use Rattle.std.specs.Prelude.{◌≡◌, ◌≤◌, ◌<◌};
ghost use Rattle.sve_loads.specs.Plans.{IsShape, dtype_shape, size_shape};

use element_loops::sizes::{dtype_bits, dtype_bytes, dtype_signed, element_bytes};
use emu_bits::U;
use sve_effects::lane_bits;

/// The bits of lanes, the bytes of elements, for how many registers, and whether a load extends the sign.
#[derive(Clone, Copy)]
pub struct Shape {
    pub bits: u32,
    pub bytes: u32,
    pub registers: u32,
    pub is_signed: bool,
}

/// The lanes and elements of a dtype, of one register. The dtype is a constant where it is called.
#[inline(always)]
fn of_dtype(dtype: u32) -> Shape
    requires { dtype < 16 }
    ensures value { result ≡ dtype_shape dtype }
    ensures shape { IsShape result }
{
    Shape {
        bits: dtype_bits(dtype),
        bytes: dtype_bytes(dtype),
        registers: 1,
        is_signed: dtype_signed(dtype),
    }
}

/// The lanes and elements of a dtype, of one register.
pub(crate) fn by_dtype(dtype: u32) -> Shape
    requires { dtype < 16 }
    ensures value { result ≡ dtype_shape dtype }
    ensures shape { IsShape result }
{
    match dtype {
        0 => of_dtype(0),
        1 => of_dtype(1),
        2 => of_dtype(2),
        3 => of_dtype(3),
        4 => of_dtype(4),
        5 => of_dtype(5),
        6 => of_dtype(6),
        7 => of_dtype(7),
        8 => of_dtype(8),
        9 => of_dtype(9),
        10 => of_dtype(10),
        11 => of_dtype(11),
        12 => of_dtype(12),
        13 => of_dtype(13),
        14 => of_dtype(14),
        _ => of_dtype(15),
    }
}

/// Lanes of a size, and elements of another, of so many registers.
pub(crate) fn by_size(size: U<2>, msz: U<2>, registers: u32) -> Shape
    requires some { 1 ≤ registers }
    requires few { registers ≤ 4 }
    ensures value { result ≡ size_shape size msz registers }
    ensures shape { IsShape result }
{
    Shape {
        bits: lane_bits(size),
        bytes: element_bytes(msz),
        registers,
        is_signed: false,
    }
}
