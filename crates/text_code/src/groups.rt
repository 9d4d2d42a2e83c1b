//! The classes of slots.
ghost use Rattle.std.specs.Prelude.{◌≡◌, true, length, drop};
ghost use Rattle.text_model.specs.Slots.{classes_of, class_at, class_in, has_class, is_picked};
ghost use Rattle.text_model.specs.Classes.{same_class};
ghost use Rattle.text_model.specs.Told.{index_of};
ghost use Rattle.text_code.specs.Sound.{is_sound_shape};

use crate::bits::number_at;
use text_model::{Class, Group, Shape};

/// The classes of which a field picks one.
fn classes_of(group: Group) -> &'static [Class]
    ensures { result.now ≡ classes_of group }
{
    match group {
        Group::General => &[Class::W, Class::X],
        Group::GeneralReversed => &[Class::X, Class::W],
        Group::GeneralOfLane => &[Class::W, Class::W, Class::W, Class::X],
        Group::Scalar => &[Class::B, Class::H, Class::S, Class::D],
        Group::WideScalar => &[Class::S, Class::D, Class::Q],
        Group::Lanes => &[Class::Zb, Class::Zh, Class::Zs, Class::Zd],
        Group::HalfLanes => &[Class::Zb, Class::Zb, Class::Zh, Class::Zs],
        Group::QuarterLanes => &[Class::Zb, Class::Zb, Class::Zb, Class::Zh],
        Group::Flags => &[Class::Pb, Class::Ph, Class::Ps, Class::Pd],
        Group::WordVector => &[Class::V2s, Class::V4s],
        Group::HalfwordVector => &[Class::V4h, Class::V8h],
        Group::ByteVector => &[Class::V8b, Class::V16b],
        Group::Extend => &[
            Class::ExtendByte,
            Class::ExtendHalfword,
            Class::ExtendWord,
            Class::ExtendDoubleword,
        ],
        Group::NarrowExtend => &[Class::ExtendByte, Class::ExtendHalfword, Class::ExtendWord],
        Group::Predication => &[Class::Zeroing, Class::Merging],
    }
}

/// Whether two items are of one class.
pub fn same_class(a: Class, b: Class) -> bool
    ensures { result ≡ same_class a b }
{
    a.number() == b.number()
}

/// The class that a number picks; where it picks none, the first.
fn class_at(group: Group, v: u32) -> Class
    ensures { result ≡ class_at group v }
{
    let classes = classes_of(group);
    let v = v as usize;
    if v < classes.len() {
        classes[v]
    } else {
        classes[0]
    }
}

/// The place of a class in a group, 0 where it is none of it.
pub fn place_in(group: Group, class: Class) -> u8
    ensures { result ≡ index_of 0 class (classes_of group) }
{
    let classes = classes_of(group);
    let mut place = 0;
    for other in classes {
        if same_class(class, *other) {
            return place;
        }
        place += 1;
    }
    0
}

/// The class that a slot shows of a word.
pub fn class_in(shape: Shape, word: u32) -> Class
    requires { is_sound_shape shape ≡ true }
    ensures { result ≡ class_in shape word }
{
    match shape {
        Shape::Only(class) => class,
        Shape::Told(b, group) | Shape::Shown(b, group) => class_at(group, number_at(b, word)),
    }
}

/// Whether a word's bits pick a class.
pub fn has_class(shape: Shape, word: u32) -> bool
    requires { is_sound_shape shape ≡ true }
    ensures { result ≡ has_class shape word }
{
    match shape {
        Shape::Only(_) => true,
        Shape::Told(b, group) | Shape::Shown(b, group) => {
            (number_at(b, word) as usize) < classes_of(group).len()
        }
    }
}
