//! The slots of `slots` by the names of other fields, which stand at the same places in other forms.
use crate::slot_numbers;

// ---- general registers

/// [`slot_numbers::RD`], where the field is rt.
pub const RT: u8 = slot_numbers::RD;

/// [`slot_numbers::WD`], where the field is rt.
pub const WT: u8 = slot_numbers::WD;

/// [`slot_numbers::XD`], where the field is rt.
pub const XT: u8 = slot_numbers::XD;

/// [`slot_numbers::XA`], where the field is rt2.
pub const XT2: u8 = slot_numbers::XA;

/// [`slot_numbers::WM`], where the field is rs.
pub const WS: u8 = slot_numbers::WM;

/// [`slot_numbers::XD`], where the field is rdn.
pub const XDN: u8 = slot_numbers::XD;

/// [`slot_numbers::WD`], where the field is rdn.
pub const WDN: u8 = slot_numbers::WD;

/// [`slot_numbers::RD_OF_LANE`], where the field is zdn.
pub const RDN_OF_LANE: u8 = slot_numbers::RD_OF_LANE;

/// [`slot_numbers::R_X_OF_LANE`], where the field is src.
pub const R_SRC_OF_LANE: u8 = slot_numbers::R_X_OF_LANE;

// ---- scalar and vector registers of A64, and scalar registers of SVE

/// [`slot_numbers::SD`], where the field is rt.
pub const ST: u8 = slot_numbers::SD;

/// [`slot_numbers::DD`], where the field is rt.
pub const DT: u8 = slot_numbers::DD;

/// [`slot_numbers::VD`], where the field is zdn.
pub const VDN: u8 = slot_numbers::VD;

/// [`slot_numbers::VN`], where the field is src.
pub const V_SRC: u8 = slot_numbers::VN;

// ---- Z registers

/// [`slot_numbers::ZD`], where the field is zdn.
pub const ZDN: u8 = slot_numbers::ZD;

/// [`slot_numbers::ZD_B`], where the field is zdn.
pub const ZDN_B: u8 = slot_numbers::ZD_B;

/// [`slot_numbers::ZD_D`], where the field is zdn.
pub const ZDN_D: u8 = slot_numbers::ZD_D;

/// [`slot_numbers::ZD_H`], where the field is zdn.
pub const ZDN_H: u8 = slot_numbers::ZD_H;

/// [`slot_numbers::ZD_S`], where the field is zdn.
pub const ZDN_S: u8 = slot_numbers::ZD_S;

/// [`slot_numbers::ZD`], where the field is zda.
pub const ZDA: u8 = slot_numbers::ZD;

/// [`slot_numbers::ZD_D`], where the field is zda.
pub const ZDA_D: u8 = slot_numbers::ZD_D;

/// [`slot_numbers::ZD_S`], where the field is zda.
pub const ZDA_S: u8 = slot_numbers::ZD_S;

/// [`slot_numbers::ZD_B`], where the field is zt.
pub const ZT_B: u8 = slot_numbers::ZD_B;

/// [`slot_numbers::ZD_D`], where the field is zt.
pub const ZT_D: u8 = slot_numbers::ZD_D;

/// [`slot_numbers::ZD_H`], where the field is zt.
pub const ZT_H: u8 = slot_numbers::ZD_H;

/// [`slot_numbers::ZD_S`], where the field is zt.
pub const ZT_S: u8 = slot_numbers::ZD_S;

/// [`slot_numbers::ZD_WHOLE`], where the field is zt.
pub const ZT_WHOLE: u8 = slot_numbers::ZD_WHOLE;

/// [`slot_numbers::ZN`], where the field is zm.
pub const ZM_9_5: u8 = slot_numbers::ZN;

/// [`slot_numbers::ZN_B`], where the field is zm.
pub const ZM_9_5_B: u8 = slot_numbers::ZN_B;

/// [`slot_numbers::ZN_D`], where the field is zm.
pub const ZM_9_5_D: u8 = slot_numbers::ZN_D;

/// [`slot_numbers::ZN_H`], where the field is zm.
pub const ZM_9_5_H: u8 = slot_numbers::ZN_H;

/// [`slot_numbers::ZN_S`], where the field is zm.
pub const ZM_9_5_S: u8 = slot_numbers::ZN_S;

/// [`slot_numbers::ZN`], where the field is za.
pub const ZA: u8 = slot_numbers::ZN;

// ---- predicates

/// [`slot_numbers::PD`], where the field is pdn.
pub const PDN: u8 = slot_numbers::PD;

/// [`slot_numbers::PD_B`], where the field is pdn.
pub const PDN_B: u8 = slot_numbers::PD_B;

/// [`slot_numbers::PD_B`], where the field is pdm.
pub const PDM_B: u8 = slot_numbers::PD_B;

/// [`slot_numbers::PN`], where the field is pm.
pub const PM_8_5: u8 = slot_numbers::PN;

// ---- numbers

/// [`slot_numbers::SIGNED_IMM5`], where the field is y.
pub const SIGNED_Y: u8 = slot_numbers::SIGNED_IMM5;

/// [`slot_numbers::LEFT_20_16`], where the field is i.
pub const UNSIGNED_I: u8 = slot_numbers::LEFT_20_16;

/// [`slot_numbers::IN_UNSIGNED_13_13_BY_8`], where the field is sh.
pub const IN_UNSIGNED_SH_13_BY_8: u8 = slot_numbers::IN_UNSIGNED_13_13_BY_8;
