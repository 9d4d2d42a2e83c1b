//! Laws of the definitions, each the contract of a function that does nothing.
ghost use Rattle.std.specs.Prelude.{◌≡◌, ℕ, List, nat_eq, true};
ghost use Rattle.std.specs.List.{common_prefix_len};
ghost use Rattle.command_model.specs.Partings.{IsParting};
ghost use Rattle.command_model.specs.Sweep.{Sweep, fits, sweep_text, text_before};

/// The place at which outputs part is the least at which they differ or one of them has ended.
#[tactic(auto, using(crate::specs::PartingLaws::parts_there))]
pub fn outputs_part_at_the_least_place()
    ensures { (first output : List ℕ) → IsParting first output (common_prefix_len nat_eq first output) }
{}

/// Where the output and the errors fit at each length, the lines before the first length at which they don't are all
/// sixteen.
#[tactic(auto, using(crate::specs::SweepLaws::lines_whole))]
pub fn a_sweep_that_fits_is_whole()
    ensures { (s : Sweep) → fits s ≡ true → text_before s ≡ sweep_text s }
{}
